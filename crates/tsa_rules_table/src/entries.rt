//! The marks that are noted, one by one.
ghost use Rattle.std.specs.Prelude.{◌≡◌, ℕ, Some, length, option_map, slice_get, IfSome};
ghost use Rattle.tsa_rules_table.specs.Rows.{entry_of, place_of};
ghost use Rattle.tsa_rules.specs.declared.mark.Mark.{Mark as NotedMark};

use crate::marks::Marks;
use tsa_rules::Mark;

/// A mark that is noted: its row, the number of its path, and what the row says of the path.
#[derive(Clone, Copy)]
pub struct Entry {
    pub row: u32,
    pub number: u32,
    pub mark: Mark,
}

/// A mark by the number under which it is kept.
fn entry_at(key: u64, mark: Mark) -> Entry
    ensures { entry_of result ≡ (place_of key, mark) }
{
    Entry {
        row: (key / 4_294_967_296) as u32,
        number: (key % 4_294_967_296) as u32,
        mark,
    }
}

impl Marks {
    /// How many marks are noted.
    pub fn len(&self) -> usize
        ensures { result ≡ length self.now.marks }
    {
        self.marks.len()
    }

    /// A mark that is noted, by its number in the order in which the first of each row and path was. No other one is of its row and path.
    pub fn entry(&self, at: usize) -> Option<Entry>
        ensures is { option_map entry_of result ≡ slice_get self.now.marks at }
        ensures only { IfSome result (λ e. (i : ℕ) (m : NotedMark) → slice_get self.now.marks i ≡ Some ((e.row, e.number), m) → i ≡ at) }
    {
        let (key, mark) = self.marks.as_slice().get_index(at)?;
        Some(entry_at(*key, *mark))
    }
}
