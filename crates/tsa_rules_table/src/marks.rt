//! What points say of paths, by the numbers of the paths.
ghost use Rattle.std.specs.Prelude.{◌≡◌, ◌+◌, ◌*◌, ◌^◌, ℕ, List, [], None, OnOk};
ghost use Rattle.tsa_rules_table.specs.Notes.{IsLastRow};
ghost use Rattle.tsa_rules_table.specs.Rows.{last_row, mark_in, rows_in, IsBegun, Puts};
ghost use Rattle.tsa_rules_table.specs.Saying.{Adds};
ghost use Rattle.tsa_rules.specs.Marks.{no_mark};
ghost use Rattle.tsa_place_model.specs.Ways.{Way};

use crate::note::Note;
use indexmap::IndexMap;
use std::alloc::Global;
use std::marker::Model;
use tsa_base::NoMemory;
use tsa_rules::Mark;

/// A row for each point that is begun, and in it a mark for each path by its number; where nothing is noted, the point says nothing of the
/// path.
pub struct Marks {
    pub(crate) alloc: Global,
    pub(crate) marks: IndexMap<u64, Mark>,
    rows: u32,
}

impl Drop for Marks {
    /// Lets its parts go, in one call for all who let one go.
    fn drop(self) {
        let Marks {
            alloc: _,
            marks: _,
            rows: _,
        } = self;
    }
}

impl Model for Marks {
    ghost use Rattle.tsa_rules_table.specs.Rows.{Rows, rows_of, OnlyBegunRowsSay};

    ghost Value = { Rows };

    ghost view = { λ marks. rows_of marks.rows marks.marks.entries };

    ghost invariant = { λ marks. OnlyBegunRowsSay (rows_of marks.rows marks.marks.entries) };
}

/// The number under which a mark is kept: the row stands above the number of the path.
fn key_of(row: u32, number: u32) -> u64
    ensures { result ≡ row * 2 ^ 32 + number }
{
    u64::from(row) * 4_294_967_296 + u64::from(number)
}

impl Marks {
    /// No rows. No memory is taken.
    pub fn new(alloc: Global) -> Marks
        ensures { result ≡ record { count = 0; marks = [] } }
    {
        Marks {
            alloc,
            marks: IndexMap::new(alloc),
            rows: 0,
        }
    }

    /// How many rows are begun.
    pub fn rows(&self) -> u32
        ensures { result ≡ rows_in self.now }
    {
        self.rows
    }

    /// What a row says of the path of a number.
    pub fn mark(&self, row: u32, number: u32) -> Mark
        ensures { result ≡ mark_in self.now row number }
    {
        let key = key_of(row, number);
        self.marks.get(&key).copied().unwrap_or(Mark::none())
    }

    /// Begins a row behind the others, which says nothing, so that there are so many.
    pub fn begin_row(&mut self, count: u32)
        requires next { count ≡ rows_in self.old + 1 }
        ensures begun { rows_in self.new ≡ rows_in self.old + 1 }
        ensures row { (paths : List Way) → IsLastRow paths self.new [] [] [] None }

        // of paths that have no number the row says nothing, either
        ensures nothing { (number : ℕ) → mark_in self.new (rows_in self.old) number ≡ no_mark }
        ensures kept { (row number : ℕ) → mark_in self.new row number ≡ mark_in self.old row number }
    {
        self.rows = count;
    }

    /// The row that was begun last.
    fn last(&self) -> u32
        requires begun { IsBegun self.now }
        ensures { result ≡ last_row self.now }
    {
        self.rows - 1
    }

    /// Puts a mark into the last row.
    fn set(&mut self, number: u32, mark: Mark) -> Result<(), NoMemory>
        requires begun { IsBegun self.old }
        ensures { OnOk result (Puts self.old self.new number mark) }
    {
        let row = self.last();
        let key = key_of(row, number);
        self.marks.insert(key, mark)?;
        Ok(())
    }

    /// Notes what the last row says more of the path of a number.
    pub(crate) fn add(&mut self, number: u32, note: Note) -> Result<(), NoMemory>
        requires begun { IsBegun self.old }
        ensures { OnOk result (Adds self.old self.new number note) }
    {
        let row = self.last();
        let mark = self.mark(row, number);
        self.set(number, note.on(mark))
    }
}
