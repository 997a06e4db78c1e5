//! The numbers of the paths of a function.
ghost use Rattle.std.specs.Prelude.{◌≡◌, length, option_map, slice_get, IfOk};
ghost use Rattle.tsa_rules_table.specs.Numbers.{below_count, known_number};

use std::alloc::Global;
use std::marker::Model;
use tsa_base::NoMemory;
use tsa_path::{InternRefusal, PathTable};
use tsa_place_model::Path;

/// A copy of a table of paths, by which paths are numbered: what the table takes in later has no number. Contracts see the list of the
/// paths that have one.
#[derive(Drop)]
pub struct Numbers {
    table: PathTable,
    known: u32,
}

impl Model for Numbers {
    ghost use Rattle.std.specs.Prelude.{◌≤◌, List, length, take};
    ghost use Rattle.tsa_place_model.specs.Ways.{Way};

    ghost Value = { List Way };

    ghost view = { λ numbers. take numbers.known numbers.table };

    ghost invariant = { λ numbers. numbers.known ≤ length numbers.table };
}

/// A number, where it is below the count of those that are known.
fn below(number: u32, known: u32) -> Option<u32>
    ensures { result ≡ below_count number known }
{
    if number < known { Some(number) } else { None }
}

impl Numbers {
    /// The numbers of the paths of a table.
    pub fn copy_of(alloc: Global, paths: &PathTable) -> Result<Numbers, NoMemory>
        ensures { IfOk result (λ numbers. numbers ≡ paths.now) }
    {
        let table = paths.copy(alloc)?;
        let known = table.len();
        Ok(Numbers { table, known })
    }

    /// How many paths have a number.
    pub fn len(&self) -> u32
        ensures { result ≡ length self.now }
    {
        self.known
    }

    /// The path of a number.
    pub fn path(&self, number: u32) -> Option<&Path>
        ensures { option_map (λ path. path.now) result ≡ slice_get self.now number }
    {
        self.table.path(below(number, self.known)?)
    }

    /// The number of a path, where it has one.
    pub fn number(&mut self, path: Path) -> Result<Option<u32>, NoMemory>
        ensures number { IfOk result (λ number. number ≡ known_number self.old path) }
        ensures kept { self.new ≡ self.old }
    {
        match self.table.intern(path) {
            Ok(number) => Ok(below(number, self.known)),
            Err(InternRefusal::Full(_)) => Ok(None),
            Err(InternRefusal::NoMemory(_)) => Err(NoMemory),
        }
    }
}
