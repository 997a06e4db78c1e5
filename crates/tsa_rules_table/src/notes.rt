//! Notes of what the last row says of paths.
ghost use Rattle.std.specs.Prelude.{◌≡◌, IfOk, OnOk};
ghost use Rattle.tsa_rules_table.specs.Rows.{IsBegun, KeepsRows};
ghost use Rattle.tsa_rules_table.specs.Saying.{noted, Says};

use crate::marks::Marks;
use crate::note::Note;
use crate::numbers::Numbers;
use std::alloc::Global;
use tsa_base::NoMemory;
use tsa_place_model::Path;

/// The same path once more, where there is one.
pub(crate) fn copy(alloc: Global, path: &Option<Path>) -> Result<Option<Path>, NoMemory>
    ensures { IfOk result (λ after. after ≡ path.now) }
{
    match path {
        Some(path) => Ok(Some(path.copy(alloc)?)),
        None => Ok(None),
    }
}

impl Marks {
    /// Notes what the last row says more of a path, where that has a number.
    pub(crate) fn note(
        &mut self,
        numbers: &mut Numbers,
        path: Option<Path>,
        note: Note,
    ) -> Result<(), NoMemory>
        requires begun { IsBegun self.old }
        ensures row { OnOk result (Says numbers.old (noted path note) self.old self.new) }
        ensures kept { OnOk result (KeepsRows self.old self.new) }
        ensures numbers { numbers.new ≡ numbers.old }
    {
        let Some(path) = path else {
            return Ok(());
        };
        match numbers.number(path)? {
            Some(number) => self.add(number, note),
            None => Ok(()),
        }
    }
}
