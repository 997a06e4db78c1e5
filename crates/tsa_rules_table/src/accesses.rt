//! Notes of accesses: each is noted of the paths of its guards.
ghost use Rattle.std.specs.Prelude.{◌≡◌, map, OnOk};
ghost use Rattle.tsa_rules_table.specs.Notes.{core_access, NotesLeft, NotesRight};
ghost use Rattle.tsa_rules_table.specs.Rows.{IsBegun, KeepsRows};
ghost use Rattle.tsa_rules_table.specs.Saying.{guarding, noted_access, noted_all, Says};

use crate::marks::Marks;
use crate::note::{Note, Side};
use crate::notes::copy;
use crate::numbers::Numbers;
use tsa_base::NoMemory;
use tsa_place_model::Path;
use tsa_profile_accesses::Access;

impl Marks {
    /// Notes the same of each guard of an access.
    #[tactic(auto, using(crate::proofs::Saying::begun_on))]
    fn note_guards(
        &mut self,
        numbers: &mut Numbers,
        guards: &[Option<Path>],
        note: Note,
    ) -> Result<(), NoMemory>
        requires begun { IsBegun self.old }
        ensures row { OnOk result (Says numbers.old (noted_all guards.now note) self.old self.new) }
        ensures kept { OnOk result (KeepsRows self.old self.new) }
        ensures numbers { numbers.new ≡ numbers.old }
    {
        'each: for guard in guards {
            let path = copy(self.alloc, guard)?;
            self.note(numbers, path, note)?;
        }
        Ok(())
    }

    /// Notes an access that is made on a side.
    fn note_access(
        &mut self,
        numbers: &mut Numbers,
        access: &Access,
        side: Side,
    ) -> Result<(), NoMemory>
        requires begun { IsBegun self.old }
        ensures row { OnOk result (Says numbers.old (noted_access side (core_access access.now)) self.old self.new) }
        ensures kept { OnOk result (KeepsRows self.old self.new) }
        ensures numbers { numbers.new ≡ numbers.old }
    {
        let is_write = access.is_write;
        self.note_guards(numbers, &access.guards, Note::Guards { side, is_write })
    }

    /// Notes accesses that are made on a side.
    #[tactic(auto, using(crate::proofs::Saying::begun_on))]
    fn note_accesses(
        &mut self,
        numbers: &mut Numbers,
        found: &[Access],
        side: Side,
    ) -> Result<(), NoMemory>
        requires begun { IsBegun self.old }
        ensures row { OnOk result (Says numbers.old (guarding side (map core_access found.now)) self.old self.new) }
        ensures kept { OnOk result (KeepsRows self.old self.new) }
        ensures numbers { numbers.new ≡ numbers.old }
    {
        'each: for access in found {
            self.note_access(numbers, access, side)?;
        }
        Ok(())
    }

    /// Notes accesses that are made on the right side of an assignment or elsewhere.
    pub fn note_right(&mut self, numbers: &mut Numbers, found: &[Access]) -> Result<(), NoMemory>
        requires begun { IsBegun self.old }
        ensures row { OnOk result (NotesRight numbers.old self.old self.new (map core_access found.now)) }
        ensures kept { OnOk result (KeepsRows self.old self.new) }
        ensures numbers { numbers.new ≡ numbers.old }
    {
        self.note_accesses(numbers, found, Side::Right)
    }

    /// Notes accesses that are made on the left side of an assignment.
    pub fn note_left(&mut self, numbers: &mut Numbers, found: &[Access]) -> Result<(), NoMemory>
        requires begun { IsBegun self.old }
        ensures row { OnOk result (NotesLeft numbers.old self.old self.new (map core_access found.now)) }
        ensures kept { OnOk result (KeepsRows self.old self.new) }
        ensures numbers { numbers.new ≡ numbers.old }
    {
        self.note_accesses(numbers, found, Side::Left)
    }
}
