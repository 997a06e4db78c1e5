//! Notes of attributes: each is noted of the path of the lock that it names.
ghost use Rattle.std.specs.Prelude.{◌≡◌, option_and_then, IfOk, OnOk};
ghost use Rattle.tsa_path.specs.Substitution.{substituted};
ghost use Rattle.tsa_rules.specs.Attributes.{all_as_called, as_called};
ghost use Rattle.tsa_rules.specs.Marks.{claim_in};
ghost use Rattle.tsa_rules_table.specs.Notes.{NotesAttributes};
ghost use Rattle.tsa_rules_table.specs.Rows.{IsBegun, KeepsRows};
ghost use Rattle.tsa_rules_table.specs.Saying.{named_by, noted_attribute, Says};

use crate::marks::Marks;
use crate::note::Note;
use crate::notes::copy;
use crate::numbers::Numbers;
use std::alloc::Global;
use tsa_base::NoMemory;
use tsa_path::substitute;
use tsa_place_model::Path;
use tsa_profile_accesses::NamedLock;
use tsa_rules::Claim;

/// What a lock's attribute claims.
fn claim_of(lock: &NamedLock) -> Claim
    ensures { result ≡ claim_in lock.now }
{
    Claim {
        kind: lock.kind,
        success: lock.success,
    }
}

/// The path of a lock.
fn path_of(alloc: Global, lock: &NamedLock) -> Result<Option<Path>, NoMemory>
    ensures { IfOk result (λ path. path ≡ lock.now.path) }
{
    copy(alloc, &lock.path)
}

/// The path of a lock as the caller of its function has it, where it has one there.
fn called_path(
    alloc: Global,
    lock: &NamedLock,
    ways: &[Option<Path>],
) -> Result<Option<Path>, NoMemory>
    ensures { IfOk result (λ path. path ≡ option_and_then (substituted ways.now) lock.now.path) }
{
    match &lock.path {
        Some(path) => substitute(alloc, path, ways),
        None => Ok(None),
    }
}

impl Marks {
    /// Notes an attribute of a called function, as its caller has it.
    fn note_called(
        &mut self,
        numbers: &mut Numbers,
        lock: &NamedLock,
        ways: &[Option<Path>],
    ) -> Result<(), NoMemory>
        requires begun { IsBegun self.old }
        ensures row { OnOk result (Says numbers.old (noted_attribute (as_called ways.now lock.now)) self.old self.new) }
        ensures kept { OnOk result (KeepsRows self.old self.new) }
        ensures numbers { numbers.new ≡ numbers.old }
    {
        let path = called_path(self.alloc, lock, ways)?;
        self.note(numbers, path, Note::Named(claim_of(lock)))
    }

    /// Notes an attribute of the function itself.
    fn note_lock(&mut self, numbers: &mut Numbers, lock: &NamedLock) -> Result<(), NoMemory>
        requires begun { IsBegun self.old }
        ensures row { OnOk result (Says numbers.old (noted_attribute lock.now) self.old self.new) }
        ensures kept { OnOk result (KeepsRows self.old self.new) }
        ensures numbers { numbers.new ≡ numbers.old }
    {
        let path = path_of(self.alloc, lock)?;
        self.note(numbers, path, Note::Named(claim_of(lock)))
    }

    /// Notes the attributes of a called function, as its caller has them.
    #[tactic(auto, using(crate::proofs::Saying::begun_on))]
    pub fn note_attributes(
        &mut self,
        numbers: &mut Numbers,
        locks: &[NamedLock],
        ways: &[Option<Path>],
    ) -> Result<(), NoMemory>
        requires begun { IsBegun self.old }
        ensures row { OnOk result (NotesAttributes numbers.old self.old self.new (all_as_called ways.now locks.now)) }
        ensures kept { OnOk result (KeepsRows self.old self.new) }
        ensures numbers { numbers.new ≡ numbers.old }
    {
        'each: for lock in locks {
            self.note_called(numbers, lock, ways)?;
        }
        Ok(())
    }

    /// Notes the attributes of the function itself.
    #[tactic(auto, using(crate::proofs::Saying::begun_on))]
    pub fn note_own(&mut self, numbers: &mut Numbers, locks: &[NamedLock]) -> Result<(), NoMemory>
        requires begun { IsBegun self.old }
        ensures row { OnOk result (NotesAttributes numbers.old self.old self.new locks.now) }
        ensures kept { OnOk result (KeepsRows self.old self.new) }
        ensures numbers { numbers.new ≡ numbers.old }
    {
        'each: for lock in locks {
            self.note_lock(numbers, lock)?;
        }
        Ok(())
    }
}
