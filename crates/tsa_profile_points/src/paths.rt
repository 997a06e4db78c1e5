//! The paths of a function as they are gathered: each once, and none any more where there was no room for one.
ghost use Rattle.std.specs.Prelude.{◌≡◌, [], Some, option_and_then, IfOk, OnOk};
ghost use Rattle.tsa_profile_points.specs.Gathering.{with_all, with_guards, with_one, with_way};
ghost use Rattle.tsa_profile_points.specs.Ways.{named_ways, substituted_ways};
ghost use Rattle.tsa_path.specs.Substitution.{substituted};

use std::alloc::Global;
use std::marker::Model;
use std::mem::replace;
use tsa_base::NoMemory;
use tsa_path::{InternRefusal, PathTable, substitute};
use tsa_place_model::Path;
use tsa_profile_accesses::{Access, Footprint, NamedLock};

/// Paths, each once, whether there was no room for one, and room for what a point reads and writes. Contracts see the list of the paths, or
/// none where there was no room.
#[derive(Drop)]
pub struct Gathered {
    alloc: Global,
    table: PathTable,
    is_full: bool,
    room: Footprint,
}

impl Model for Gathered {
    ghost use Rattle.std.specs.Prelude.{List, Option, Some, None, if◌then◌else◌};
    ghost use Rattle.tsa_place_model.specs.Ways.{Way};

    ghost Value = { Option (List Way) };

    ghost view = { λ gathered. if gathered.is_full then None else Some gathered.table };
}

/// The same path once more, where there is one.
fn copy(alloc: Global, path: &Option<Path>) -> Result<Option<Path>, NoMemory>
    ensures { IfOk result (λ after. after ≡ path.now) }
{
    match path {
        Some(path) => Ok(Some(path.copy(alloc)?)),
        None => Ok(None),
    }
}

/// The path of a lock, where it has one.
fn named_path(alloc: Global, lock: &NamedLock) -> Result<Option<Path>, NoMemory>
    ensures { IfOk result (λ path. path ≡ lock.now.path) }
{
    copy(alloc, &lock.path)
}

/// The path of a lock as the caller of its function has it, where it has one there.
fn called_path(
    alloc: Global,
    ways: &[Option<Path>],
    lock: &NamedLock,
) -> Result<Option<Path>, NoMemory>
    ensures { IfOk result (λ path. path ≡ option_and_then (substituted ways.now) lock.now.path) }
{
    match &lock.path {
        Some(path) => substitute(alloc, path, ways),
        None => Ok(None),
    }
}

impl Gathered {
    /// None. No memory is taken.
    pub fn new(alloc: Global) -> Gathered
        ensures { result ≡ Some [] }
    {
        Gathered {
            alloc,
            table: PathTable::new(alloc),
            is_full: false,
            room: Footprint::new(alloc),
        }
    }

    /// The table of them, where there was room for all.
    pub fn into_table(self) -> Option<PathTable>
        ensures { result ≡ self }
    {
        if self.is_full { None } else { Some(self.table) }
    }

    /// One more.
    #[tactic(auto, using(crate::proofs::Keeps::table_keeps))]
    fn put(&mut self, path: Path) -> Result<(), NoMemory>
        ensures { OnOk result (self.new ≡ with_way self.old path) }
    {
        match self.table.intern(path) {
            Ok(_) => Ok(()),
            Err(InternRefusal::Full(_)) => {
                self.is_full = true;
                Ok(())
            }
            Err(InternRefusal::NoMemory(_)) => Err(NoMemory),
        }
    }

    /// One more, where there is one.
    fn put_one(&mut self, path: Option<Path>) -> Result<(), NoMemory>
        ensures { OnOk result (self.new ≡ with_one self.old path) }
    {
        match path {
            Some(path) => self.put(path),
            None => Ok(()),
        }
    }

    /// Those of some guards.
    fn put_guards(&mut self, alloc: Global, guards: &[Option<Path>]) -> Result<(), NoMemory>
        ensures { OnOk result (self.new ≡ with_all self.old guards.now) }
    {
        'each: for guard in guards {
            let path = copy(alloc, guard)?;
            self.put_one(path)?;
        }
        Ok(())
    }

    /// Those of the guards of an access.
    fn put_access(&mut self, alloc: Global, access: &Access) -> Result<(), NoMemory>
        ensures { OnOk result (self.new ≡ with_all self.old access.now.guards) }
    {
        self.put_guards(alloc, &access.guards)
    }

    /// Those of the guards of accesses.
    fn put_accesses(&mut self, alloc: Global, found: &[Access]) -> Result<(), NoMemory>
        ensures { OnOk result (self.new ≡ with_guards self.old found.now) }
    {
        'each: for access in found {
            self.put_access(alloc, access)?;
        }
        Ok(())
    }

    /// The room, in which there is nothing.
    pub fn take_room(&mut self) -> Footprint
        ensures room { result ≡ [] }
        ensures kept { self.new ≡ self.old }
    {
        let mut room = replace(&mut self.room, Footprint::new(self.alloc));
        room.clear();
        room
    }

    /// Those of the guards of what a point reads and writes, of which the room is kept.
    pub fn put_footprint(&mut self, found: Footprint) -> Result<(), NoMemory>
        ensures { OnOk result (self.new ≡ with_guards self.old found) }
    {
        self.put_accesses(self.alloc, found.accesses())?;
        let _none = replace(&mut self.room, found);
        Ok(())
    }

    /// Those of locks that attributes name.
    pub fn put_named(&mut self, alloc: Global, locks: &[NamedLock]) -> Result<(), NoMemory>
        ensures { OnOk result (self.new ≡ with_all self.old (named_ways locks.now)) }
    {
        'each: for lock in locks {
            let path = named_path(alloc, lock)?;
            self.put_one(path)?;
        }
        Ok(())
    }

    /// Those of locks that a function names, where it is called with some arguments.
    pub fn put_called(
        &mut self,
        alloc: Global,
        locks: &[NamedLock],
        ways: &[Option<Path>],
    ) -> Result<(), NoMemory>
        ensures { OnOk result (self.new ≡ with_all self.old (substituted_ways ways.now locks.now)) }
    {
        'each: for lock in locks {
            let path = called_path(alloc, ways, lock)?;
            self.put_one(path)?;
        }
        Ok(())
    }
}
