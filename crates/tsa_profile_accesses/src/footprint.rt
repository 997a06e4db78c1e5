//! The cells that a point reads and writes, in order of the text.
ghost use Rattle.std.specs.Prelude.{◌≡◌, [], ◌++◌, reverse, OnOk};

use crate::access::{Access, Accesses};
use std::alloc::Global;
use std::marker::Model;
use std::mem::replace;
use tsa_base::NoMemory;

/// Accesses in order of the text, and room in which those of one expression are found. Contracts see the list of them.
pub struct Footprint {
    alloc: Global,
    accesses: Vec<Access>,
    room: Vec<Access>,
}

impl Drop for Footprint {
    /// Lets its parts go, in one call for all who let one go.
    fn drop(self) {
        let Footprint {
            alloc: _,
            accesses: _,
            room: _,
        } = self;
    }
}

impl Model for Footprint {
    ghost use Rattle.std.specs.Prelude.{List};
    ghost use Rattle.tsa_profile_accesses.specs.Accesses.{Access};

    ghost Value = { List Access };

    ghost view = { λ footprint. footprint.accesses.items };
}

/// Moves accesses behind others, the last one first.
fn move_from_last(from_last: &mut Vec<Access>, found: &mut Vec<Access>) -> Result<(), NoMemory>
    ensures { OnOk result (found.new.items ≡ found.old.items ++ reverse from_last.old.items) }
{
    'each: while let Some(access) = from_last.pop() {
        found.push(access)?;
    }
    Ok(())
}

impl Footprint {
    /// None. No memory is taken.
    pub fn new(alloc: Global) -> Footprint
        ensures { result ≡ [] }
    {
        Footprint {
            alloc,
            accesses: Vec::new(alloc),
            room: Vec::new(alloc),
        }
    }

    /// The accesses.
    pub fn accesses(&self) -> &[Access]
        ensures { result.now ≡ self.now }
    {
        &self.accesses
    }

    /// Leaves none. The memory is kept.
    pub fn clear(&mut self)
        ensures { self.new ≡ [] }
    {
        self.accesses.clear();
    }

    /// The room, in which there are none.
    pub fn take_room(&mut self) -> Accesses
        ensures room { result ≡ [] }
        ensures kept { self.new ≡ self.old }
    {
        let mut from_last = replace(&mut self.room, Vec::new(self.alloc));
        from_last.clear();
        Accesses { from_last }
    }

    /// Moves those of an expression behind the others, and keeps their room.
    pub fn put(&mut self, found: Accesses) -> Result<(), NoMemory>
        ensures { OnOk result (self.new ≡ self.old ++ found) }
    {
        let mut from_last = found.from_last;
        move_from_last(&mut from_last, &mut self.accesses)?;
        let _none = replace(&mut self.room, from_last);
        Ok(())
    }
}
