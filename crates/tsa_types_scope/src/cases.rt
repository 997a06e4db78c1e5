//! The cases of a switch (C11 6.8.4.2).
ghost use Rattle.std.specs.Prelude.{◌≡◌, [], OnOk, OnErr};
ghost use Rattle.tsa_tree.specs.types.Targets.{case_at, with_case};

use indexmap::IndexMap;
use std::alloc::Global;
use std::marker::Model;
use tsa_base::NoMemory;

/// The values of a switch's cases, modulo 2^32, each with the place of the first case that has it. Contracts see the list of them.
pub struct Cases {
    entries: IndexMap<u32, u32>,
}

impl Drop for Cases {
    /// Lets its parts go, in one call for all who let one go.
    fn drop(self) {
        let Cases { entries: _ } = self;
    }
}

impl Model for Cases {
    ghost use Rattle.tsa_tree.specs.types.Targets.{Cases};

    ghost Value = { Cases };

    ghost view = { λ cases. cases.entries.entries };
}

impl Cases {
    /// No cases. No memory is taken.
    pub fn new(alloc: Global) -> Cases
        ensures { result ≡ [] }
    {
        Cases {
            entries: IndexMap::new(alloc),
        }
    }

    /// Where the first case of a value, modulo 2^32, stands: the byte that its statement begins at.
    pub fn at(&self, value: u32) -> Option<u32>
        ensures { result ≡ case_at self.now value }
    {
        self.entries.get(&value).copied()
    }

    /// Notes the place of a case, where none has its value yet. A refused call notes nothing.
    pub fn note(&mut self, value: u32, place: u32) -> Result<(), NoMemory>
        ensures noted { OnOk result (self.new ≡ with_case value place self.old) }
        ensures refused { OnErr result (self.new ≡ self.old) }
    {
        self.entries.entry(value)?.or_insert(place);
        Ok(())
    }
}
