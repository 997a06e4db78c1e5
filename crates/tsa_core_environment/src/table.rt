//! Which locals never change, by the names of functions.
ghost use Rattle.std.specs.Prelude.{◌≡◌, [], is_some, option_map, IfOk, OnOk};
ghost use Rattle.tsa_core_environment.specs.Bodies.{with_first, stable_or};
ghost use Rattle.tsa_tree.specs.types.Scopes.{found};

use indexmap::IndexMap;
use std::alloc::Global;
use std::marker::Model;
use tsa_base::NoMemory;

/// Names of functions with which of their locals never change, each by its first body. Contracts see the list of them.
pub struct Table<'a> {
    alloc: Global,
    entries: IndexMap<&'a [u8], Vec<bool>>,
}

impl Drop for Table<'_> {
    /// Lets its parts go, in one call for all who let one go.
    fn drop(self) {
        let Table {
            alloc: _,
            entries: _,
        } = self;
    }
}

impl<'a> Model for Table<'a> {
    ghost use Rattle.std.specs.Prelude.{map};
    ghost use Rattle.tsa_core_environment.specs.Bodies.{Table};

    ghost Value = { Table };

    ghost view = { λ table. map (λ e. (e.0.now, e.1.items)) table.entries.entries };
}

/// A copy of a list.
fn copied(alloc: Global, list: &[bool]) -> Result<Vec<bool>, NoMemory>
    ensures { IfOk result (λ copy. copy.items ≡ list.now) }
{
    let mut copy = Vec::new(alloc);
    copy.extend_from_slice(list)?;
    Ok(copy)
}

impl<'a> Table<'a> {
    /// No bodies. No memory is taken.
    pub fn new(alloc: Global) -> Table<'a>
        ensures { result ≡ [] }
    {
        Table {
            alloc,
            entries: IndexMap::new(alloc),
        }
    }

    /// The locals of the body of a name, where one is kept.
    fn find(&self, name: &[u8]) -> Option<&Vec<bool>>
        ensures { option_map (λ stable. stable.now.items) result ≡ found self.now name.now }
    {
        self.entries.get(name)
    }

    /// Whether a body of a name is kept.
    pub fn has(&self, name: &[u8]) -> bool
        ensures { result ≡ is_some (found self.now name.now) }
    {
        self.find(name).is_some()
    }

    /// The locals of the body of a name, or so many parameters that never change.
    pub fn get(&self, name: &[u8], params: usize) -> Result<Vec<bool>, NoMemory>
        ensures { IfOk result (λ stable. stable.items ≡ stable_or params (found self.now name.now)) }
    {
        match self.find(name) {
            Some(stable) => copied(self.alloc, stable),
            None => Ok(vec![in self.alloc; true; params]?),
        }
    }

    /// Keeps the locals of a body, where it is the first one of its name.
    pub fn keep(&mut self, name: &'a [u8], stable: Vec<bool>) -> Result<(), NoMemory>
        ensures { OnOk result (self.new ≡ with_first name.now stable.items self.old) }
    {
        self.entries.entry(name)?.or_insert(stable);
        Ok(())
    }
}
