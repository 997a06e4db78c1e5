//! Paths with numbers, each once.
ghost use Rattle.std.specs.Prelude.{◌≡◌, [], false, length, option_map, slice_get, IfOk, IfErr, OnOk, OnErr};
ghost use Rattle.tsa_path.specs.PathTables.{is_known as spec_is_known, number_of, with_path, is_full as spec_is_full, refusal};

use crate::key::Key;
use crate::refusal::InternRefusal;
use indexmap::IndexSet;
use std::alloc::Global;
use std::marker::Model;
use tsa_base::NoMemory;
use tsa_place_model::Path;

/// Different paths, numbered from 0 in the order in which they came. Contracts see the list of them.
pub struct PathTable {
    keys: IndexSet<Key>,
}

impl Drop for PathTable {
    /// Lets its parts go, in one call for all who let one go.
    fn drop(self) {
        let PathTable { keys: _ } = self;
    }
}

impl Model for PathTable {
    ghost use Rattle.std.specs.Prelude.{List, map, ◌≤◌, length};
    ghost use Rattle.tsa_place_model.specs.Ways.{Way};
    ghost use Rattle.tsa_path.specs.PathTables.{path_limit};

    ghost Value = { List Way };

    ghost view = { λ table. map (λ key. key.path) table.keys.keys };

    ghost invariant = { λ table. length table.keys.keys ≤ path_limit };
}

/// The same keys once more.
fn copy_keys(alloc: Global, keys: &IndexSet<Key>) -> Result<IndexSet<Key>, NoMemory>
    ensures { IfOk result (λ copy. copy.keys ≡ keys.now.keys) }
{
    let mut copy = IndexSet::new(alloc);
    'each: for key in keys.as_slice() {
        let same = key.copy(alloc)?;
        copy.insert(same)?;
    }
    Ok(copy)
}

impl PathTable {
    /// No paths. No memory is taken.
    pub fn new(alloc: Global) -> PathTable
        ensures { result ≡ [] }
    {
        PathTable {
            keys: IndexSet::new(alloc),
        }
    }

    /// How many paths there are.
    pub fn len(&self) -> u32
        ensures { result ≡ length self.now }
    {
        self.keys.len() as u32
    }

    /// The path of a number.
    pub fn path(&self, id: u32) -> Option<&Path>
        ensures { option_map (λ path. path.now) result ≡ slice_get self.now id }
    {
        Some(&self.keys.get_index(id as usize)?.path)
    }

    /// Whether a path is among them.
    fn is_known(&self, key: &Key) -> bool
        ensures { result ≡ spec_is_known self.now key.now.path }
    {
        self.keys.contains(key)
    }

    /// Whether a path is new and there is no room for it.
    fn is_full(&self, key: &Key) -> bool
        ensures { result ≡ spec_is_full self.now key.now.path }
    {
        self.len() >= 256 && !self.is_known(key)
    }

    /// The number of a path: a known one keeps its own, and a new one comes after all others.
    pub fn intern(&mut self, path: Path) -> Result<u32, InternRefusal>
        ensures number { IfOk result (λ id. id ≡ number_of self.old path) }
        ensures taken { OnOk result (self.new ≡ with_path self.old path) }
        ensures room { OnOk result (spec_is_full self.old path ≡ false) }
        ensures reason { IfErr result (λ reason. reason ≡ refusal self.old path) }
        ensures kept { OnErr result (self.new ≡ self.old) }
    {
        let key = Key { path };
        if self.is_full(&key) {
            return Err(InternRefusal::Full(key.path));
        }
        match self.keys.insert_full(key) {
            Ok((id, _)) => Ok(id as u32),
            Err(refused) => Err(InternRefusal::NoMemory(refused.value.path)),
        }
    }

    /// The same table once more.
    pub fn copy(&self, alloc: Global) -> Result<PathTable, NoMemory>
        ensures { IfOk result (λ copy. copy ≡ self.now) }
    {
        let keys = copy_keys(alloc, &self.keys)?;
        Ok(PathTable { keys })
    }
}
