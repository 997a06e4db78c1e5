//! Paths without numbers, each once.
ghost use Rattle.std.specs.Prelude.{◌≡◌, [], not, IfOk, OnOk, OnErr};
ghost use Rattle.tsa_path.specs.PathTables.{is_known, with_path};

use crate::key::Key;
use indexmap::IndexSet;
use std::alloc::Global;
use std::marker::Model;
use tsa_base::NoMemory;
use tsa_place_model::Path;

/// Different paths, as many as there are, in the order in which they came. Contracts see the list of them.
pub struct PathSet {
    keys: IndexSet<Key>,
}

impl Drop for PathSet {
    /// Lets its parts go, in one call for all who let one go.
    fn drop(self) {
        let PathSet { keys: _ } = self;
    }
}

impl Model for PathSet {
    ghost use Rattle.std.specs.Prelude.{List, map};
    ghost use Rattle.tsa_place_model.specs.Ways.{Way};

    ghost Value = { List Way };

    ghost view = { λ set. map (λ key. key.path) set.keys.keys };
}

impl PathSet {
    /// No paths. No memory is taken.
    pub fn new(alloc: Global) -> PathSet
        ensures { result ≡ [] }
    {
        PathSet {
            keys: IndexSet::new(alloc),
        }
    }

    /// Adds a path, where it isn't among them, and tells whether it is new.
    #[tactic(auto, using(crate::proofs::Keys::known_is, crate::proofs::Keys::insert_is))]
    pub fn insert(&mut self, path: Path) -> Result<bool, NoMemory>
        ensures is_new { IfOk result (λ is_new. is_new ≡ not (is_known self.old path)) }
        ensures taken { OnOk result (self.new ≡ with_path self.old path) }
        ensures kept { OnErr result (self.new ≡ self.old) }
    {
        match self.keys.insert_full(Key { path }) {
            Ok((_, is_new)) => Ok(is_new),
            Err(_) => Err(NoMemory),
        }
    }
}
