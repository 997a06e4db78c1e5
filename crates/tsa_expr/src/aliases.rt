//! The names of types that earlier items gave.
ghost use Rattle.std.specs.Prelude.{◌≡◌, [], OnOk, OnErr};
ghost use Rattle.std.specs.List.{list_any};
ghost use Rattle.std.specs.Str.{bytes_eq};
ghost use Rattle.tsa_expr.specs.TypeNames.{with_name};

use indexmap::IndexSet;
use std::alloc::Global;
use std::marker::Model;
use tsa_base::NoMemory;

/// The names of types that are known, in the order in which items gave them (C11 6.7.8). Contracts see the list of them.
#[derive(Drop)]
pub struct Aliases {
    names: IndexSet<Vec<u8>>,
}

impl Model for Aliases {
    ghost use Rattle.std.specs.Prelude.{List, ℕ, map};

    ghost Value = { List (List ℕ) };

    ghost view = { λ a. map (λ name. name.items) a.names.keys };
}

impl Aliases {
    /// No names. No memory is taken.
    pub fn new(alloc: Global) -> Aliases
        ensures { result ≡ [] }
    {
        Aliases {
            names: IndexSet::new(alloc),
        }
    }

    /// Adds a name after the others, where it is not among them.
    pub fn add(&mut self, name: &[u8]) -> Result<(), NoMemory>
        ensures added { OnOk result (self.new ≡ with_name self.old name.now) }
        ensures refused { OnErr result (self.new ≡ self.old) }
    {
        let alloc: Global = *self.names.allocator();
        let name = name.to_vec(alloc)?;
        self.names.insert(name)?;
        Ok(())
    }

    /// The allocator that the names are kept by.
    pub fn allocator(&self) -> Global {
        *self.names.allocator()
    }

    /// Whether a text is one of the names.
    pub fn has(&self, text: &[u8]) -> bool
        ensures { result ≡ list_any (bytes_eq text.now) self.now }
    {
        !self.names.is_empty() && self.names.contains(text)
    }
}
