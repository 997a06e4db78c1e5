//! Names that are known, with what they mean (C11 6.2.1).
ghost use Rattle.std.specs.Prelude.{◌≡◌, ◌++◌, ◌∷◌, [], take, length, is_some, not, true, false, IfOk, OnErr, slice_get, option_map};
ghost use Rattle.tsa_tree.specs.types.Scopes.{found};
ghost use Rattle.tsa_tree.specs.types.Lookups.{numbered};

use indexmap::IndexMap;
use std::alloc::Global;
use std::marker::Model;
use tsa_base::NoMemory;

/// Names with what they mean, each once, in order of declaration. Contracts see the list of them.
pub struct Names<'a, T: Copy> {
    entries: IndexMap<&'a [u8], T>,
}

impl<T: Copy> Drop for Names<'_, T> {
    /// Lets its parts go, in one call for all who let one go.
    fn drop(self) {
        let Names { entries: _ } = self;
    }
}

impl<'a, T: Copy> Model for Names<'a, T> {
    ghost use Rattle.std.specs.Prelude.{List, ℕ, map};

    ghost Value = { List (List ℕ × T) };

    ghost view = { λ names. map (λ e. (e.0.now, e.1)) names.entries.entries };
}

impl<'a, T: Copy> Names<'a, T> {
    /// No names. No memory is taken.
    pub fn new(alloc: Global) -> Names<'a, T>
        ensures { result ≡ [] }
    {
        Names {
            entries: IndexMap::new(alloc),
        }
    }

    /// What a name means, by its bytes.
    pub fn get(&self, text: &[u8]) -> Option<T>
        ensures { result ≡ found self.now text.now }
    {
        if self.entries.is_empty() {
            return None;
        }
        self.entries.get(text).copied()
    }

    /// What a name means with its number, from 0 in order of declaration.
    pub fn find(&self, text: &[u8]) -> Option<(usize, T)>
        ensures { result ≡ numbered self.now text.now 0 }
    {
        let (number, _, value) = self.entries.get_full(text)?;
        Some((number, *value))
    }

    /// Whether a name is known.
    pub fn has(&self, text: &[u8]) -> bool
        ensures { result ≡ is_some (found self.now text.now) }
    {
        self.get(text).is_some()
    }

    /// What the name of a number means, from 0 in order of declaration.
    pub fn at(&self, number: usize) -> Option<T>
        ensures { result ≡ option_map (λ e. e.1) (slice_get self.now number) }
    {
        let (_, value) = self.entries.get_index(number)?;
        Some(*value)
    }

    /// How many names are known.
    pub fn len(&self) -> usize
        ensures { result ≡ length self.now }
    {
        self.entries.len()
    }

    /// Declares a name, after all others, or does nothing where it is known: whether it was new. A refused call adds nothing.
    pub fn declare(&mut self, text: &'a [u8], entry: T) -> Result<bool, NoMemory>
        ensures fresh { IfOk result (λ fresh. fresh ≡ not (is_some (found self.old text.now))) }
        ensures added { IfOk result (λ fresh. fresh ≡ true → self.new ≡ self.old ++ (text.now, entry) ∷ []) }
        ensures kept { IfOk result (λ fresh. fresh ≡ false → self.new ≡ self.old) }
        ensures refused { OnErr result (self.new ≡ self.old) }
    {
        let known = self.entries.len();
        self.entries.entry(text)?.or_insert(entry);
        Ok(known < self.entries.len())
    }

    /// Leaves so many of the first names, as after a block.
    pub fn close(&mut self, len: usize)
        ensures { self.new ≡ take len self.old }
    {
        self.entries.truncate(len);
    }
}
