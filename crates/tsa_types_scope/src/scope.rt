//! What is known between the items and the statements of a unit (C11 6.2.1, 6.2.3), and what is looked up in it.
ghost use Rattle.std.specs.Prelude.{◌≡◌, ◌≤◌, ◌^◌, length, slice_get, option_map, IfOk, OnErr};
ghost use Rattle.tsa_tree.specs.expressions.Shapes.{name_shape};
ghost use Rattle.tsa_tree.specs.types.Attributes.{is_lock};
ghost use Rattle.tsa_tree.specs.types.DeclaredTypes.{is_whole};
ghost use Rattle.tsa_tree.specs.types.Initialisers.{members_types};
ghost use Rattle.tsa_tree.specs.types.Scopes.{found, tag_in, is_taken, is_named_taken, known_in};
ghost use Rattle.tsa_tree.specs.types.Lookups.{member_in, members_at, numbered, params_in};

use crate::names::Names;
use std::alloc::Global;
use std::marker::Model;
use tsa_base::NoMemory;
use tsa_tree::expr::Name;
use tsa_tree::kind::{Kind, ThingType};
use tsa_tree::meaning::{Entry, Meaning, Tag};

/// A function by its first declaration: the type of its result, those of its parameters in order, and whether a body was there
/// so far (C11 6.9.1).
pub struct FunctionTypes {
    pub result: ThingType,
    pub params: Vec<ThingType>,
    pub has_body: bool,
}

impl Drop for FunctionTypes {
    /// Lets its parts go, in one call for all who let one go.
    fn drop(self) {
        let FunctionTypes {
            result: _,
            params: _,
            has_body: _,
        } = self;
    }
}

impl Model for FunctionTypes {
    ghost use Rattle.tsa_tree.specs.types.Scopes.{FunctionEntry};

    ghost Value = { FunctionEntry };

    ghost view = { λ function. record { result = function.result; params = function.params.items; has_body = function.has_body } };
}

/// The tags of the whole unit and which of its structs are locks; the structs, names and functions that are known so far, and in a
/// guard the members before it; and how many globals and, in a body, locals there are. Contracts see them as a scope.
pub struct Scope<'a> {
    pub(crate) alloc: Global,
    pub(crate) tags: Names<'a, Tag>,
    pub(crate) locks: Vec<bool>,
    pub(crate) structs: Vec<Names<'a, ThingType>>,
    pub(crate) owned: Names<'a, ThingType>,
    pub(crate) names: Names<'a, Entry>,
    pub(crate) functions: Vec<FunctionTypes>,
    pub(crate) globals: u32,
    pub(crate) locals: u32,
}

impl Drop for Scope<'_> {
    /// Lets its parts go, in one call for all who let one go.
    fn drop(self) {
        let Scope {
            alloc: _,
            tags: _,
            locks: _,
            structs: _,
            owned: _,
            names: _,
            functions: _,
            globals: _,
            locals: _,
        } = self;
    }
}

impl<'a> Model for Scope<'a> {
    ghost use Rattle.tsa_tree.specs.types.Scopes.{Scope};

    ghost Value = { Scope };

    ghost view = { λ scope. record { tags = scope.tags; locks = scope.locks.items; structs = scope.structs.items; owned = scope.owned; names = scope.names; functions = scope.functions.items; globals = scope.globals; locals = scope.locals } };
}

impl<'a> Scope<'a> {
    /// The allocator that everything in it is kept by.
    pub fn allocator(&self) -> Global {
        self.alloc
    }

    /// What a name means in an expression (C11 6.2.1): in a guard the members before it are looked up first.
    pub fn known(&self, text: &[u8]) -> Option<Entry>
        ensures { result ≡ known_in self.now text.now }
    {
        match self.owned.get(text) {
            Some(thing) => Some(Entry {
                meaning: Meaning::Owned,
                thing,
            }),
            None => self.names.get(text),
        }
    }

    /// What a name was declared as; members aren't asked.
    pub fn declared(&self, text: &[u8]) -> Option<Entry>
        ensures { result ≡ found self.now.names text.now }
    {
        self.names.get(text)
    }

    /// Whether a name is declared, here or around (C11 6.7p3).
    pub fn is_taken(&self, text: &[u8]) -> bool
        ensures { result ≡ is_taken text.now self.now }
    {
        self.names.has(text)
    }

    /// Whether a name is declared that may be left out, as that of a parameter; one that is left out isn't.
    pub fn is_named_taken(&self, name: Option<Name<'_>>) -> bool
        ensures { result ≡ is_named_taken (option_map name_shape name.entry) self.now }
    {
        match name {
            Some(name) => self.is_taken(name.text),
            None => false,
        }
    }

    /// How many names are declared.
    pub fn names_len(&self) -> usize
        ensures { result ≡ length self.now.names }
    {
        self.names.len()
    }

    /// What a tag means in the whole unit, where there is one (C11 6.7.2.3).
    pub fn tag(&self, tag: Option<Name<'_>>) -> Option<Tag>
        ensures { result ≡ tag_in self.now (option_map name_shape tag.entry) }
    {
        self.tags.get(tag?.text)
    }

    /// Whether a struct by its number is a lock; what is no struct isn't.
    pub fn is_lock(&self, structure: Option<u32>) -> bool
        ensures { result ≡ is_lock self.now structure }
    {
        match structure {
            Some(number) => self.locks.get(number as usize).copied().unwrap_or(false),
            None => false,
        }
    }

    /// How many structs are defined.
    pub fn structs_len(&self) -> usize
        ensures { result ≡ length self.now.structs }
    {
        self.structs.len()
    }

    /// Whether a kind is no struct that isn't defined yet (C11 6.7.2.1p3).
    pub fn is_whole(&self, kind: Kind) -> bool
        ensures { result ≡ is_whole self.now kind }
    {
        match kind {
            Kind::Structure(number) => (number as usize) < self.structs.len(),
            _ => true,
        }
    }

    /// The type of a struct's member by its name; none of a struct that isn't defined (C11 6.5.2.3).
    pub fn member(&self, structure: u32, name: &[u8]) -> Option<ThingType>
        ensures { result ≡ member_in self.now structure name.now }
    {
        self.structs.get(structure as usize)?.get(name)
    }

    /// A struct's member by its name, with its number; none of a struct that isn't defined.
    pub fn find_member(&self, structure: u32, name: &[u8]) -> Option<(usize, ThingType)>
        ensures { result ≡ numbered (members_at self.now structure) name.now 0 }
    {
        self.structs.get(structure as usize)?.find(name)
    }

    /// A member that is looked up first, by its name, with its number.
    pub fn find_owned(&self, name: &[u8]) -> Option<(usize, ThingType)>
        ensures { result ≡ numbered self.now.owned name.now 0 }
    {
        self.owned.find(name)
    }

    /// How many members a struct has; none where it isn't defined.
    pub fn members_len(&self, structure: u32) -> usize
        ensures { result ≡ length (members_types (slice_get self.now.structs structure)) }
    {
        match self.structs.get(structure as usize) {
            Some(members) => members.len(),
            None => 0,
        }
    }

    /// The type of a struct's member by its number, from 0 in order of declaration.
    pub fn member_at(&self, structure: u32, number: usize) -> Option<ThingType>
        ensures { result ≡ slice_get (members_types (slice_get self.now.structs structure)) number }
    {
        self.structs.get(structure as usize)?.at(number)
    }

    /// A function by its number.
    pub fn function(&self, number: u32) -> Option<&FunctionTypes>
        ensures { option_map (λ function. function.now) result ≡ slice_get self.now.functions number }
    {
        self.functions.get(number as usize)
    }

    /// The types of a function's parameters, in order; none of one that isn't declared.
    pub fn params(&self, function: u32) -> &[ThingType]
        ensures { result.now ≡ params_in self.now function }
    {
        match self.functions.get(function as usize) {
            Some(known) => &known.params,
            None => &[],
        }
    }

    /// The number of the struct that is defined next, from 0; there is none after 2^32 of them.
    pub fn next_struct(&self) -> Result<u32, NoMemory>
        ensures next { IfOk result (λ n. n ≡ length self.now.structs) }
        ensures full { OnErr result (2 ^ 32 ≤ length self.now.structs) }
    {
        u32::try_from(self.structs.len()).ok().ok_or(NoMemory)
    }

    /// The number of the function that is declared next, from 0; there is none after 2^32 of them.
    pub fn next_function(&self) -> Result<u32, NoMemory>
        ensures next { IfOk result (λ n. n ≡ length self.now.functions) }
        ensures full { OnErr result (2 ^ 32 ≤ length self.now.functions) }
    {
        u32::try_from(self.functions.len()).ok().ok_or(NoMemory)
    }

    /// The number of the global that is declared next, from 0.
    pub fn next_global(&self) -> u32
        ensures { result ≡ self.now.globals }
    {
        self.globals
    }

    /// The number of the local of this function that is declared next; its parameters are its first ones, from 0.
    pub fn next_local(&self) -> u32
        ensures { result ≡ self.now.locals }
    {
        self.locals
    }
}
