//! What names and tags mean where they stand (C11 6.2.1, 6.2.3).

use crate::kind::ThingType;

/// What a name means; numbers go from 0 by declaration, a function's by its first one.
#[derive(Clone, Copy, Debug, PartialEq, Eq)]
pub enum Meaning {
    Global(u32),
    Local(u32),
    Function(u32),
    /// A member of the struct whose members are declared, by its guards.
    Owned,
    /// An enumerator.
    Constant(i32),
    TypeName,
}

/// A name with its type: of a function, that of its result.
#[derive(Clone, Copy, Debug, PartialEq, Eq)]
pub struct Entry {
    pub meaning: Meaning,
    pub thing: ThingType,
}

/// What a tag means in the whole unit, by its first item: a struct's number, or where an enum's item stands.
#[derive(Clone, Copy, Debug, PartialEq, Eq)]
pub enum Tag {
    Structure(u32),
    Enumeration(u32),
}

/// What a name means in a unit: a function's parameters are its first locals.
#[derive(Clone, Copy, Debug, PartialEq, Eq)]
pub enum Symbol {
    Global(u32),
    Local { function: u32, number: u32 },
    Function(u32),
    Constant(i32),
}
