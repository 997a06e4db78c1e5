//! Types where tags and names of types are resolved (C11 6.2.5). A struct is told by its number, from 0 by definition.

use tsa_base::Span;

/// What a thing is made of.
#[derive(Clone, Copy, Debug, PartialEq, Eq)]
pub enum Kind {
    Int,
    Unsigned,
    Void,
    Structure(u32),
    /// A pointer to a struct, or to a constant one.
    Pointer { target: u32, to_const: bool },
    /// That of `NULL`, which is a pointer of no struct (C11 7.19p3).
    Null,
    /// That of a function's name, which is no value.
    Function,
}

/// The type of a global, a member, a parameter or a local, or of a function's result: an array has a length, and what is
/// `const` isn't written (C11 6.7.3).
#[derive(Clone, Copy, Debug, PartialEq, Eq)]
pub struct ThingType {
    pub kind: Kind,
    pub length: Option<u32>,
    pub is_const: bool,
}

/// The type of an expression: whether it is a place that has this type and not a value alone (C11 6.3.2.1), and whether it is
/// the number 0, which goes to pointers (C11 6.3.2.3p3).
#[derive(Clone, Copy, Debug, PartialEq, Eq)]
pub struct ExpressionType {
    pub thing: ThingType,
    pub is_place: bool,
    pub is_zero: bool,
}

/// What a written type is.
#[derive(Clone, Copy, Debug, PartialEq, Eq)]
pub enum Resolved {
    Type(ThingType),
    /// A tag or a name of a type isn't known, and where it stands.
    Unknown(Span),
    /// It is none of the language's types.
    Refused,
}

/// What is declared: a name of a type may mean what no thing is.
#[derive(Clone, Copy, Debug, PartialEq, Eq)]
pub enum Declaring {
    Thing,
    Result,
    Type,
}
