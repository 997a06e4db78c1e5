//! The premises of types by their codes, and what attributes may stand on.

use tsa_base::Span;

/// The premises of types, each at the first token of its node.
#[derive(Clone, Copy, Debug, PartialEq, Eq)]
pub enum TypeCode {
    /// A name, a tag or a member isn't known where it stands.
    TY1,
    /// A name, a member, a label or a case value is declared again, or a function differs from its first declaration.
    TY2,
    /// A type isn't one of the language's, or an operand breaks one of the rules of operands.
    TY3,
    /// A call has another number of arguments.
    TY4,
    /// The left side of an assignment is no place, or is `const`.
    TY5,
    /// An attribute stands on another kind of thing, or an argument is no lock expression.
    TY6,
    /// A label, `break`, `continue`, `case` or `default` has no target.
    TY7,
    /// A `return` gives a value where there is none to give, none where there is, or one that can't go to the result.
    TY8,
    /// A length, an enumerator, a case value or a global's initialiser is no constant or doesn't fit.
    TY9,
}

/// A premise that fails, and where that is told.
#[derive(Clone, Copy, Debug, PartialEq, Eq)]
pub struct Failure {
    pub code: TypeCode,
    pub span: Span,
}

/// What an attribute may stand on.
#[derive(Clone, Copy, Debug, PartialEq, Eq)]
pub enum Bearer {
    Structure,
    Member,
    Global,
    /// A global of lock type that is no array.
    Lock,
    Local,
    Function,
}
