//! Types and declarations (C11 6.7).

use crate::attr::Attr;
use crate::expr::{Expr, Name};
use tsa_base::Span;

/// The type before a declarator (C11 6.7.2).
#[derive(Clone, Copy)]
pub enum BaseType<'a> {
    Int,
    Unsigned,
    Void,
    Structure(Name<'a>),
    Enumerated(Name<'a>),
    Alias(Name<'a>),
}

/// A type: the base, and what its declarator makes of it (C11 6.7.6).
#[derive(Clone, Copy)]
pub struct CType<'a> {
    pub base: BaseType<'a>,
    pub base_const: bool,
    pub pointer: bool,
    pub pointer_const: bool,
    pub length: Option<&'a Expr<'a>>,
}

/// A member, a global or a local, from the first token of its declarator on.
#[derive(Clone, Copy)]
pub struct Decl<'a> {
    pub name: Name<'a>,
    pub ctype: CType<'a>,
    pub attrs: &'a [Attr<'a>],
    pub init: Option<Init<'a>>,
    pub span: Span,
}

/// An initialiser (C11 6.7.9).
#[derive(Clone, Copy)]
pub enum Init<'a> {
    Value(Expr<'a>),
    List { items: &'a [Init<'a>], span: Span },
}
