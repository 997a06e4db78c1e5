//! Units and their items (C11 6.9).

use crate::attr::Attr;
use crate::decl::{CType, Decl};
use crate::expr::{Expr, Name};
use crate::stmt::{Point, Stmt};
use tsa_base::Span;

/// A unit: its items in order. Storage words, ignored attributes and `struct TAG;` have no nodes.
#[derive(Clone, Copy)]
pub struct UnitTree<'a> {
    pub items: &'a [Item<'a>],
}

/// A declaration of one thing, or a function with its body.
#[derive(Clone, Copy)]
pub enum Item<'a> {
    Structure(StructDef<'a>),
    Alias(AliasDef<'a>),
    Enumeration(EnumDef<'a>),
    Global(Decl<'a>),
    Function(FnTree<'a>),
}

/// A struct with its members (C11 6.7.2.1), and its alias where a `typedef` gives one; from the item's first word on.
#[derive(Clone, Copy)]
pub struct StructDef<'a> {
    pub tag: Option<Name<'a>>,
    pub alias: Option<Name<'a>>,
    pub attrs: &'a [Attr<'a>],
    pub members: &'a [Decl<'a>],
    pub span: Span,
}

/// A name of a type (C11 6.7.8), from its declarator's first token on.
#[derive(Clone, Copy)]
pub struct AliasDef<'a> {
    pub name: Name<'a>,
    pub ctype: CType<'a>,
    pub span: Span,
}

/// An enum with its enumerators (C11 6.7.2.2), from the item's first word on.
#[derive(Clone, Copy)]
pub struct EnumDef<'a> {
    pub tag: Option<Name<'a>>,
    pub alias: Option<Name<'a>>,
    pub values: &'a [Enumerator<'a>],
    pub span: Span,
}

/// An enumerator, and its value where one is written.
#[derive(Clone, Copy)]
pub struct Enumerator<'a> {
    pub name: Name<'a>,
    pub value: Option<Expr<'a>>,
}

/// A parameter (C11 6.7.6.3), from its declarator's first token on, or from its type's where the declarator is empty.
#[derive(Clone, Copy)]
pub struct Param<'a> {
    pub name: Option<Name<'a>>,
    pub ctype: CType<'a>,
    pub span: Span,
}

/// A function: its head, and its body with the body's points where it has one.
#[derive(Clone, Copy)]
pub struct FnTree<'a> {
    pub name: Name<'a>,
    pub result: CType<'a>,
    pub params: &'a [Param<'a>],
    pub attrs: &'a [Attr<'a>],
    pub body: Option<&'a [Stmt<'a>]>,
    pub points: &'a [Point<'a>],
}
