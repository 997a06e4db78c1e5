//! Statements and points (C11 6.8).

use crate::decl::Decl;
use crate::expr::{BinaryOp, Expr, Name};
use tsa_base::Span;

/// A statement, from its first token to its last. A point of its own has a number; a loop's, an `if`'s and a `switch`'s is
/// that of its test or value.
#[derive(Clone, Copy)]
#[cycle(stmt)]
pub struct Stmt<'a> {
    pub kind: StmtKind<'a>,
    pub point: Option<u32>,
    pub span: Span,
}

/// What a statement is.
#[derive(Clone, Copy)]
#[cycle(stmt)]
pub enum StmtKind<'a> {
    Block(&'a [Stmt<'a>]),
    Empty,
    Local(&'a Decl<'a>),
    Eval(&'a Expr<'a>),
    Assign {
        left: &'a Expr<'a>,
        op: Option<BinaryOp>,
        right: &'a Expr<'a>,
    },
    If {
        test: &'a Expr<'a>,
        yes: &'a Stmt<'a>,
        no: Option<&'a Stmt<'a>>,
    },
    While {
        test: &'a Expr<'a>,
        body: &'a Stmt<'a>,
    },
    DoWhile {
        body: &'a Stmt<'a>,
        test: &'a Expr<'a>,
    },
    For {
        init: Option<&'a Stmt<'a>>,
        test: Option<&'a Expr<'a>>,
        step: Option<&'a Stmt<'a>>,
        body: &'a Stmt<'a>,
    },
    Switch {
        value: &'a Expr<'a>,
        body: &'a Stmt<'a>,
    },
    Case {
        value: &'a Expr<'a>,
        body: &'a Stmt<'a>,
    },
    Otherwise {
        body: &'a Stmt<'a>,
    },
    Label {
        name: Name<'a>,
        body: &'a Stmt<'a>,
    },
    Break,
    Continue,
    Goto(Name<'a>),
    Return(Option<&'a Expr<'a>>),
}

/// A point of a body, and where it stands.
#[derive(Clone, Copy)]
pub struct Point<'a> {
    pub action: Action<'a>,
    pub span: Span,
}

/// What is done at a point.
#[derive(Clone, Copy)]
pub enum Action<'a> {
    Declare(&'a Decl<'a>),
    Eval(&'a Expr<'a>),
    Assign {
        left: &'a Expr<'a>,
        op: Option<BinaryOp>,
        right: &'a Expr<'a>,
    },
    Test(Option<&'a Expr<'a>>),
    Switch(&'a Expr<'a>),
    Jump,
    Idle,
    Return(Option<&'a Expr<'a>>),
    End,
}
