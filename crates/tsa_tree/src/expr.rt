//! Names and expressions in the arena (C11 6.5). Each list is a slice of the arena, each child stands behind a reference
//! into it, and each node knows the bytes from its first token to its last.

use tsa_base::Span;

/// A name where it stands (C11 6.4.2).
#[derive(Clone, Copy)]
pub struct Name<'a> {
    pub text: &'a [u8],
    pub span: Span,
}

/// An expression. Parentheses round the whole of it don't belong to its span; those round its operands do.
#[derive(Clone, Copy)]
#[cycle(expr)]
pub struct Expr<'a> {
    pub kind: ExprKind<'a>,
    pub span: Span,
}

/// What an expression is. Parentheses make no node (C11 6.5.1p5).
#[derive(Clone, Copy)]
#[cycle(expr)]
pub enum ExprKind<'a> {
    /// An integer constant (C11 6.4.4.1).
    Number {
        value: u32,
        unsigned: bool,
    },
    /// The null pointer (C11 7.19p3).
    Null,
    /// A variable, a parameter or an enumerator.
    Named(Name<'a>),
    /// A call (C11 6.5.2.2).
    Call {
        callee: Name<'a>,
        args: &'a [Expr<'a>],
    },
    /// A prefix operator before its operand (C11 6.5.3).
    Unary {
        op: UnaryOp,
        inner: &'a Expr<'a>,
    },
    /// A binary operator between its operands (C11 6.5.5 to 6.5.14).
    Binary {
        op: BinaryOp,
        left: &'a Expr<'a>,
        right: &'a Expr<'a>,
    },
    /// A member by its name, behind a pointer where there is an arrow (C11 6.5.2.3).
    Field {
        base: &'a Expr<'a>,
        name: Name<'a>,
        arrow: bool,
    },
    /// An element by its index (C11 6.5.2.1).
    Index {
        base: &'a Expr<'a>,
        index: &'a Expr<'a>,
    },
}

/// The prefix operators `-`, `!`, `~`, `&` and `*` (C11 6.5.3).
#[derive(Clone, Copy, Debug, PartialEq, Eq)]
pub enum UnaryOp {
    Minus,
    Not,
    Flip,
    Address,
    Follow,
}

/// The binary operators, from the loosest on (C11 6.5.5 to 6.5.14).
#[derive(Clone, Copy, Debug, PartialEq, Eq)]
pub enum BinaryOp {
    Or,
    And,
    BitOr,
    BitXor,
    BitAnd,
    Equal,
    Unequal,
    Less,
    More,
    LessEqual,
    MoreEqual,
    Plus,
    Minus,
    Times,
    Divide,
    Remainder,
}

impl BinaryOp {
    ghost use Rattle.std.specs.Prelude.{◌≡◌};
    ghost use Rattle.tsa_tree.specs.tokens.Signs.{level};

    /// How tight the operator binds, from 1 for `||` to 9 for `*`, `/` and `%`.
    pub fn level(self) -> u32
        ensures { result ≡ level self }
    {
        match self {
            BinaryOp::Or => 1,
            BinaryOp::And => 2,
            BinaryOp::BitOr => 3,
            BinaryOp::BitXor => 4,
            BinaryOp::BitAnd => 5,
            BinaryOp::Equal | BinaryOp::Unequal => 6,
            BinaryOp::Less | BinaryOp::More | BinaryOp::LessEqual | BinaryOp::MoreEqual => 7,
            BinaryOp::Plus | BinaryOp::Minus => 8,
            BinaryOp::Times | BinaryOp::Divide | BinaryOp::Remainder => 9,
        }
    }
}
