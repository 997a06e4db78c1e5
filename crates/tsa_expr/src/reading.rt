//! What was read, and how far. An expression is at most as high as it has tokens, so no height is past the greatest number.
ghost use Rattle.std.specs.Prelude.{◌≡◌, ◌+◌, ◌≤◌};
ghost use Rattle.tsa_tree.specs.expressions.Syntax.{height as height_of, heights};
ghost use Rattle.tsa_tree.specs.expressions.Shapes.{shape, shapes};

use tsa_tree::expr::Expr;
use tsa_tree::sign::Sign;

/// An expression that was read: its height, the token that it begins at, the token after it, and that one's sign.
#[derive(Clone, Copy)]
pub struct Reading<'a> {
    pub tree: Expr<'a>,
    pub height: u32,
    pub start: u32,
    pub next: u32,
    pub ahead: Sign,
    pub ghost high: { height ≡ height_of (shape tree) },
    pub ghost low: { height + start ≤ next },
}

/// The arguments of a call that were read: the greatest height, the token that they begin at, and the token after their
/// closing parenthesis.
#[derive(Clone, Copy)]
pub struct ArgumentList<'a> {
    pub items: &'a [Expr<'a>],
    pub height: u32,
    pub start: u32,
    pub next: u32,
    pub ghost high: { height ≡ heights (shapes items.now) },
    pub ghost low: { height + start ≤ next },
}

/// The greatest height of the expressions of a list, and the token after the parenthesis that closes them.
#[derive(Clone, Copy)]
pub struct Extent {
    pub height: u32,
    pub next: u32,
}
