//! The nodes of expressions are made, with their heights and places.
ghost use Rattle.std.specs.Prelude.{◌≡◌, ◌+◌, ◌<◌, ◌++◌, ◌∷◌, [], length, IfOk, OnOk, OnErr, Err};
ghost use Rattle.tsa_tree.specs.expressions.Syntax.{call as a_call, unary as a_unary, binary as a_binary, height as height_of};
ghost use Rattle.tsa_tree.specs.expressions.Shapes.{name_shape, kind_shape, shape, shapes};
ghost use Rattle.tsa_tree.specs.tokens.Signs.{span_at, span_over};

use crate::reading::{ArgumentList, Reading};
use crate::refusal::SyntaxRefusal;
use crate::source::Reader;
use bumpalo::Bump;
use bumpalo::collections::into_bump_slice;
use tsa_tree::expr::{BinaryOp, Expr, ExprKind, Name, UnaryOp};
use tsa_tree::sign::Sign;

impl<'a, 't> Reader<'a, 't> {
    ghost use Rattle.tsa_tree.specs.tokens.Signs.{sign_at};
    ghost use Rattle.tsa_expr.specs.Source.{input, named};

    /// The expression of one token, before one of a sign.
    pub fn leaf(self, at: u32, kind: ExprKind<'a>, ahead: Sign) -> Reading<'a>
        requires within { at < length self.tokens.now }
        requires low { height_of (kind_shape kind (span_at (input self) at)) ≡ 1 }
        ensures is { shape result.tree ≡ kind_shape kind.entry (span_at (input self.entry) at) }
        ensures begins { result.start ≡ at }
        ensures ends { result.next ≡ at + 1 }
        ensures ahead { result.ahead ≡ ahead }
    {
        let span = self.span(at);
        Reading {
            tree: Expr { kind, span },
            height: 1,
            start: at,
            next: at + 1,
            ahead,
        }
    }

    /// The call whose name stands at a token.
    pub fn call(self, at: u32, callee: Name<'a>, args: ArgumentList<'a>) -> Reading<'a>
        requires before { at < args.start }
        ensures is { shape result.tree ≡ a_call (name_shape callee.entry) (shapes args.entry.items.now)
            (span_over (input self.entry) at args.entry.next) }
        ensures begins { result.start ≡ at }
        ensures ends { result.next ≡ args.entry.next }
        ensures ahead { result.ahead ≡ sign_at (input self.entry) (named self.entry) args.entry.next }
    {
        let span = self.over(at, args.next);
        let kind = ExprKind::Call {
            callee,
            args: args.items,
        };
        Reading {
            tree: Expr { kind, span },
            height: args.height + 1,
            start: at,
            next: args.next,
            ahead: self.sign(args.next),
        }
    }

    /// A prefix operator before its operand.
    pub fn unary(
        self,
        at: u32,
        op: UnaryOp,
        inner: Reading<'a>,
    ) -> Result<Reading<'a>, SyntaxRefusal>
        requires before { at < inner.start }
        ensures memory { OnErr result (result ≡ Err SyntaxRefusal.NoMemory) }
        ensures is { IfOk result (λ r. shape r.tree
            ≡ a_unary op (shape inner.entry.tree) (span_over (input self.entry) at inner.entry.next)) }
        ensures begins { IfOk result (λ r. r.start ≡ at) }
        ensures ends { IfOk result (λ r. r.next ≡ inner.entry.next) }
        ensures ahead { IfOk result (λ r. r.ahead ≡ inner.entry.ahead) }
    {
        let span = self.over(at, inner.next);
        let height = inner.height + 1;
        let next = inner.next;
        let ahead = inner.ahead;
        let inner = self.keep(inner.tree)?;
        let kind = ExprKind::Unary { op, inner };
        Ok(Reading {
            tree: Expr { kind, span },
            height,
            start: at,
            next,
            ahead,
        })
    }

    /// A binary operator between its operands.
    pub fn binary(
        self,
        op: BinaryOp,
        left: Reading<'a>,
        right: Reading<'a>,
    ) -> Result<Reading<'a>, SyntaxRefusal>
        requires between { left.next < right.start }
        ensures memory { OnErr result (result ≡ Err SyntaxRefusal.NoMemory) }
        ensures is { IfOk result (λ r. shape r.tree ≡ a_binary op (shape left.entry.tree) (shape right.entry.tree)
            (span_over (input self.entry) left.entry.start right.entry.next)) }
        ensures begins { IfOk result (λ r. r.start ≡ left.entry.start) }
        ensures ends { IfOk result (λ r. r.next ≡ right.entry.next) }
        ensures ahead { IfOk result (λ r. r.ahead ≡ right.entry.ahead) }
    {
        let span = self.over(left.start, right.next);
        let height = left.height.max(right.height) + 1;
        let start = left.start;
        let next = right.next;
        let ahead = right.ahead;
        let left = self.keep(left.tree)?;
        let right = self.keep(right.tree)?;
        let kind = ExprKind::Binary { op, left, right };
        Ok(Reading {
            tree: Expr { kind, span },
            height,
            start,
            next,
            ahead,
        })
    }

    /// An expression, kept in the arena.
    pub fn keep(self, tree: Expr<'a>) -> Result<&'a Expr<'a>, SyntaxRefusal>
        ensures is { IfOk result (λ kept. kept.now ≡ tree.entry) }
        ensures memory { OnErr result (result ≡ Err SyntaxRefusal.NoMemory) }
    {
        let kept: &'a Expr<'a> = self.bump.try_alloc(tree)?;
        Ok(kept)
    }
}

/// One more at the end of a list, which takes room for one first and then for twice as many: most lists are short.
pub fn append<'a>(list: &mut Vec<Expr<'a>, &'a Bump>, item: Expr<'a>) -> Result<(), SyntaxRefusal>
    ensures gives { OnOk result (list.new.items ≡ list.old.items ++ item.entry ∷ []) }
    ensures memory { OnErr result (result ≡ Err SyntaxRefusal.NoMemory) }
{
    if list.len() == list.capacity() {
        list.reserve_exact(list.len().max(1))?;
    }
    list.push(item)?;
    Ok(())
}

/// A list, kept in the arena.
pub fn into_arena<'a>(items: Vec<Expr<'a>, &'a Bump>) -> &'a [Expr<'a>]
    ensures { shapes result.now ≡ shapes items.entry.items }
{
    into_bump_slice(items)
}
