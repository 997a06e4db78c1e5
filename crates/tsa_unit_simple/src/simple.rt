//! Simple statements are read: expressions and assignments, without their `;` (C11 6.5.16, 6.8.3).
ghost use Rattle.std.specs.Prelude.{◌≡◌, ◌≤◌, ◌<◌, length, None, Ok, Err, IfOk, OnErr};
ghost use Rattle.tsa_tree.specs.Reads.{read};
ghost use Rattle.tsa_tree.specs.Rows.{an_expression, operand};
ghost use Rattle.tsa_tree.specs.expressions.Shapes.{shape};
ghost use Rattle.tsa_tree.specs.tokens.Signs.{sign_at, span_over};
ghost use Rattle.tsa_tree.specs.statements.Spelling.{one_at};
ghost use Rattle.tsa_tree.specs.statements.Syntax.{assignment, evaluation};
ghost use Rattle.tsa_expr.specs.Gives.{Gives};
ghost use Rattle.tsa_expr.specs.Source.{input, named};
ghost use Rattle.tsa_unit_simple.specs.Outcomes.{simple_at, step_in};
ghost use Rattle.tsa_unit_simple.specs.Readings.{kind_shape, seen_simple, simple_shape};

use crate::signs::{assigns, step_of};
use bumpalo::Bump;
use tsa_base::Span;
use tsa_decl_declarators::kept_in;
use tsa_expr::{Reader, Reading, SyntaxRefusal};
use tsa_tree::expr::{BinaryOp, Expr, ExprKind};
use tsa_tree::sign::Sign;

/// What a simple statement does. Its trees stand in the arena.
#[derive(Clone, Copy)]
pub enum SimpleKind<'a> {
    Eval(&'a Expr<'a>),
    Assign {
        left: &'a Expr<'a>,
        op: Option<BinaryOp>,
        right: &'a Expr<'a>,
    },
}

/// A simple statement without its `;`, and the token after it.
#[derive(Clone, Copy)]
pub struct Simple<'a> {
    pub kind: SimpleKind<'a>,
    pub span: Span,
    pub next: u32,
}

/// The 1 that a step adds or subtracts: its span is that of the `++` or `--`.
fn one<'a>(reader: Reader<'_, '_>, at: u32) -> Expr<'a>
    ensures { shape result ≡ one_at (input reader.entry) at }
{
    let kind = ExprKind::Number {
        value: 1,
        unsigned: false,
    };
    Expr {
        kind,
        span: reader.span(at),
    }
}

/// The evaluation of an expression, which is kept in the arena.
fn eval_in<'a>(bump: &'a Bump, tree: Expr<'a>) -> Result<SimpleKind<'a>, SyntaxRefusal>
    ensures is { IfOk result (λ kind. kind_shape kind ≡ evaluation (shape tree.entry)) }
    ensures memory { OnErr result (result ≡ Err SyntaxRefusal.NoMemory) }
{
    let kept = kept_in(bump, tree)?;
    Ok(SimpleKind::Eval(kept))
}

/// An assignment, whose place and value are kept in the arena.
fn assign_in<'a>(
    bump: &'a Bump,
    place: Expr<'a>,
    op: Option<BinaryOp>,
    value: Expr<'a>,
) -> Result<SimpleKind<'a>, SyntaxRefusal>
    ensures is { IfOk result (λ kind. kind_shape kind ≡ assignment (shape place.entry) op (shape value.entry)) }
    ensures memory { OnErr result (result ≡ Err SyntaxRefusal.NoMemory) }
{
    let left = kept_in(bump, place)?;
    let right = kept_in(bump, value)?;
    Ok(SimpleKind::Assign { left, op, right })
}

/// The simple statement of a kind from a token up to before `next`.
fn spanned<'a>(reader: Reader<'_, '_>, start: u32, kind: SimpleKind<'a>, next: u32) -> Simple<'a>
    requires { 0 < next }
    ensures is { simple_shape result ≡ kind_shape kind.entry (span_over (input reader.entry) start next) }
    ensures next_is { result.next ≡ next }
{
    Simple {
        kind,
        span: reader.over(start, next),
        next,
    }
}

/// The simple statement that begins at a token with this sign, as long as it can be: `++` and `--` stand before or after an operand.
#[tactic(auto, using(crate::proofs::SimpleLaws::simples))]
pub fn read_simple<'a>(
    reader: Reader<'a, '_>,
    at: u32,
    depth: u32,
    sign: Sign,
) -> Result<Simple<'a>, SyntaxRefusal>
    requires there { sign ≡ sign_at (input reader) (named reader) at }
    ensures gives { Gives seen_simple result (simple_at (input reader.entry) (named reader.entry) depth at) }
    ensures ends { IfOk result (λ r. (at < r.next) × (r.next ≤ length reader.entry.tokens.now)) }
{
    match step_of(sign) {
        Some(op) => {
            let operand = reader.operand(at + 1, depth)?;
            let step = one(reader, at);
            let kind = assign_in(reader.bump, operand.tree, Some(op), step)?;
            Ok(spanned(reader, at, kind, operand.next))
        }
        None => {
            let left = reader.operand(at, depth)?;
            behind_operand(reader, depth, left)
        }
    }
}

/// The simple statement that begins with an operand, after that.
#[tactic(auto, using(crate::proofs::SimpleLaws::behind_operands))]
fn behind_operand<'a>(
    reader: Reader<'a, '_>,
    depth: u32,
    left: Reading<'a>,
) -> Result<Simple<'a>, SyntaxRefusal>
    requires unstepped { step_in (sign_at (input reader) (named reader) left.start) ≡ None }
    requires begun { read (input reader) an_expression (operand (named reader) depth) left.start ≡ Ok (shape left.tree, left.next) }
    requires ahead { left.ahead ≡ sign_at (input reader) (named reader) left.next }
    ensures gives { Gives seen_simple result (simple_at (input reader.entry) (named reader.entry) depth left.entry.start) }
    ensures ends { IfOk result (λ r. (left.entry.start < r.next) × (r.next ≤ length reader.entry.tokens.now)) }
{
    let sign = left.ahead;
    if let Some(op) = step_of(sign) {
        let step = one(reader, left.next);
        let kind = assign_in(reader.bump, left.tree, Some(op), step)?;
        return Ok(spanned(reader, left.start, kind, left.next + 1));
    }
    if let Some(op) = assigns(sign) {
        let right = reader.expression(left.next + 1, depth, 0)?;
        let kind = assign_in(reader.bump, left.tree, op, right.tree)?;
        return Ok(spanned(reader, left.start, kind, right.next));
    }
    let whole = reader.rest(depth, left)?;
    let kind = eval_in(reader.bump, whole.tree)?;
    Ok(spanned(reader, left.start, kind, whole.next))
}
