//! Statements that hold no other one are read (C11 6.8.3, 6.8.6).
ghost use Rattle.std.specs.Prelude.{◌≡◌, ◌+◌, ◌≤◌, ◌<◌, length, Some, None, IfOk, OnErr, Err};
ghost use Rattle.tsa_base.specs.declared.token.Span.{Span as span_type};
ghost use Rattle.tsa_tree.specs.expressions.Shapes.{shape};
ghost use Rattle.tsa_tree.specs.tokens.Signs.{sign_at};
ghost use Rattle.tsa_tree.specs.statements.Syntax.{simple as simple_statement_of, empty as nothing_done, return as returned};
ghost use Rattle.tsa_tree.specs.statements.Shapes.{stmt_shape};
ghost use Rattle.tsa_expr.specs.Source.{input, named};
ghost use Rattle.tsa_expr.specs.Gives.{Gives};
ghost use Rattle.tsa_unit_simple.specs.Outcomes.{simple_statement_at, closed_at, goto_at, return_at};
ghost use Rattle.tsa_unit_simple.specs.PointNumbers.{IsAlone, IsPointed, simple_with as spec_with};
ghost use Rattle.tsa_unit_simple.specs.Readings.{kind_shape, seen_statement};

use crate::points::{Deed, Read, alone, mark};
use crate::simple::{SimpleKind, read_simple};
use tsa_base::Span;
use tsa_decl_declarators::{kept_in, name, semicolon};
use tsa_expr::{Reader, Reading, SyntaxRefusal};
use tsa_tree::sign::Sign;
use tsa_tree::stmt::{Action, Point, Stmt, StmtKind};

/// Marks the point of a simple statement, and gives its number.
#[tactic(auto, using(crate::proofs::PointLaws::simples))]
pub fn mark_simple<'a>(
    simple: &SimpleKind<'a>,
    span: Span,
    points: &mut Vec<Point<'a>>,
) -> Result<u32, SyntaxRefusal>
    ensures pointed { IfOk result (λ number. IsPointed points.old.items points.new.items (spec_with simple.now number span)) }
    ensures memory { OnErr result (result ≡ Err SyntaxRefusal.NoMemory) }
{
    match simple {
        SimpleKind::Eval(tree) => mark(points, Action::Eval(tree), span),
        SimpleKind::Assign { left, op, right } => {
            let action = Action::Assign {
                left,
                op: *op,
                right,
            };
            mark(points, action, span)
        }
    }
}

/// The statement that a simple one is, whose point has a number.
pub fn simple_with<'a>(simple: &SimpleKind<'a>, number: u32, span: Span) -> Stmt<'a>
    ensures is { result ≡ spec_with simple.now number span }
{
    let point = Some(number);
    match simple {
        SimpleKind::Eval(tree) => Stmt {
            kind: StmtKind::Eval(tree),
            point,
            span,
        },
        SimpleKind::Assign { left, op, right } => Stmt {
            kind: StmtKind::Assign {
                left,
                op: *op,
                right,
            },
            point,
            span,
        },
    }
}

/// The statement that a simple one is, of one point that is marked, up to before `next`.
#[tactic(auto, using(crate::proofs::PointLaws::simply))]
fn simply<'a>(
    simple: &SimpleKind<'a>,
    span: Span,
    next: u32,
    points: &mut Vec<Point<'a>>,
) -> Result<Read<'a>, SyntaxRefusal>
    ensures is { IfOk result (λ r. (stmt_shape r.stmt.kind r.stmt.span ≡ simple_statement_of (kind_shape simple.now span))
        × (r.next ≡ next)) }
    ensures pointed { IfOk result (λ r. IsPointed points.old.items points.new.items r.stmt) }
    ensures memory { OnErr result (result ≡ Err SyntaxRefusal.NoMemory) }
{
    let number = mark_simple(simple, span, points)?;
    let stmt = simple_with(simple, number, span);
    Ok(Read { stmt, next })
}

/// A simple statement that begins with this sign, with its `;`.
#[tactic(auto, using(crate::proofs::LeafLaws::simple_statements))]
pub fn simple_statement<'a>(
    reader: Reader<'a, '_>,
    at: u32,
    depth: u32,
    sign: Sign,
    points: &mut Vec<Point<'a>>,
) -> Result<Read<'a>, SyntaxRefusal>
    requires there { sign ≡ sign_at (input reader) (named reader) at }
    ensures gives { Gives seen_statement result (simple_statement_at (input reader.entry) (named reader.entry) depth at) }
    ensures pointed { IfOk result (λ r. IsPointed points.old.items points.new.items r.stmt) }
    ensures ends { IfOk result (λ r. (at < r.next) × (r.next ≤ length reader.entry.tokens.now)) }
{
    let simple = read_simple(reader, at, depth, sign)?;
    let next = semicolon(reader, simple.next)?;
    let span = reader.over(at, next);
    simply(&simple.kind, span, next, points)
}

/// A statement of one point that begins at `start` and ends with the `;` that has to stand at a place.
#[tactic(auto, using(crate::proofs::LeafLaws::closed))]
pub fn closed_statement<'a>(
    reader: Reader<'_, '_>,
    start: u32,
    at: u32,
    deed: &Deed<'a>,
    points: &mut Vec<Point<'a>>,
) -> Result<Read<'a>, SyntaxRefusal>
    requires single { (span : span_type) → IsAlone deed.now.kind deed.now.action span }
    ensures gives { Gives seen_statement result (closed_at (input reader.entry) (named reader.entry) (stmt_shape deed.now.kind) start at) }
    ensures pointed { IfOk result (λ r. IsPointed points.old.items points.new.items r.stmt) }
    ensures ends { IfOk result (λ r. (at < r.next) × (r.next ≤ length reader.entry.tokens.now)) }
{
    let next = semicolon(reader, at)?;
    let span = reader.over(start, next);
    alone(points, deed, span, next)
}

/// `;` alone.
pub fn empty<'a>(
    reader: Reader<'_, '_>,
    at: u32,
    points: &mut Vec<Point<'a>>,
) -> Result<Read<'a>, SyntaxRefusal>
    ensures gives { Gives seen_statement result (closed_at (input reader.entry) (named reader.entry) nothing_done at at) }
    ensures pointed { IfOk result (λ r. IsPointed points.old.items points.new.items r.stmt) }
    ensures ends { IfOk result (λ r. (at < r.next) × (r.next ≤ length reader.entry.tokens.now)) }
{
    let deed = Deed {
        kind: StmtKind::Empty,
        action: Action::Idle,
    };
    closed_statement(reader, at, at, &deed, points)
}

/// `break` with its `;`.
pub fn break_statement<'a>(
    reader: Reader<'_, '_>,
    at: u32,
    points: &mut Vec<Point<'a>>,
) -> Result<Read<'a>, SyntaxRefusal>
    requires within { at < length reader.tokens.now }
    ensures gives { Gives seen_statement result
        (closed_at (input reader.entry) (named reader.entry) (stmt_shape StmtKind.Break) at (at + 1)) }
    ensures pointed { IfOk result (λ r. IsPointed points.old.items points.new.items r.stmt) }
    ensures ends { IfOk result (λ r. (at < r.next) × (r.next ≤ length reader.entry.tokens.now)) }
{
    let deed = Deed {
        kind: StmtKind::Break,
        action: Action::Jump,
    };
    closed_statement(reader, at, at + 1, &deed, points)
}

/// `continue` with its `;`.
pub fn continue_statement<'a>(
    reader: Reader<'_, '_>,
    at: u32,
    points: &mut Vec<Point<'a>>,
) -> Result<Read<'a>, SyntaxRefusal>
    requires within { at < length reader.tokens.now }
    ensures gives { Gives seen_statement result
        (closed_at (input reader.entry) (named reader.entry) (stmt_shape StmtKind.Continue) at (at + 1)) }
    ensures pointed { IfOk result (λ r. IsPointed points.old.items points.new.items r.stmt) }
    ensures ends { IfOk result (λ r. (at < r.next) × (r.next ≤ length reader.entry.tokens.now)) }
{
    let deed = Deed {
        kind: StmtKind::Continue,
        action: Action::Jump,
    };
    closed_statement(reader, at, at + 1, &deed, points)
}

/// `goto` with its label and its `;`.
#[tactic(auto, using(crate::proofs::LeafLaws::gotos))]
pub fn goto<'a>(
    reader: Reader<'a, '_>,
    start: u32,
    points: &mut Vec<Point<'a>>,
) -> Result<Read<'a>, SyntaxRefusal>
    requires within { start < length reader.tokens.now }
    ensures gives { Gives seen_statement result (goto_at (input reader.entry) (named reader.entry) start) }
    ensures pointed { IfOk result (λ r. IsPointed points.old.items points.new.items r.stmt) }
    ensures ends { IfOk result (λ r. (start < r.next) × (r.next ≤ length reader.entry.tokens.now)) }
{
    let label = name(reader, start + 1)?;
    let deed = Deed {
        kind: StmtKind::Goto(label),
        action: Action::Jump,
    };
    closed_statement(reader, start, start + 2, &deed, points)
}

/// `return` without a value, and its `;`.
fn plain_return<'a>(
    reader: Reader<'_, '_>,
    start: u32,
    points: &mut Vec<Point<'a>>,
) -> Result<Read<'a>, SyntaxRefusal>
    requires within { start < length reader.tokens.now }
    ensures gives { Gives seen_statement result
        (closed_at (input reader.entry) (named reader.entry) (stmt_shape (StmtKind.Return None)) start (start + 1)) }
    ensures pointed { IfOk result (λ r. IsPointed points.old.items points.new.items r.stmt) }
    ensures ends { IfOk result (λ r. (start < r.next) × (r.next ≤ length reader.entry.tokens.now)) }
{
    let deed = Deed {
        kind: StmtKind::Return(None),
        action: Action::Return(None),
    };
    closed_statement(reader, start, start + 1, &deed, points)
}

/// `return` with a value that was read, and its `;`.
fn value_return<'a>(
    reader: Reader<'a, '_>,
    start: u32,
    value: &Reading<'a>,
    points: &mut Vec<Point<'a>>,
) -> Result<Read<'a>, SyntaxRefusal>
    ensures gives { Gives seen_statement result
        (closed_at (input reader.entry) (named reader.entry) (returned (Some (shape value.now.tree))) start value.now.next) }
    ensures pointed { IfOk result (λ r. IsPointed points.old.items points.new.items r.stmt) }
    ensures ends { IfOk result (λ r. (value.now.next < r.next) × (r.next ≤ length reader.entry.tokens.now)) }
{
    let kept = kept_in(reader.bump, value.tree)?;
    let deed = Deed {
        kind: StmtKind::Return(Some(kept)),
        action: Action::Return(Some(kept)),
    };
    closed_statement(reader, start, value.next, &deed, points)
}

/// `return` with its value, where it has one, and its `;`.
#[tactic(auto, using(crate::proofs::LeafLaws::returns))]
pub fn return_statement<'a>(
    reader: Reader<'a, '_>,
    start: u32,
    depth: u32,
    points: &mut Vec<Point<'a>>,
) -> Result<Read<'a>, SyntaxRefusal>
    requires within { start < length reader.tokens.now }
    ensures gives { Gives seen_statement result (return_at (input reader.entry) (named reader.entry) depth start) }
    ensures pointed { IfOk result (λ r. IsPointed points.old.items points.new.items r.stmt) }
    ensures ends { IfOk result (λ r. (start < r.next) × (r.next ≤ length reader.entry.tokens.now)) }
{
    if let Sign::Semicolon = reader.sign(start + 1) {
        return plain_return(reader, start, points);
    }
    let value = reader.expression(start + 1, depth, 0)?;
    value_return(reader, start, &value, points)
}
