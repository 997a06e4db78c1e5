//! What stands in the parentheses of a `for`, and locals in a block, with their points (C11 6.8.2, 6.8.5.3).
ghost use Rattle.std.specs.Prelude.{◌≡◌, ◌+◌, ◌≤◌, ◌<◌, List, length, true, Err, IfOk, OnOk, OnErr};
ghost use Rattle.tsa_tree.specs.declared.stmt.Point.{Point as point_type};
ghost use Rattle.tsa_tree.specs.declarations.Shapes.{decl_shapes};
ghost use Rattle.tsa_tree.specs.Reads.{read};
ghost use Rattle.tsa_tree.specs.Rows.{a_for_init, some_statements, for_init as for_init_call, statements as statements_call};
ghost use Rattle.tsa_tree.specs.tokens.Signs.{begins_type as spec_begins_type, sign_at};
ghost use Rattle.tsa_tree.specs.statements.Syntax.{locals_before, none};
ghost use Rattle.tsa_tree.specs.statements.Shapes.{stmt_shapes};
ghost use Rattle.tsa_expr.specs.Source.{input, named};
ghost use Rattle.tsa_expr.specs.Gives.{Gives, Leads};
ghost use Rattle.tsa_attr.specs.Readings.{passed};
ghost use Rattle.tsa_unit_simple.specs.Outcomes.{joined, simply_at, statements_after, step_at};
ghost use Rattle.tsa_unit_simple.specs.PointNumbers.{ArePointed, IsBegun, IsPointed, IsStepped};
ghost use Rattle.tsa_unit_simple.specs.Readings.{seen_body, seen_init, seen_step};

use crate::conditions::close;
use crate::leaves::{mark_simple, simple_with};
use crate::points::{local, local_in};
use crate::signs::begins_type;
use crate::simple::read_simple;
use bumpalo::Bump;
use tsa_decl_declarators::{kept_in, read_locals, semicolon};
use tsa_expr::{Reader, SyntaxRefusal};
use tsa_tree::decl::Decl;
use tsa_tree::sign::Sign;
use tsa_tree::stmt::{Point, Stmt};

/// A statement in the arena, and the token after it.
#[derive(Clone, Copy)]
pub struct Body<'a> {
    pub stmt: &'a Stmt<'a>,
    pub next: u32,
}

/// A part of a `for` where it is there, and the token after its `;` or the parenthesis.
#[derive(Clone, Copy)]
pub struct Part<'a> {
    pub stmt: Option<&'a Stmt<'a>>,
    pub next: u32,
}

/// A simple statement that begins with this sign, without a `;`: its span ends with its last token.
#[tactic(auto, using(crate::proofs::PartLaws::simples))]
fn simple_part<'a>(
    reader: Reader<'a, '_>,
    at: u32,
    depth: u32,
    sign: Sign,
    points: &mut Vec<Point<'a>>,
) -> Result<Body<'a>, SyntaxRefusal>
    requires there { sign ≡ sign_at (input reader) (named reader) at }
    ensures gives { Gives seen_body result (simply_at (input reader.entry) (named reader.entry) depth at) }
    ensures pointed { IfOk result (λ r. IsPointed points.old.items points.new.items r.stmt.now) }
    ensures ends { IfOk result (λ r. (at < r.next) × (r.next ≤ length reader.entry.tokens.now)) }
{
    let simple = read_simple(reader, at, depth, sign)?;
    let number = mark_simple(&simple.kind, simple.span, points)?;
    let stmt = simple_with(&simple.kind, number, simple.span);
    in_body(reader.bump, stmt, simple.next)
}

/// A statement, kept in the arena.
pub fn in_body<'a>(bump: &'a Bump, stmt: Stmt<'a>, next: u32) -> Result<Body<'a>, SyntaxRefusal>
    ensures is { IfOk result (λ r. (r.stmt.now ≡ stmt.entry) × (r.next ≡ next)) }
    ensures memory { OnErr result (result ≡ Err SyntaxRefusal.NoMemory) }
{
    let stmt = kept_in(bump, stmt)?;
    Ok(Body { stmt, next })
}

/// The local that stands before the first `;` of a `for`.
#[tactic(auto, using(crate::proofs::PartLaws::for_locals))]
fn local_init<'a>(
    reader: Reader<'a, '_>,
    at: u32,
    depth: u32,
    points: &mut Vec<Point<'a>>,
) -> Result<Part<'a>, SyntaxRefusal>
    requires there { spec_begins_type (sign_at (input reader) (named reader) at) ≡ true }
    ensures gives { Gives seen_init result (read (input reader.entry) a_for_init (for_init_call (named reader.entry) depth) at) }
    ensures pointed { IfOk result (λ r. IsBegun points.old.items points.new.items r.stmt) }
    ensures ends { IfOk result (λ r. (at < r.next) × (r.next ≤ length reader.entry.tokens.now)) }
{
    let (decls, behind) = read_locals(reader, at, depth, true)?;
    let next = semicolon(reader, behind)?;
    let Some(decl) = decls.first() else {
        return Ok(Part { stmt: None, next });
    };
    let stmt = local_in(reader.bump, decl, points)?;
    Ok(Part {
        stmt: Some(stmt),
        next,
    })
}

/// What stands before the first `;` of a `for`, and that `;`.
#[tactic(auto, using(crate::proofs::PartLaws::inits))]
pub fn for_init<'a>(
    reader: Reader<'a, '_>,
    at: u32,
    depth: u32,
    points: &mut Vec<Point<'a>>,
) -> Result<Part<'a>, SyntaxRefusal>
    ensures gives { Gives seen_init result (read (input reader.entry) a_for_init (for_init_call (named reader.entry) depth) at) }
    ensures pointed { IfOk result (λ r. IsBegun points.old.items points.new.items r.stmt) }
    ensures ends { IfOk result (λ r. (at < r.next) × (r.next ≤ length reader.entry.tokens.now)) }
{
    let sign = reader.sign(at);
    if let Sign::Semicolon = sign {
        return Ok(Part {
            stmt: None,
            next: at + 1,
        });
    }
    if begins_type(sign) {
        return local_init(reader, at, depth, points);
    }
    let whole = simple_part(reader, at, depth, sign, points)?;
    let next = semicolon(reader, whole.next)?;
    Ok(Part {
        stmt: Some(whole.stmt),
        next,
    })
}

/// What stands after the second `;` of a `for`, and the parenthesis that closes it.
#[tactic(auto, using(crate::proofs::PartLaws::steps))]
pub fn for_step<'a>(
    reader: Reader<'a, '_>,
    at: u32,
    depth: u32,
    points: &mut Vec<Point<'a>>,
) -> Result<Part<'a>, SyntaxRefusal>
    ensures gives { Gives seen_step result (step_at (input reader.entry) (named reader.entry) depth at) }
    ensures pointed { IfOk result (λ r. IsStepped points.old.items points.new.items r.stmt) }
    ensures ends { IfOk result (λ r. (at < r.next) × (r.next ≤ length reader.entry.tokens.now)) }
{
    let sign = reader.sign(at);
    if let Sign::Close = sign {
        return Ok(Part {
            stmt: None,
            next: at + 1,
        });
    }
    let whole = simple_part(reader, at, depth, sign, points)?;
    let next = close(reader, whole.next)?;
    Ok(Part {
        stmt: Some(whole.stmt),
        next,
    })
}

/// Locals after other statements of a block, each with its point.
#[tactic(auto, using(crate::proofs::MarkLaws::declared))]
pub fn declare<'a>(
    decls: &'a [Decl<'a>],
    points: &mut Vec<Point<'a>>,
    list: &mut Vec<Stmt<'a>>,
) -> Result<(), SyntaxRefusal>
    ensures listed { OnOk result (stmt_shapes list.new.items
        ≡ joined (stmt_shapes list.old.items) (locals_before (decl_shapes decls.entry.now) none)) }
    ensures pointed { OnOk result ((start : List point_type) → ArePointed start points.old.items list.old.items
        → ArePointed start points.new.items list.new.items) }
    ensures memory { OnErr result (result ≡ Err SyntaxRefusal.NoMemory) }
{
    'locals: for decl in decls {
        local(decl, points, list)?;
    }
    Ok(())
}

/// Locals of a block and their `;`, after its other statements.
#[tactic(auto, using(crate::proofs::MarkLaws::blocks))]
pub fn locals<'a>(
    reader: Reader<'a, '_>,
    at: u32,
    depth: u32,
    points: &mut Vec<Point<'a>>,
    list: &mut Vec<Stmt<'a>>,
) -> Result<u32, SyntaxRefusal>
    requires there { spec_begins_type (sign_at (input reader) (named reader) at) ≡ true }
    ensures leads { Leads passed result (statements_after (stmt_shapes list.old.items)
        (read (input reader.entry) some_statements (statements_call (named reader.entry) depth) at))
        (λ u next. statements_after (stmt_shapes list.new.items)
        (read (input reader.entry) some_statements (statements_call (named reader.entry) depth) next)) }
    ensures pointed { IfOk result (λ next. (start : List point_type) → ArePointed start points.old.items list.old.items
        → ArePointed start points.new.items list.new.items) }
    ensures ends { IfOk result (λ next. (at < next) × (next ≤ length reader.entry.tokens.now)) }
{
    let (decls, behind) = read_locals(reader, at, depth, false)?;
    let next = semicolon(reader, behind)?;
    declare(decls, points, list)?;
    Ok(next)
}
