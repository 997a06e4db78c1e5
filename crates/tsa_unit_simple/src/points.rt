//! Points are kept in order of the text, and statements bear their numbers.
ghost use Rattle.std.specs.Prelude.{◌≡◌, ◌++◌, ◌∷◌, [], length, Some, Ok, OnOk, OnErr, Err, IfOk};
ghost use Rattle.tsa_unit_simple.specs.PointNumbers.{IsPointed, IsAlone};

use bumpalo::Bump;
use std::alloc::Allocator;
use tsa_base::Span;
use tsa_decl_declarators::{keep, kept_in};
use tsa_expr::SyntaxRefusal;
use tsa_tree::decl::Decl;
use tsa_tree::stmt::{Action, Point, Stmt, StmtKind};

/// A statement of one point, and what is done there.
#[derive(Clone, Copy)]
pub struct Deed<'a> {
    pub kind: StmtKind<'a>,
    pub action: Action<'a>,
}

/// A statement that was read, and the token after it.
#[derive(Clone, Copy)]
pub struct Read<'a> {
    pub stmt: Stmt<'a>,
    pub next: u32,
}

/// Keeps a point after the others, and gives its number: more of them than a `u32` counts are want of memory.
pub fn mark<'a>(
    points: &mut Vec<Point<'a>>,
    action: Action<'a>,
    span: Span,
) -> Result<u32, SyntaxRefusal>
    ensures number { IfOk result (λ number. number ≡ length points.old.items) }
    ensures kept { OnOk result (points.new.items ≡ points.old.items ++ record { action = action.entry; span = span } ∷ []) }
    ensures memory { OnErr result (result ≡ Err SyntaxRefusal.NoMemory) }
{
    number_of(points, Point { action, span })
}

/// One more at the end of a list, and its number there: more of them than a `u32` counts are want of memory.
fn number_of<T: Copy, A: Allocator>(list: &mut Vec<T, A>, item: T) -> Result<u32, SyntaxRefusal>
    ensures number { IfOk result (λ number. number ≡ length list.old.items) }
    ensures kept { OnOk result (list.new.items ≡ list.old.items ++ item ∷ []) }
    ensures memory { OnErr result (result ≡ Err SyntaxRefusal.NoMemory) }
{
    let Ok(number) = u32::try_from(list.len()) else {
        return Err(SyntaxRefusal::NoMemory);
    };
    list.push(item)?;
    Ok(number)
}

/// The statement of a point that has a number.
fn numbered<'a>(deed: &Deed<'a>, number: u32, span: Span) -> Stmt<'a>
    ensures is { result ≡ record { kind = deed.now.kind; point = Some number; span = span } }
{
    Stmt {
        kind: deed.kind,
        point: Some(number),
        span,
    }
}

/// A statement of one point, up to before `next`.
#[tactic(auto, using(crate::proofs::PointLaws::alone))]
pub fn alone<'a>(
    points: &mut Vec<Point<'a>>,
    deed: &Deed<'a>,
    span: Span,
    next: u32,
) -> Result<Read<'a>, SyntaxRefusal>
    requires single { IsAlone deed.now.kind deed.now.action span }
    ensures is { IfOk result (λ r. (r.stmt.kind ≡ deed.now.kind) × (r.stmt.span ≡ span) × (r.next ≡ next)) }
    ensures pointed { IfOk result (λ r. IsPointed points.old.items points.new.items r.stmt) }
    ensures memory { OnErr result (result ≡ Err SyntaxRefusal.NoMemory) }
{
    let number = mark(points, deed.action, span)?;
    let stmt = numbered(deed, number, span);
    Ok(Read { stmt, next })
}

/// The statement that a local is, whose point has a number.
fn local_of<'a>(decl: &'a Decl<'a>, number: u32) -> Stmt<'a>
    ensures is { result ≡ record { kind = StmtKind.Local decl.entry; point = Some number; span = decl.entry.now.span } }
{
    Stmt {
        kind: StmtKind::Local(decl),
        point: Some(number),
        span: decl.span,
    }
}

/// The statement that a local is, after the others of a block.
#[tactic(auto, using(crate::proofs::MarkLaws::locals))]
pub fn local<'a>(
    decl: &'a Decl<'a>,
    points: &mut Vec<Point<'a>>,
    list: &mut Vec<Stmt<'a>>,
) -> Result<(), SyntaxRefusal>
    ensures listed { OnOk result (list.new.items ≡ list.old.items
        ++ record { kind = StmtKind.Local decl.entry; point = Some (length points.old.items); span = decl.entry.now.span } ∷ []) }
    ensures pointed { OnOk result (IsPointed points.old.items points.new.items
        (record { kind = StmtKind.Local decl.entry; point = Some (length points.old.items); span = decl.entry.now.span })) }
    ensures memory { OnErr result (result ≡ Err SyntaxRefusal.NoMemory) }
{
    let number = mark(points, Action::Declare(decl), decl.span)?;
    keep(list, local_of(decl, number))?;
    Ok(())
}

/// The statement that a local is, kept in the arena.
#[tactic(auto, using(crate::proofs::MarkLaws::locals))]
pub fn local_in<'a>(
    bump: &'a Bump,
    decl: &'a Decl<'a>,
    points: &mut Vec<Point<'a>>,
) -> Result<&'a Stmt<'a>, SyntaxRefusal>
    ensures is { IfOk result (λ stmt. (stmt.now.kind ≡ StmtKind.Local decl.entry) × (stmt.now.span ≡ decl.entry.now.span)) }
    ensures pointed { IfOk result (λ stmt. IsPointed points.old.items points.new.items stmt.now) }
    ensures memory { OnErr result (result ≡ Err SyntaxRefusal.NoMemory) }
{
    let number = mark(points, Action::Declare(decl), decl.span)?;
    kept_in(bump, local_of(decl, number))
}
