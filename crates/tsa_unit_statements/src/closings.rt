//! Statements are made of what stands before their bodies, the bodies, and what stands after them.
ghost use Rattle.std.specs.Prelude.{◌≡◌, ◌≤◌, ◌<◌, List, length, IfOk};
ghost use Rattle.tsa_tree.specs.declared.stmt.Point.{Point as point_type};
ghost use Rattle.tsa_tree.specs.expressions.Shapes.{shape};
ghost use Rattle.tsa_tree.specs.tokens.Signs.{span_at, span_over};
ghost use Rattle.tsa_tree.specs.statements.Syntax.{block};
ghost use Rattle.tsa_tree.specs.statements.Shapes.{stmt_shape, stmt_shapes};
ghost use Rattle.tsa_expr.specs.Source.{input, named};
ghost use Rattle.tsa_expr.specs.Gives.{Gives};
ghost use Rattle.tsa_unit_heads.specs.Heads.{IsMarked, IsOpened, ended};
ghost use Rattle.tsa_unit_statements.specs.Closings.{do_end_at, ended_with as spec_with, if_with};
ghost use Rattle.tsa_unit_simple.specs.PointNumbers.{ArePointed, IsPointed, ArmsPointed};
ghost use Rattle.tsa_unit_simple.specs.Readings.{seen_statement};

use tsa_base::Span;
use tsa_decl_declarators::semicolon;
use tsa_expr::{Reader, SyntaxRefusal};
use tsa_tree::stmt::{Point, Stmt, StmtKind};
use tsa_unit_heads::{Head, Marked, marked_test};
use tsa_unit_simple::{Body, Read, while_word};

/// The arms of an `if`, the second where there is one, and the token after them.
#[derive(Clone, Copy)]
pub struct Arms<'a> {
    pub yes: &'a Stmt<'a>,
    pub no: Option<&'a Stmt<'a>>,
    pub next: u32,
}

/// A statement by what stands before its body, and the body.
fn ended_with<'a>(head: Head<'a>, body: &'a Stmt<'a>, span: Span) -> Stmt<'a>
    ensures { result ≡ spec_with head.entry body.entry span }
{
    match head {
        Head::While { test, number } => Stmt {
            kind: StmtKind::While { test, body },
            point: Some(number),
            span,
        },
        Head::Switch { value, number } => Stmt {
            kind: StmtKind::Switch { value, body },
            point: Some(number),
            span,
        },
        Head::For {
            init,
            test,
            number,
            step,
        } => Stmt {
            kind: StmtKind::For {
                init,
                test,
                step,
                body,
            },
            point: Some(number),
            span,
        },
        Head::Case(value) => Stmt {
            kind: StmtKind::Case { value, body },
            point: None,
            span,
        },
        Head::Otherwise => Stmt {
            kind: StmtKind::Otherwise { body },
            point: None,
            span,
        },
        Head::Label(name) => Stmt {
            kind: StmtKind::Label { name, body },
            point: None,
            span,
        },
    }
}

/// A statement with the body that ends it.
pub fn headed_with_body<'a>(
    reader: Reader<'_, '_>,
    start: u32,
    head: Head<'a>,
    body: Body<'a>,
) -> Read<'a>
    requires { 0 < body.next }
    ensures is { seen_statement result ≡ (
      ended head.entry (stmt_shape body.entry.stmt.now.kind body.entry.stmt.now.span)
          (span_over (input reader.entry) start body.entry.next),
      body.entry.next,
    ) }
    ensures next_is { result.next ≡ body.entry.next }
    ensures pointed { (first middle last : List point_type) → IsOpened (span_at (input reader.entry) start) first middle head.entry
        → IsPointed middle last body.entry.stmt.now → IsPointed first last result.stmt }
{
    let span = reader.over(start, body.next);
    Read {
        stmt: ended_with(head, body.stmt, span),
        next: body.next,
    }
}

/// An `if` with its arms.
#[tactic(auto, using(crate::proofs::ClosingLaws::ifs))]
pub fn if_with_arms<'a>(
    reader: Reader<'_, '_>,
    start: u32,
    marked: Marked<'a>,
    arms: Arms<'a>,
) -> Read<'a>
    requires { 0 < arms.next }
    ensures is { seen_statement result ≡ (
      if_with (shape marked.entry.test.now) arms.entry.yes.now arms.entry.no
          (span_over (input reader.entry) start arms.entry.next),
      arms.entry.next,
    ) }
    ensures next_is { result.next ≡ arms.entry.next }
    ensures pointed { (first middle between last : List point_type) → IsMarked first middle marked.entry
        → IsPointed middle between arms.entry.yes.now → ArmsPointed between last arms.entry.no → IsPointed first last result.stmt }
{
    let kind = StmtKind::If {
        test: marked.test,
        yes: arms.yes,
        no: arms.no,
    };
    let span = reader.over(start, arms.next);
    Read {
        stmt: Stmt {
            kind,
            point: Some(marked.number),
            span,
        },
        next: arms.next,
    }
}

/// A `do` from after its body on: its test, whose point follows those of the body.
#[tactic(auto, using(crate::proofs::ClosingLaws::dos))]
pub fn do_with_test<'a>(
    reader: Reader<'a, '_>,
    start: u32,
    depth: u32,
    body: Body<'a>,
    points: &mut Vec<Point<'a>>,
) -> Result<Read<'a>, SyntaxRefusal>
    ensures gives { Gives seen_statement result
        (do_end_at (input reader.entry) (named reader.entry) depth start (stmt_shape body.entry.stmt.now.kind body.entry.stmt.now.span)
        body.entry.next) }
    ensures pointed { IfOk result (λ r. (first : List point_type) → IsPointed first points.old.items body.entry.stmt.now
        → IsPointed first points.new.items r.stmt) }
    ensures ends { IfOk result (λ r. (body.entry.next < r.next) × (r.next ≤ length reader.entry.tokens.now)) }
{
    let behind = while_word(reader, body.next)?;
    let marked = marked_test(reader, behind, depth, points)?;
    let next = semicolon(reader, marked.next)?;
    let kind = StmtKind::DoWhile {
        body: body.stmt,
        test: marked.test,
    };
    let span = reader.over(start, next);
    Ok(Read {
        stmt: Stmt {
            kind,
            point: Some(marked.number),
            span,
        },
        next,
    })
}

/// A block with its statements, up to before `next`. It has no point of its own.
#[tactic(auto, using(crate::proofs::ClosingLaws::blocks))]
pub fn block_of<'a>(
    reader: Reader<'_, '_>,
    start: u32,
    items: &'a [Stmt<'a>],
    next: u32,
) -> Read<'a>
    requires { 0 < next }
    ensures is { seen_statement result ≡ (block (stmt_shapes items.entry.now) (span_over (input reader.entry) start next), next) }
    ensures next_is { result.next ≡ next }
    ensures pointed { (first last : List point_type) → ArePointed first last items.entry.now → IsPointed first last result.stmt }
{
    let span = reader.over(start, next);
    Read {
        stmt: Stmt {
            kind: StmtKind::Block(items),
            point: None,
            span,
        },
        next,
    }
}
