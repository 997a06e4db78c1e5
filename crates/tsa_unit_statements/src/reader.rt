//! Statements are read (C11 6.8). The recursion is as deep as constructs may be nested: the statements of a block are read by
//! a loop. A point is kept where its place is passed, so that points stand in order of the text.
ghost use Rattle.std.specs.Prelude.{◌≡◌, ◌+◌, ◌≤◌, ◌<◌, List, length, true, Err, IfOk, OnErr};
ghost use Rattle.tsa_base.specs.declared.limits.TheConstants.{NESTING_LIMIT};
ghost use Rattle.tsa_tree.specs.declared.stmt.Point.{Point as point_type};
ghost use Rattle.tsa_tree.specs.Reads.{read};
ghost use Rattle.tsa_tree.specs.Rows.{a_statement, some_statements, statement as statement_call, statements as statements_call};
ghost use Rattle.tsa_tree.specs.tokens.Signs.{sign_at, span_at};
ghost use Rattle.tsa_tree.specs.expressions.Shapes.{shape};
ghost use Rattle.tsa_tree.specs.statements.Shapes.{stmt_shapes};
ghost use Rattle.tsa_expr.specs.Source.{input, named};
ghost use Rattle.tsa_expr.specs.Gives.{Gives};
ghost use Rattle.tsa_unit_heads.specs.Heads.{IsMarked, IsOpened, ended_at};
ghost use Rattle.tsa_unit_heads.specs.Openings.{ends_with_body};
ghost use Rattle.tsa_unit_statements.specs.Closings.{arms_at};
ghost use Rattle.tsa_unit_simple.specs.Outcomes.{body_at};
ghost use Rattle.tsa_unit_statements.specs.KeepAnswers.{IsKept};
ghost use Rattle.tsa_unit_simple.specs.PointNumbers.{ArePointed, IsPointed};
ghost use Rattle.tsa_unit_simple.specs.Readings.{seen_body, seen_statement};

use crate::closings::{Arms, block_of, do_with_test, headed_with_body, if_with_arms};
use std::alloc::Global;
use tsa_base::NESTING_LIMIT;
use tsa_decl_declarators::{in_arena_before, keep, open_brace};
use tsa_expr::{Reader, SyntaxCode, SyntaxRefusal, refuse};
use tsa_tree::sign::{Keyword, Sign};
use tsa_tree::stmt::{Point, Stmt};
use tsa_unit_heads::{Head, Headed, Marked, TextReader, leaf_statement, marked_test};
use tsa_unit_simple::{
    Body, Read, begins_statement, begins_type, closes_block, empty, in_body, is_else_at, locals,
    simple_statement,
};

/// A statement that was read stands after the others, and the token after it is given; a refusal is handed on.
fn keep_statement<'a>(
    list: &mut Vec<Stmt<'a>>,
    read: Result<Read<'a>, SyntaxRefusal>,
) -> Result<u32, SyntaxRefusal>
    ensures is { IsKept list.old.items list.new.items read.entry result }
{
    match read {
        Ok(read) => {
            keep(list, read.stmt)?;
            Ok(read.next)
        }
        Err(refusal) => Err(refusal),
    }
}

/// The allocator of a list, which is lent whole: a shared reference of a list of points costs the check ten seconds.
fn allocator_of<T: Copy>(list: &mut Vec<T>) -> Global
    ensures same { list.new.items ≡ list.old.items }
{
    *list.allocator()
}

/// A list, kept in the arena, and the token after it. The list is taken whole, as it is lent whole above.
fn in_arena_whole<'a, T: Copy>(
    reader: Reader<'a, '_>,
    items: Vec<T>,
    next: u32,
) -> Result<(&'a [T], u32), SyntaxRefusal>
    ensures is { IfOk result (λ found. (found.0.now ≡ items.items) × (found.1 ≡ next)) }
    ensures memory { OnErr result (result ≡ Err SyntaxRefusal.NoMemory) }
{
    in_arena_before(reader.bump, &items, next)
}

/// The statement that begins at a token with this sign, where `depth` constructs are open.
#[cycle(statements)]
#[tactic(auto, using(crate::proofs::BeginningLaws::signs))]
fn statement<'a>(
    source: TextReader<'a, '_>,
    at: u32,
    depth: u32,
    sign: Sign,
    points: &mut Vec<Point<'a>>,
) -> Result<Read<'a>, SyntaxRefusal>
    requires there { sign ≡ sign_at (input source.reader) (named source.reader) at }
    ensures gives { Gives seen_statement result
        (read (input source.entry.reader) a_statement (statement_call (named source.entry.reader) depth) at) }
    ensures pointed { IfOk result (λ r. IsPointed points.old.items points.new.items r.stmt) }
    ensures ends { IfOk result (λ r. (at < r.next) × (r.next ≤ length source.entry.reader.tokens.now)) }
{
    match sign {
        Sign::OpenBrace => block(source, at, depth, points),
        Sign::Semicolon => empty(source.reader, at, points),
        Sign::Keyword(word) => keyword_statement(source, at, depth, word, points),
        Sign::Name => name_statement(source, at, depth, points),
        _ => simple_statement(source.reader, at, depth, sign, points),
    }
}

/// A statement that begins with a keyword.
#[cycle(statements)]
fn keyword_statement<'a>(
    source: TextReader<'a, '_>,
    at: u32,
    depth: u32,
    word: Keyword,
    points: &mut Vec<Point<'a>>,
) -> Result<Read<'a>, SyntaxRefusal>
    requires there { sign_at (input source.reader) (named source.reader) at ≡ Sign.Keyword word }
    ensures gives { Gives seen_statement result
        (read (input source.entry.reader) a_statement (statement_call (named source.entry.reader) depth) at) }
    ensures pointed { IfOk result (λ r. IsPointed points.old.items points.new.items r.stmt) }
    ensures ends { IfOk result (λ r. (at < r.next) × (r.next ≤ length source.entry.reader.tokens.now)) }
{
    match word {
        Keyword::If => if_statement(source, at, depth, points),
        Keyword::Do => do_loop(source, at, depth, points),
        Keyword::While | Keyword::Switch | Keyword::For | Keyword::Case | Keyword::Default =>
            headed_statement(source, at, depth, word, points),
        _ => leaf_statement(source.reader, at, depth, word, points),
    }
}

/// A statement that begins with a name: a label where a colon stands after it, and else a simple statement.
#[cycle(statements)]
#[tactic(auto, using(crate::proofs::BeginningLaws::names))]
fn name_statement<'a>(
    source: TextReader<'a, '_>,
    at: u32,
    depth: u32,
    points: &mut Vec<Point<'a>>,
) -> Result<Read<'a>, SyntaxRefusal>
    requires there { sign_at (input source.reader) (named source.reader) at ≡ Sign.Name }
    ensures gives { Gives seen_statement result
        (read (input source.entry.reader) a_statement (statement_call (named source.entry.reader) depth) at) }
    ensures pointed { IfOk result (λ r. IsPointed points.old.items points.new.items r.stmt) }
    ensures ends { IfOk result (λ r. (at < r.next) × (r.next ≤ length source.entry.reader.tokens.now)) }
{
    let Sign::Colon = source.reader.sign(at + 1) else {
        return simple_statement(source.reader, at, depth, Sign::Name, points);
    };
    let name = source.reader.name(at)?;
    let head = Head::Label(name);
    let next = at + 1 + 1;
    ending(source, at, depth, Headed { head, next }, points)
}

/// A statement with a keyword that a body ends.
#[cycle(statements)]
#[tactic(auto, using(crate::proofs::BeginningLaws::headed))]
fn headed_statement<'a>(
    source: TextReader<'a, '_>,
    at: u32,
    depth: u32,
    word: Keyword,
    points: &mut Vec<Point<'a>>,
) -> Result<Read<'a>, SyntaxRefusal>
    requires there { sign_at (input source.reader) (named source.reader) at ≡ Sign.Keyword word }
    requires headed { ends_with_body word ≡ true }
    ensures gives { Gives seen_statement result
        (read (input source.entry.reader) a_statement (statement_call (named source.entry.reader) depth) at) }
    ensures pointed { IfOk result (λ r. IsPointed points.old.items points.new.items r.stmt) }
    ensures ends { IfOk result (λ r. (at < r.next) × (r.next ≤ length source.entry.reader.tokens.now)) }
{
    let headed = source.keyword_head(at, depth, word, points)?;
    ending(source, at, depth, headed, points)
}

/// A statement that is the body of another one, and so opens a construct.
#[cycle(statements)]
#[tactic(auto, using(crate::proofs::StatementLaws::bodies))]
fn body<'a>(
    source: TextReader<'a, '_>,
    at: u32,
    depth: u32,
    points: &mut Vec<Point<'a>>,
) -> Result<Body<'a>, SyntaxRefusal>
    ensures gives { Gives seen_body result (body_at (input source.entry.reader) (named source.entry.reader) depth at) }
    ensures pointed { IfOk result (λ r. IsPointed points.old.items points.new.items r.stmt.now) }
    ensures ends { IfOk result (λ r. (at < r.next) × (r.next ≤ length source.entry.reader.tokens.now)) }
{
    let sign = source.reader.sign(at);
    if !begins_statement(sign) {
        return Err(refuse(SyntaxCode::SY1, at));
    }
    if depth >= NESTING_LIMIT {
        return Err(refuse(SyntaxCode::LM2, at));
    }
    let inner = statement(source, at, depth + 1, sign, points)?;
    in_body(source.reader.bump, inner.stmt, inner.next)
}

/// A statement from its body on, which ends it.
#[cycle(statements)]
#[tactic(auto, using(crate::proofs::StatementLaws::endings))]
fn ending<'a>(
    source: TextReader<'a, '_>,
    start: u32,
    depth: u32,
    headed: Headed<'a>,
    points: &mut Vec<Point<'a>>,
) -> Result<Read<'a>, SyntaxRefusal>
    ensures gives { Gives seen_statement result
        (ended_at (input source.entry.reader) (named source.entry.reader) depth start headed.entry.head headed.entry.next) }
    ensures pointed { IfOk result (λ r. (first : List point_type)
        → IsOpened (span_at (input source.entry.reader) start) first points.old.items headed.entry.head
        → IsPointed first points.new.items r.stmt) }
    ensures ends { IfOk result (λ r. (headed.entry.next < r.next) × (r.next ≤ length source.entry.reader.tokens.now)) }
{
    match body(source, headed.next, depth, points) {
        Ok(inner) => Ok(headed_with_body(source.reader, start, headed.head, inner)),
        Err(refusal) => Err(refusal),
    }
}

/// `if` with its test, and then its arms.
#[cycle(statements)]
#[tactic(auto, using(crate::proofs::BeginningLaws::ifs))]
fn if_statement<'a>(
    source: TextReader<'a, '_>,
    start: u32,
    depth: u32,
    points: &mut Vec<Point<'a>>,
) -> Result<Read<'a>, SyntaxRefusal>
    requires there { sign_at (input source.reader) (named source.reader) start ≡ Sign.Keyword Keyword.If }
    ensures gives { Gives seen_statement result
        (read (input source.entry.reader) a_statement (statement_call (named source.entry.reader) depth) start) }
    ensures pointed { IfOk result (λ r. IsPointed points.old.items points.new.items r.stmt) }
    ensures ends { IfOk result (λ r. (start < r.next) × (r.next ≤ length source.entry.reader.tokens.now)) }
{
    let marked = marked_test(source.reader, start + 1, depth, points)?;
    arms(source, start, depth, marked, points)
}

/// An `if` from its arm on. An `else` belongs to the nearest `if` (C11 6.8.4.1p3).
#[cycle(statements)]
#[tactic(auto, using(crate::proofs::StatementLaws::arms))]
fn arms<'a>(
    source: TextReader<'a, '_>,
    start: u32,
    depth: u32,
    marked: Marked<'a>,
    points: &mut Vec<Point<'a>>,
) -> Result<Read<'a>, SyntaxRefusal>
    ensures gives { Gives seen_statement result
        (arms_at (input source.entry.reader) (named source.entry.reader) depth start (shape marked.entry.test.now) marked.entry.next) }
    ensures pointed { IfOk result (λ r. (first : List point_type) → IsMarked first points.old.items marked.entry
        → IsPointed first points.new.items r.stmt) }
    ensures ends { IfOk result (λ r. (marked.entry.next < r.next) × (r.next ≤ length source.entry.reader.tokens.now)) }
{
    let arm = body(source, marked.next, depth, points)?;
    let yes = arm.stmt;
    if !is_else_at(source.reader, arm.next) {
        let next = arm.next;
        let arms = Arms {
            yes,
            no: None,
            next,
        };
        return Ok(if_with_arms(source.reader, start, marked, arms));
    }
    let other = body(source, arm.next + 1, depth, points)?;
    let (no, next) = (Some(other.stmt), other.next);
    let arms = Arms { yes, no, next };
    Ok(if_with_arms(source.reader, start, marked, arms))
}

/// `do` with its body, and then its test (C11 6.8.5.2).
#[cycle(statements)]
#[tactic(auto, using(crate::proofs::StatementLaws::dos))]
fn do_loop<'a>(
    source: TextReader<'a, '_>,
    start: u32,
    depth: u32,
    points: &mut Vec<Point<'a>>,
) -> Result<Read<'a>, SyntaxRefusal>
    requires there { sign_at (input source.reader) (named source.reader) start ≡ Sign.Keyword Keyword.Do }
    ensures gives { Gives seen_statement result
        (read (input source.entry.reader) a_statement (statement_call (named source.entry.reader) depth) start) }
    ensures pointed { IfOk result (λ r. IsPointed points.old.items points.new.items r.stmt) }
    ensures ends { IfOk result (λ r. (start < r.next) × (r.next ≤ length source.entry.reader.tokens.now)) }
{
    let inner = body(source, start + 1, depth, points)?;
    do_with_test(source.reader, start, depth, inner, points)
}

/// A block: declarations and statements in braces (C11 6.8.2).
#[cycle(statements)]
#[tactic(auto, using(crate::proofs::StatementLaws::blocks))]
fn block<'a>(
    source: TextReader<'a, '_>,
    start: u32,
    depth: u32,
    points: &mut Vec<Point<'a>>,
) -> Result<Read<'a>, SyntaxRefusal>
    requires there { sign_at (input source.reader) (named source.reader) start ≡ Sign.OpenBrace }
    ensures gives { Gives seen_statement result
        (read (input source.entry.reader) a_statement (statement_call (named source.entry.reader) depth) start) }
    ensures pointed { IfOk result (λ r. IsPointed points.old.items points.new.items r.stmt) }
    ensures ends { IfOk result (λ r. (start < r.next) × (r.next ≤ length source.entry.reader.tokens.now)) }
{
    let inside = open_brace(source.reader, start, depth)?;
    let (items, next) = statements(source, inside, depth + 1, points)?;
    Ok(block_of(source.reader, start, items, next))
}

/// What stands between the braces of a block, and the brace that closes it.
#[cycle(statements)]
#[tactic(auto, using(crate::proofs::StatementLaws::lists))]
pub fn statements<'a>(
    source: TextReader<'a, '_>,
    at: u32,
    depth: u32,
    points: &mut Vec<Point<'a>>,
) -> Result<(&'a [Stmt<'a>], u32), SyntaxRefusal>
    ensures gives { Gives (λ found. (stmt_shapes found.0.now, found.1)) result
        (read (input source.entry.reader) some_statements (statements_call (named source.entry.reader) depth) at) }
    ensures pointed { IfOk result (λ found. ArePointed points.old.items points.new.items found.0.now) }
    ensures ends { IfOk result (λ found. (at < found.1) × (found.1 ≤ length source.entry.reader.tokens.now)) }
{
    let mut list = Vec::new(allocator_of(points));
    let mut next = at;
    'statements: loop {
        let sign = source.reader.sign(next);
        if closes_block(sign) {
            return in_arena_whole(source.reader, list, next + 1);
        }
        next = if begins_type(sign) {
            locals(source.reader, next, depth, points, &mut list)?
        } else {
            keep_statement(&mut list, statement(source, next, depth, sign, points))?
        };
    }
}
