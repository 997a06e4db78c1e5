//! What stands before the body of a statement is read, with its points (C11 6.8.1, 6.8.4, 6.8.5).
ghost use Rattle.std.specs.Prelude.{◌≡◌, ◌+◌, ◌≤◌, ◌<◌, ◌++◌, ◌∷◌, [], length, map, IfOk};
ghost use Rattle.tsa_tree.specs.points.Syntax.{point_of_test};
ghost use Rattle.tsa_tree.specs.Reads.{read};
ghost use Rattle.tsa_tree.specs.Rows.{a_statement, statement as statement_call};
ghost use Rattle.tsa_tree.specs.expressions.Shapes.{shape};
ghost use Rattle.tsa_tree.specs.tokens.Signs.{sign_at, span_at};
ghost use Rattle.tsa_tree.specs.statements.Shapes.{point_shape};
ghost use Rattle.tsa_expr.specs.Source.{input, named};
ghost use Rattle.tsa_expr.specs.Gives.{Gives, Leads};
ghost use Rattle.tsa_unit_simple.specs.Outcomes.{test_at};
ghost use Rattle.tsa_unit_heads.specs.Heads.{IsOpened, IsUnpointed, ended_at, seen_head, seen_marked};

use crate::text::TextReader;
use tsa_decl_declarators::{kept_in, open};
use tsa_expr::{Reader, SyntaxRefusal};
use tsa_tree::expr::{Expr, Name};
use tsa_tree::sign::{Keyword, Sign};
use tsa_tree::stmt::{Action, Point, Stmt};
use tsa_unit_simple::{Part, Value, colon, for_init, for_step, mark, test, value_or_none};

/// What stands before a body that ends its statement, with the numbers of the points there. Its trees stand in the arena.
#[derive(Clone, Copy)]
pub enum Head<'a> {
    While {
        test: &'a Expr<'a>,
        number: u32,
    },
    Switch {
        value: &'a Expr<'a>,
        number: u32,
    },
    For {
        init: Option<&'a Stmt<'a>>,
        test: Option<&'a Expr<'a>>,
        number: u32,
        step: Option<&'a Stmt<'a>>,
    },
    Case(&'a Expr<'a>),
    Otherwise,
    Label(Name<'a>),
}

/// A head, and the token at which the body begins.
#[derive(Clone, Copy)]
pub struct Headed<'a> {
    pub head: Head<'a>,
    pub next: u32,
}

/// A test in its parentheses, the number of its point, and the token after it.
#[derive(Clone, Copy)]
pub struct Marked<'a> {
    pub test: &'a Expr<'a>,
    pub number: u32,
    pub next: u32,
}

/// A test and its point.
#[tactic(auto, using(crate::proofs::HeadLaws::tests))]
pub fn marked_test<'a>(
    reader: Reader<'a, '_>,
    at: u32,
    depth: u32,
    points: &mut Vec<Point<'a>>,
) -> Result<Marked<'a>, SyntaxRefusal>
    ensures gives { Gives seen_marked result (test_at (input reader.entry) (named reader.entry) depth at) }
    ensures number { IfOk result (λ r. r.number ≡ length points.old.items) }
    ensures pointed { IfOk result (λ r. map point_shape points.new.items ≡ map point_shape points.old.items
        ++ point_of_test (shape r.test.now) ∷ []) }
    ensures ends { IfOk result (λ r. (at < r.next) × (r.next ≤ length reader.entry.tokens.now)) }
{
    let tested = test(reader, at, depth)?;
    let number = mark(points, Action::Test(Some(tested.tree)), tested.tree.span)?;
    Ok(Marked {
        test: tested.tree,
        number,
        next: tested.next,
    })
}

/// `while` and its test.
#[tactic(auto, using(crate::proofs::HeadLaws::whiles))]
pub fn while_head<'a>(
    reader: Reader<'a, '_>,
    start: u32,
    depth: u32,
    points: &mut Vec<Point<'a>>,
) -> Result<Headed<'a>, SyntaxRefusal>
    requires there { sign_at (input reader) (named reader) start ≡ Sign.Keyword Keyword.While }
    ensures leads { Leads seen_head result (read (input reader.entry) a_statement (statement_call (named reader.entry) depth) start)
        (ended_at (input reader.entry) (named reader.entry) depth start) }
    ensures opened { IfOk result (λ r. IsOpened (span_at (input reader.entry) start) points.old.items points.new.items r.head) }
    ensures ends { IfOk result (λ r. (start < r.next) × (r.next ≤ length reader.entry.tokens.now)) }
{
    let tested = marked_test(reader, start + 1, depth, points)?;
    let head = Head::While {
        test: tested.test,
        number: tested.number,
    };
    Ok(Headed {
        head,
        next: tested.next,
    })
}

/// `switch` and its value.
#[tactic(auto, using(crate::proofs::HeadLaws::values))]
pub fn switch_head<'a>(
    reader: Reader<'a, '_>,
    start: u32,
    depth: u32,
    points: &mut Vec<Point<'a>>,
) -> Result<Headed<'a>, SyntaxRefusal>
    requires there { sign_at (input reader) (named reader) start ≡ Sign.Keyword Keyword.Switch }
    ensures leads { Leads seen_head result (read (input reader.entry) a_statement (statement_call (named reader.entry) depth) start)
        (ended_at (input reader.entry) (named reader.entry) depth start) }
    ensures opened { IfOk result (λ r. IsOpened (span_at (input reader.entry) start) points.old.items points.new.items r.head) }
    ensures ends { IfOk result (λ r. (start < r.next) × (r.next ≤ length reader.entry.tokens.now)) }
{
    let value = test(reader, start + 1, depth)?;
    let number = mark(points, Action::Switch(value.tree), value.tree.span)?;
    let head = Head::Switch {
        value: value.tree,
        number,
    };
    Ok(Headed {
        head,
        next: value.next,
    })
}

impl<'a, 't> TextReader<'a, 't> {
    /// `for` and its three parts.
    #[tactic(auto, using(crate::proofs::HeadLaws::fors))]
    pub fn for_head(
        self,
        start: u32,
        depth: u32,
        points: &mut Vec<Point<'a>>,
    ) -> Result<Headed<'a>, SyntaxRefusal>
        requires there { sign_at (input self.reader) (named self.reader) start ≡ Sign.Keyword Keyword.For }
        ensures leads { Leads seen_head result
            (read (input self.entry.reader) a_statement (statement_call (named self.entry.reader) depth) start)
            (ended_at (input self.entry.reader) (named self.entry.reader) depth start) }
        ensures opened { IfOk result (λ r. IsOpened (span_at (input self.entry.reader) start) points.old.items points.new.items r.head) }
        ensures ends { IfOk result (λ r. (start < r.next) × (r.next ≤ length self.entry.reader.tokens.now)) }
    {
        let inside = open(self.reader, start + 1, depth)?;
        let init = for_init(self.reader, inside, depth + 1, points)?;
        let test = value_or_none(self.reader, init.next, depth + 1)?;
        let number = self.mark_loop(start, test.tree, points)?;
        let step = for_step(self.reader, test.next, depth + 1, points)?;
        Ok(for_parts(init.stmt, &test, number, step))
    }
}

/// The head of a `for` with its three parts, the body after the third one.
fn for_parts<'a>(
    init: Option<&'a Stmt<'a>>,
    test: &Value<'a>,
    number: u32,
    step: Part<'a>,
) -> Headed<'a>
    ensures is { result ≡ record { head = Head.For init.entry test.now.tree number step.entry.stmt; next = step.entry.next } }
{
    let head = Head::For {
        init,
        test: test.tree,
        number,
        step: step.stmt,
    };
    let next = step.next;
    Headed { head, next }
}

/// `case` with its value and its colon.
#[tactic(auto, using(crate::proofs::HeadLaws::cases))]
pub fn case_head<'a>(
    reader: Reader<'a, '_>,
    start: u32,
    depth: u32,
) -> Result<Headed<'a>, SyntaxRefusal>
    requires there { sign_at (input reader) (named reader) start ≡ Sign.Keyword Keyword.Case }
    ensures leads { Leads seen_head result (read (input reader.entry) a_statement (statement_call (named reader.entry) depth) start)
        (ended_at (input reader.entry) (named reader.entry) depth start) }
    ensures unpointed { IfOk result (λ r. IsUnpointed r.head) }
    ensures ends { IfOk result (λ r. (start < r.next) × (r.next ≤ length reader.entry.tokens.now)) }
{
    let value = reader.expression(start + 1, depth, 0)?;
    let next = colon(reader, value.next)?;
    let kept = kept_in(reader.bump, value.tree)?;
    let head = Head::Case(kept);
    Ok(Headed { head, next })
}

/// `default` and its colon.
#[tactic(auto, using(crate::proofs::HeadLaws::defaults))]
pub fn default_head<'a>(
    reader: Reader<'_, '_>,
    start: u32,
    depth: u32,
) -> Result<Headed<'a>, SyntaxRefusal>
    requires there { sign_at (input reader) (named reader) start ≡ Sign.Keyword Keyword.Default }
    ensures leads { Leads seen_head result (read (input reader.entry) a_statement (statement_call (named reader.entry) depth) start)
        (ended_at (input reader.entry) (named reader.entry) depth start) }
    ensures unpointed { IfOk result (λ r. IsUnpointed r.head) }
    ensures ends { IfOk result (λ r. (start < r.next) × (r.next ≤ length reader.entry.tokens.now)) }
{
    let next = colon(reader, start + 1)?;
    let head = Head::Otherwise;
    Ok(Headed { head, next })
}
