//! The steps of a body (C11 6.8): its points in order of the text, and where names begin and end.
ghost use Rattle.std.specs.Prelude.{◌≡◌, ◌+◌, ◌++◌, ◌∷◌, [], map, option_map, OnOk, IfOk};
ghost use Rattle.tsa_tree.specs.expressions.Shapes.{shape};
ghost use Rattle.tsa_tree.specs.statements.Shapes.{action_shape, stmt_shape, stmt_shapes, init_given, step_given, step_of};
ghost use Rattle.tsa_core_points.specs.Steps.{does, opens, closes, nested, init_steps, third_steps, test_step, for_test, steps_of};
ghost use Rattle.tsa_core_points.specs.Steps.{steps_of_all, body_steps as steps_of_body, step_shape, leaf_steps, value_step};

use std::alloc::Global;
use tsa_base::{NoMemory, Span};
use tsa_tree::expr::Expr;
use tsa_tree::stmt::{Action, Point, Stmt, StmtKind};

/// A step of a walk through a body: a point, or where the names of a block begin or end.
#[derive(Clone, Copy)]
pub enum Step<'a> {
    Point(Point<'a>),
    Open,
    Close,
}

/// Keeps a step behind the others.
#[tactic(auto, using(crate::proofs::StepLists::one_more))]
fn put<'a>(steps: &mut Vec<Step<'a>>, step: Step<'a>) -> Result<(), NoMemory>
    ensures { OnOk result (map step_shape steps.new.items ≡ map step_shape steps.old.items ++ step_shape step.entry ∷ []) }
{
    steps.push(step)?;
    Ok(())
}

/// The names of a block begin.
fn put_open(steps: &mut Vec<Step<'_>>) -> Result<(), NoMemory>
    ensures { OnOk result (map step_shape steps.new.items ≡ map step_shape steps.old.items ++ opens ∷ []) }
{
    put(steps, Step::Open)
}

/// The names of a block end.
fn put_close(steps: &mut Vec<Step<'_>>) -> Result<(), NoMemory>
    ensures { OnOk result (map step_shape steps.new.items ≡ map step_shape steps.old.items ++ closes ∷ []) }
{
    put(steps, Step::Close)
}

/// A point.
fn put_point<'a>(steps: &mut Vec<Step<'a>>, action: Action<'a>, span: Span) -> Result<(), NoMemory>
    ensures { OnOk result (map step_shape steps.new.items ≡ map step_shape steps.old.items ++ does (action_shape action.entry) span ∷ []) }
{
    put(steps, Step::Point(Point { action, span }))
}

/// The test of an `if`, a `while` or a `do`, which stands where its expression does.
#[tactic(auto, using(tsa_types_expressions::proofs::LengthLaws::shape_span))]
fn put_test<'a>(steps: &mut Vec<Step<'a>>, test: &'a Expr<'a>) -> Result<(), NoMemory>
    ensures { OnOk result (map step_shape steps.new.items ≡ map step_shape steps.old.items ++ test_step (shape test.entry.now) ∷ []) }
{
    put_point(steps, Action::Test(Some(test)), test.span)
}

/// The value of a `switch`, which stands where its expression does.
#[tactic(auto, using(tsa_types_expressions::proofs::LengthLaws::shape_span))]
fn put_value<'a>(steps: &mut Vec<Step<'a>>, value: &'a Expr<'a>) -> Result<(), NoMemory>
    ensures { OnOk result (map step_shape steps.new.items ≡ map step_shape steps.old.items ++ value_step (shape value.entry.now) ∷ []) }
{
    put_point(steps, Action::Switch(value), value.span)
}

/// Where the word of a `for` stands.
fn for_word(span: Span) -> Result<Span, NoMemory>
    ensures { IfOk result (λ word. word ≡ record { from = span.from; to = span.from + 3 }) }
{
    let to = span.from.checked_add(3).ok_or(NoMemory)?;
    Ok(Span {
        from: span.from,
        to,
    })
}

/// The test of a `for` of a span; an absent one stands where the word `for` does.
fn put_for_test<'a>(
    steps: &mut Vec<Step<'a>>,
    span: Span,
    test: Option<&'a Expr<'a>>,
) -> Result<(), NoMemory>
    ensures { OnOk result (map step_shape steps.new.items ≡ map step_shape steps.old.items
        ++ for_test span (option_map (λ x. shape x.now) test.entry) ∷ []) }
{
    match test {
        Some(test) => put_test(steps, test),
        None => put_point(steps, Action::Test(None), for_word(span)?),
    }
}

/// A statement that evaluates or assigns.
fn put_simple<'a>(steps: &mut Vec<Step<'a>>, stmt: &'a Stmt<'a>) -> Result<(), NoMemory>
    ensures { OnOk result (map step_shape steps.new.items ≡ map step_shape steps.old.items
        ++ third_steps (step_of stmt.entry.now.kind stmt.entry.now.span)) }
{
    match &stmt.kind {
        StmtKind::Eval(tree) => put_point(steps, Action::Eval(tree), stmt.span),
        StmtKind::Assign { left, op, right } => {
            let op = *op;
            put_point(steps, Action::Assign { left, op, right }, stmt.span)
        }
        _ => Ok(()),
    }
}

/// The first part of a `for`, where there is one.
fn put_init<'a>(steps: &mut Vec<Step<'a>>, part: Option<&'a Stmt<'a>>) -> Result<(), NoMemory>
    ensures { OnOk result (map step_shape steps.new.items ≡ map step_shape steps.old.items ++ init_steps (init_given part.entry)) }
{
    let Some(part) = part else {
        return Ok(());
    };
    match &part.kind {
        StmtKind::Local(decl) => put_point(steps, Action::Declare(decl), decl.span),
        StmtKind::Eval(_) => put_simple(steps, part),
        StmtKind::Assign { .. } => put_simple(steps, part),
        _ => Ok(()),
    }
}

/// The third part of a `for`, where there is one.
fn put_third<'a>(steps: &mut Vec<Step<'a>>, part: Option<&'a Stmt<'a>>) -> Result<(), NoMemory>
    ensures { OnOk result (map step_shape steps.new.items ≡ map step_shape steps.old.items ++ third_steps (step_given part.entry)) }
{
    match part {
        Some(part) => put_simple(steps, part),
        None => Ok(()),
    }
}

/// What stands before the third part of a `for` of a span, whose names begin with it.
fn put_head<'a>(
    steps: &mut Vec<Step<'a>>,
    init: Option<&'a Stmt<'a>>,
    span: Span,
    test: Option<&'a Expr<'a>>,
) -> Result<(), NoMemory>
    ensures { OnOk result (map step_shape steps.new.items ≡ map step_shape steps.old.items
        ++ opens ∷ (init_steps (init_given init.entry) ++ for_test span (option_map (λ x. shape x.now) test.entry) ∷ [])) }
{
    put_open(steps)?;
    put_init(steps, init)?;
    put_for_test(steps, span, test)
}

/// A statement that has no other in it.
fn put_leaf<'a>(steps: &mut Vec<Step<'a>>, stmt: &'a Stmt<'a>) -> Result<(), NoMemory>
    ensures { OnOk result (map step_shape steps.new.items ≡ map step_shape steps.old.items
        ++ leaf_steps (stmt_shape stmt.entry.now.kind stmt.entry.now.span)) }
{
    let span = stmt.span;
    match &stmt.kind {
        StmtKind::Empty => put_point(steps, Action::Idle, span),
        StmtKind::Local(decl) => put_point(steps, Action::Declare(decl), decl.span),
        StmtKind::Eval(_) => put_simple(steps, stmt),
        StmtKind::Assign { .. } => put_simple(steps, stmt),
        StmtKind::Break => put_point(steps, Action::Jump, span),
        StmtKind::Continue => put_point(steps, Action::Jump, span),
        StmtKind::Goto(_) => put_point(steps, Action::Jump, span),
        StmtKind::Return(value) => put_point(steps, Action::Return(*value), span),
        _ => Ok(()),
    }
}

/// The steps of a statement.
#[cycle(stepping)]
fn put_steps<'a>(steps: &mut Vec<Step<'a>>, stmt: &'a Stmt<'a>) -> Result<(), NoMemory>
    ensures { OnOk result (map step_shape steps.new.items ≡ map step_shape steps.old.items
        ++ steps_of (stmt_shape stmt.now.kind stmt.now.span)) }
{
    match &stmt.kind {
        StmtKind::Block(items) => put_block(steps, items),
        StmtKind::If { test, yes, no } => {
            put_test(steps, test)?;
            put_nested(steps, yes)?;
            match no {
                Some(no) => put_nested(steps, no),
                None => Ok(()),
            }
        }
        StmtKind::While { test, body } => {
            put_test(steps, test)?;
            put_nested(steps, body)
        }
        StmtKind::DoWhile { body, test } => {
            put_nested(steps, body)?;
            put_test(steps, test)
        }
        StmtKind::For {
            init,
            test,
            step,
            body,
        } => {
            put_head(steps, *init, stmt.span, *test)?;
            put_third(steps, *step)?;
            put_steps(steps, body)?;
            put_close(steps)
        }
        StmtKind::Switch { value, body } => {
            put_value(steps, value)?;
            put_nested(steps, body)
        }
        StmtKind::Case { body, .. } => put_nested(steps, body),
        StmtKind::Otherwise { body } => put_nested(steps, body),
        StmtKind::Label { body, .. } => put_nested(steps, body),
        _ => put_leaf(steps, stmt),
    }
}

/// The steps of a statement in another, whose names end with it.
#[cycle(stepping)]
fn put_nested<'a>(steps: &mut Vec<Step<'a>>, stmt: &'a Stmt<'a>) -> Result<(), NoMemory>
    ensures { OnOk result (map step_shape steps.new.items ≡ map step_shape steps.old.items
        ++ nested (steps_of (stmt_shape stmt.now.kind stmt.now.span))) }
{
    put_open(steps)?;
    put_steps(steps, stmt)?;
    put_close(steps)
}

/// The steps of a block, whose names end with it.
#[cycle(stepping)]
fn put_block<'a>(steps: &mut Vec<Step<'a>>, items: &'a [Stmt<'a>]) -> Result<(), NoMemory>
    ensures { OnOk result (map step_shape steps.new.items ≡ map step_shape steps.old.items ++ nested (steps_of_all (stmt_shapes items.now))) }
{
    put_open(steps)?;
    put_all(steps, items)?;
    put_close(steps)
}

/// The steps of statements one behind the other.
#[cycle(stepping)]
fn put_all<'a>(steps: &mut Vec<Step<'a>>, items: &'a [Stmt<'a>]) -> Result<(), NoMemory>
    ensures { OnOk result (map step_shape steps.new.items ≡ map step_shape steps.old.items ++ steps_of_all (stmt_shapes items.now)) }
{
    'each: for stmt in items {
        put_steps(steps, stmt)?;
    }
    Ok(())
}

/// The steps of a body, whose end stands at the brace that closes it.
pub fn body_steps<'a>(
    alloc: Global,
    body: &'a [Stmt<'a>],
    close: Span,
) -> Result<Vec<Step<'a>>, NoMemory>
    ensures { IfOk result (λ steps. map step_shape steps.items ≡ steps_of_body (stmt_shapes body.now) close) }
{
    let mut steps = Vec::with_capacity(alloc, body.len().saturating_add(3))?;
    put_block(&mut steps, body)?;
    put_point(&mut steps, Action::End, close)?;
    Ok(steps)
}
