//! Simple statements, and expressions that may be left out (C11 6.8.3).
ghost use Rattle.std.specs.Prelude.{◌≡◌, ◌++◌, IfOk, OnOk, option_map};
ghost use Rattle.tsa_tree.specs.expressions.Shapes.{shape};
ghost use Rattle.tsa_tree.specs.points.Syntax.{expression_span};
ghost use Rattle.tsa_tree.specs.statements.Shapes.{stmt_shape};
ghost use Rattle.tsa_tree.specs.types.Premises.{first};
ghost use Rattle.tsa_tree.specs.types.Scopes.{context_of};
ghost use Rattle.tsa_types_row.specs.BodyRows.{bare_node as spec_bare_node, marked_row, row_in_given_test, row_in_return};
ghost use Rattle.tsa_types_row.specs.ExpressionRows.{row_in};
ghost use Rattle.tsa_types_row.specs.Rows.{framed};
ghost use Rattle.tsa_types_expressions.specs.Found.{found_in};
ghost use Rattle.tsa_types_simple.specs.Leaves.{alone_premises, alone_nodes};

use crate::verdicts::{Target, assignment_failure};
use tsa_base::{NoMemory, Span};
use tsa_tree::expr::Expr;
use tsa_tree::premise::Failure;
use tsa_tree::stmt::{Stmt, StmtKind};
use tsa_types_expressions::{Found, Mark, View, bare_node};
use tsa_types_row::{Op, Row};

/// The two sides of an assignment.
#[derive(Clone, Copy)]
struct Sides<'t, 'a> {
    left: &'t Expr<'a>,
    right: &'t Expr<'a>,
}

/// The value that a `return` at a span gives, which may be left out: its point, and what the value is found to be.
#[tactic(auto, using(tsa_types_expressions::proofs::RowLaws::notes))]
pub fn given_value(
    view: View<'_, '_>,
    row: &mut Row,
    span: Span,
    expr: Option<&Expr<'_>>,
) -> Result<Option<Result<Found, Failure>>, NoMemory>
    ensures found { IfOk result (λ found. found ≡ option_map (λ x. found_in (context_of view.entry.scope.now) (shape x.now)) expr.entry) }
    ensures nodes { OnOk result (row.new ≡ row.old ++ row_in_return span view.entry.scope.now view.entry.function
        (option_map (λ x. shape x.now) expr.entry)) }
{
    match expr {
        Some(expr) => {
            let mark = Mark::new(Op::Give { given: true }, span);
            let found = view.marked(row, mark, expr)?;
            Ok(Some(found))
        }
        None => {
            row.leaf(bare_node(Mark::new(Op::Give { given: false }, span)))?;
            Ok(None)
        }
    }
}

/// A point that stands where its expression does.
#[tactic(auto, using(crate::proofs::RowSpans::points))]
pub fn point_at(
    view: View<'_, '_>,
    row: &mut Row,
    op: Op,
    expr: &Expr<'_>,
) -> Result<Result<Found, Failure>, NoMemory>
    ensures judged { IfOk result (λ found. found ≡ found_in (context_of view.entry.scope.now) (shape expr.now)) }
    ensures nodes { OnOk result (row.new ≡ row.old ++ marked_row op (expression_span (shape expr.now)) view.entry.scope.now
        view.entry.function (shape expr.now)) }
{
    let found = view.marked(row, Mark::new(op, expr.span), expr)?;
    Ok(found)
}

/// The test of a `for` at a span, which may be left out: its point, and what the test is found to be.
#[tactic(auto, using(tsa_types_expressions::proofs::RowLaws::notes))]
pub fn given_test(
    view: View<'_, '_>,
    row: &mut Row,
    span: Span,
    expr: Option<&Expr<'_>>,
) -> Result<Option<Result<Found, Failure>>, NoMemory>
    ensures found { IfOk result (λ found. found ≡ option_map (λ x. found_in (context_of view.entry.scope.now) (shape x.now)) expr.entry) }
    ensures nodes { OnOk result (row.new ≡ row.old ++ row_in_given_test span view.entry.scope.now view.entry.function
        (option_map (λ x. shape x.now) expr.entry)) }
{
    match expr {
        Some(expr) => {
            let found = point_at(view, row, Op::Test { given: true }, expr)?;
            Ok(Some(found))
        }
        None => {
            row.leaf(bare_node(Mark::new(Op::Test { given: false }, span)))?;
            Ok(None)
        }
    }
}

/// What the two sides of an assignment are found to be.
#[derive(Clone, Copy)]
struct SidesFound {
    left: Result<Found, Failure>,
    right: Result<Found, Failure>,
}

/// An assignment: what is set, and the right side.
#[tactic(auto, unfolding(tsa_types_row::specs::BodyRows::row_in_simple), using(tsa_types_expressions::proofs::RowLaws::notes))]
fn assignment(
    view: View<'_, '_>,
    row: &mut Row,
    mark: Mark,
    sides: Sides<'_, '_>,
) -> Result<SidesFound, NoMemory>
    ensures left { IfOk result (λ found. found.left ≡ found_in (context_of view.entry.scope.now) (shape sides.entry.left.now)) }
    ensures right { IfOk result (λ found. found.right ≡ found_in (context_of view.entry.scope.now) (shape sides.entry.right.now)) }
    ensures nodes { OnOk result (row.new ≡ row.old ++ framed (spec_bare_node mark.op mark.span)
        (row_in view.entry.scope.now view.entry.function (shape sides.entry.left.now)
        ++ row_in view.entry.scope.now view.entry.function (shape sides.entry.right.now))) }
{
    let place = row.open()?;
    let left = view.expression(row, sides.left)?;
    let right = view.expression(row, sides.right)?;
    row.close(place, bare_node(mark))?;
    Ok(SidesFound { left, right })
}

/// A simple statement: an expression or an assignment. Another one is nothing here.
#[tactic(auto, unfolding(tsa_types_row::specs::BodyRows::row_in_simple), using(crate::proofs::SimpleLaws::alones, tsa_types_expressions::proofs::RowLaws::notes))]
pub fn simple(
    view: View<'_, '_>,
    row: &mut Row,
    stmt: &Stmt<'_>,
) -> Result<Option<Failure>, NoMemory>
    ensures judged { IfOk result (λ failure. failure ≡ first (alone_premises view.entry.scope.now (stmt_shape stmt.now.kind stmt.now.span))) }
    ensures nodes { OnOk result (row.new ≡ row.old
        ++ alone_nodes view.entry.scope.now view.entry.function (stmt_shape stmt.now.kind stmt.now.span)) }
{
    match &stmt.kind {
        StmtKind::Eval(tree) => {
            let found = view.marked(row, Mark::new(Op::Evaluate, stmt.span), tree)?;
            Ok(found.err())
        }
        StmtKind::Assign { left, op, right } => {
            let mark = Mark::new(Op::Set(*op), stmt.span);
            let sides = Sides { left, right };
            let found = assignment(view, row, mark, sides)?;
            let target = Target {
                span: left.span,
                found: found.left,
            };
            Ok(assignment_failure(*op, stmt.span, target, found.right))
        }
        _ => Ok(None),
    }
}
