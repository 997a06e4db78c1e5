//! Statements that have no other in them (C11 6.8.3, 6.8.6).
ghost use Rattle.std.specs.Prelude.{◌≡◌, ◌++◌, IfOk, OnOk};
ghost use Rattle.tsa_tree.specs.statements.Shapes.{stmt_shape};
ghost use Rattle.tsa_tree.specs.types.Premises.{first};
ghost use Rattle.tsa_tree.specs.types.Statements.{leaf_premises};
ghost use Rattle.tsa_types_row.specs.BodyRows.{row_in_leaf};

use tsa_base::NoMemory;
use tsa_tree::premise::Failure;
use tsa_tree::stmt::{Stmt, StmtKind};
use tsa_types_expressions::{Mark, View, bare_node};
use tsa_types_row::{Op, Row};
use tsa_types_simple::{Around, given_value, return_failure, simple};

/// A statement that has no other in it. It is put into the row.
#[tactic(auto, using(tsa_types_simple::proofs::SimpleLaws::leaves, tsa_types_expressions::proofs::RowLaws::notes))]
pub fn leaf(
    view: View<'_, '_>,
    row: &mut Row,
    around: &Around<'_, '_>,
    stmt: &Stmt<'_>,
) -> Result<Option<Failure>, NoMemory>
    ensures judged { IfOk result (λ failure. failure
        ≡ first (leaf_premises around.now view.entry.scope.now (stmt_shape stmt.now.kind stmt.now.span))) }
    ensures nodes { OnOk result (row.new ≡ row.old
        ++ row_in_leaf view.entry.scope.now view.entry.function (stmt_shape stmt.now.kind stmt.now.span)) }
{
    match &stmt.kind {
        StmtKind::Empty => {
            row.leaf(bare_node(Mark::new(Op::Move, stmt.span)))?;
            Ok(None)
        }
        StmtKind::Break => {
            row.leaf(bare_node(Mark::new(Op::Move, stmt.span)))?;
            Ok(around.break_failure(stmt.span))
        }
        StmtKind::Continue => {
            row.leaf(bare_node(Mark::new(Op::Move, stmt.span)))?;
            Ok(around.continue_failure(stmt.span))
        }
        StmtKind::Goto(name) => {
            row.leaf(bare_node(Mark::new(Op::Move, stmt.span)))?;
            Ok(around.goto_failure(*name, stmt.span))
        }
        StmtKind::Return(value) => {
            let found = given_value(view, row, stmt.span, *value)?;
            Ok(return_failure(around.result, stmt.span, found))
        }
        _ => simple(view, row, stmt),
    }
}
