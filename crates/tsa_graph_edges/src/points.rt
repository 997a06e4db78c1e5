//! The statements of a body with their points.
ghost use Rattle.std.specs.Prelude.{◌≡◌, ◌+◌};
ghost use Rattle.tsa_core.specs.Control.{count_all};
ghost use Rattle.tsa_graph_edges.specs.OneNumbering.{are_numbered_one};
ghost use Rattle.tsa_tree.specs.statements.Shapes.{stmt_shapes, AreNumbered};

use tsa_tree::stmt::Stmt;

/// The statements of a body, which bear the numbers of their points, and how many points the body has with its end.
#[derive(Clone, Copy)]
pub struct BodyPoints<'t, 'a> {
    pub statements: &'t [Stmt<'a>],
    pub points: u32,
    pub ghost numbered: { AreNumbered statements.now 0 } by { are_numbered_one statements.now 0 },
    pub ghost all: { points ≡ count_all (stmt_shapes statements.now) + 1 },
}
