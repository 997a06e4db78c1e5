//! Bodies that are entered.
ghost use Rattle.std.specs.Prelude.{◌≡◌, ◌+◌, length};
ghost use Rattle.tsa_core.specs.Control.{count_all};
ghost use Rattle.tsa_graph_edges.specs.OneNumbering.{are_numbered_one};
ghost use Rattle.tsa_tree.specs.statements.Shapes.{stmt_shapes, AreNumbered};

use tsa_core_environment::Outside;
use tsa_tree::item::FnTree;
use tsa_tree::stmt::Stmt;

/// A body that is entered: its function by number and head, its statements, which bear the numbers of its points, which of its locals never
/// change, and what is left behind it.
pub struct Inside<'a> {
    pub number: u32,
    pub head: &'a FnTree<'a>,
    pub body: &'a [Stmt<'a>],
    pub stable: Vec<bool>,
    pub(crate) outside: Outside,
    pub ghost numbered: { AreNumbered body.now 0 } by { are_numbered_one body.now 0 },
    pub ghost points: { length head.now.points.now ≡ count_all (stmt_shapes body.now) + 1 },
}

impl Drop for Inside<'_> {
    /// Lets its parts go, in one call for all who let one go.
    fn drop(self) {
        let Inside {
            number: _,
            head: _,
            body: _,
            stable: _,
            outside: _,
        } = self;
    }
}
