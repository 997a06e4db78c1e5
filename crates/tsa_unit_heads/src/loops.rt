//! The point of a `for`, which it has without a test too.
ghost use Rattle.std.specs.Prelude.{◌≡◌, ◌++◌, ◌∷◌, [], length, map, option_map, Err, IfOk, OnOk, OnErr};
ghost use Rattle.tsa_tree.specs.points.Syntax.{point_of_for};
ghost use Rattle.tsa_tree.specs.expressions.Shapes.{shape};
ghost use Rattle.tsa_tree.specs.tokens.Signs.{span_at};
ghost use Rattle.tsa_tree.specs.statements.Shapes.{point_shape};
ghost use Rattle.tsa_expr.specs.Source.{input};

use crate::text::TextReader;
use tsa_base::Span;
use tsa_expr::SyntaxRefusal;
use tsa_tree::expr::Expr;
use tsa_tree::stmt::{Action, Point};
use tsa_unit_simple::mark;

impl<'a, 't> TextReader<'a, 't> {
    /// The point of a `for`: that of its test, or of the constant 1 at its word, of three bytes (C11 6.8.5.3p2).
    #[tactic(auto, using(tsa_unit_simple::proofs::MarkLaws::loops))]
    pub fn mark_loop(
        self,
        start: u32,
        test: Option<&'a Expr<'a>>,
        points: &mut Vec<Point<'a>>,
    ) -> Result<u32, SyntaxRefusal>
        ensures number { IfOk result (λ number. number ≡ length points.old.items) }
        ensures pointed { OnOk result (map point_shape points.new.items ≡ map point_shape points.old.items
            ++ point_of_for (span_at (input self.entry.reader) start) (option_map (λ x. shape x.now) test.entry) ∷ []) }
        ensures memory { OnErr result (result ≡ Err SyntaxRefusal.NoMemory) }
    {
        let Some(tree) = test else {
            let from = self.begin(start);
            let span = Span { from, to: from + 3 };
            return mark(points, Action::Test(None), span);
        };
        mark(points, Action::Test(Some(tree)), tree.span)
    }
}
