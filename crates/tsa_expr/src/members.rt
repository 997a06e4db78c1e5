//! Members after `.` and `->`.
ghost use Rattle.std.specs.Prelude.{◌≡◌, ◌+◌, ◌≤◌, ◌<◌, length, Some, IfOk};
ghost use Rattle.tsa_tree.specs.Reads.{read_behind};
ghost use Rattle.tsa_tree.specs.expressions.Shapes.{shape};
ghost use Rattle.tsa_tree.specs.tokens.Signs.{sign_at, access};
ghost use Rattle.tsa_expr.specs.Gives.{Leads};
ghost use Rattle.tsa_expr.specs.Readings.{seen};

use crate::reading::Reading;
use crate::refusal::{SyntaxCode, SyntaxRefusal, refuse};
use crate::source::Reader;
use tsa_base::NESTING_LIMIT;
use tsa_tree::expr::{Expr, ExprKind};
use tsa_tree::sign::Sign;

impl<'a, 't> Reader<'a, 't> {
    ghost use Rattle.tsa_expr.specs.Source.{input, named};

    /// A member's name after an operand and its `.` or `->`.
    #[tactic(auto, using(crate::proofs::Accesses::members))]
    pub fn member(
        self,
        depth: u32,
        base: Reading<'a>,
        arrow: bool,
    ) -> Result<Reading<'a>, SyntaxRefusal>
        requires there { access (sign_at (input self) (named self) base.next) ≡ Some arrow }
        ensures leads { Leads seen result
            (read_behind (input self.entry) (named self.entry) depth base.entry.start (shape base.entry.tree) base.entry.next)
            (λ x n. read_behind (input self.entry) (named self.entry) depth base.entry.start x n) }
        ensures begins { IfOk result (λ r. r.start ≡ base.entry.start) }
        ensures ahead { IfOk result (λ r. r.ahead ≡ sign_at (input self.entry) (named self.entry) r.next) }
        ensures goes { IfOk result (λ r. (base.entry.next < r.next) × (r.next ≤ length self.entry.tokens.now)) }
    {
        if base.height >= NESTING_LIMIT {
            return Err(refuse(SyntaxCode::LM2, base.next));
        }
        let Sign::Name = self.sign(base.next + 1) else {
            return Err(refuse(SyntaxCode::SY1, base.next + 1));
        };
        let name = self.name(base.next + 1)?;
        let next = base.next + 1 + 1;
        let span = self.over(base.start, next);
        let height = base.height + 1;
        let start = base.start;
        let base = self.keep(base.tree)?;
        let kind = ExprKind::Field { base, name, arrow };
        Ok(Reading {
            tree: Expr { kind, span },
            height,
            start,
            next,
            ahead: self.sign(next),
        })
    }
}
