//! A walk through a body from its end on, so that at each statement it is known what follows it (C11 6.8).
ghost use Rattle.std.specs.Prelude.{◌≡◌, ◌+◌, length, option_map, IfOk};
ghost use Rattle.tsa_base.specs.declared.token.Span.{Span as Place};
ghost use Rattle.tsa_graph_edges.specs.PointNumbers.{IsPartTo, IsNumberedTo, IsTestTo, AreNumberedTo};
ghost use Rattle.tsa_graph_edges.specs.Spots.{IsPut, ArePut};
ghost use Rattle.tsa_tree.specs.expressions.Shapes.{shape};
ghost use Rattle.tsa_tree.specs.expressions.Syntax.{Expression};
ghost use Rattle.tsa_tree.specs.points.Syntax.{points_of_init, points_of_step};
ghost use Rattle.tsa_tree.specs.statements.Shapes.{stmt_shape, stmt_shapes, init_given, step_given, counted};
ghost use Rattle.tsa_tree.specs.statements.Syntax.{if_alone, if_else, while_loop, do_loop, for_loop, switch, case};

use crate::forks::{ForHead, Fork};
use crate::numbers::{or_follow, step_points};
use crate::successors::Ahead;
use tsa_base::NoMemory;
use tsa_tree::expr::Expr;
use tsa_tree::stmt::{Stmt, StmtKind};
use tsa_types_scope::{Names, Scope};

/// Where a statement stands: what is known in its body, the labels there, the number behind its last point, the point that follows it, and
/// where a `break` and a `continue` in it lead.
#[derive(Clone, Copy)]
pub struct Spot<'t, 'a> {
    pub scope: &'t Scope<'a>,
    pub labels: &'t Names<'a, u32>,
    pub end: u32,
    pub follow: u32,
    pub break_to: u32,
    pub continue_to: u32,
}

/// Where a statement begins: the number of its first point, were there one, and the point that is reached first.
#[derive(Clone, Copy)]
pub struct Start {
    pub at: u32,
    pub first: u32,
}

/// The point and the test of a `while`.
#[derive(Clone, Copy)]
struct WhileHead<'t, 'a> {
    point: Option<u32>,
    test: &'t Expr<'a>,
}

impl<'t, 'a> Spot<'t, 'a> {
    /// An `if` without an `else`.
    #[cycle(putting)]
    fn put_if(
        self,
        ahead: &mut Ahead<'a>,
        test: &Expr<'a>,
        arm: &Stmt<'a>,
    ) -> Result<Start, NoMemory>
        requires { IsPartTo 1 arm.now 0 self.end }
        ensures { IfOk result (λ start. (span : Place)
            → IsPut self.entry (if_alone (shape test.now) (stmt_shape arm.now.kind arm.now.span) span) start ahead.old ahead.new) }
    {
        let inner = self.put(ahead, arm)?;
        let at = inner.at - 1;
        let yes_to = inner.first;
        let no_to = self.follow;
        self.put_test(ahead, test, Fork { at, yes_to, no_to })?;
        Ok(Start { at, first: at })
    }

    /// An `if` with an `else`.
    #[cycle(putting)]
    fn put_both(
        self,
        ahead: &mut Ahead<'a>,
        test: &Expr<'a>,
        arms: (&Stmt<'a>, &Stmt<'a>),
    ) -> Result<Start, NoMemory>
        requires yes { IsPartTo 1 arms.0.now (counted arms.1.now.kind arms.1.now.span) self.end }
        requires no { IsPartTo (1 + counted arms.0.now.kind arms.0.now.span) arms.1.now 0 self.end }
        ensures { IfOk result (λ start. (span : Place)
            → IsPut self.entry (if_else (shape test.now) (stmt_shape arms.entry.0.now.kind arms.entry.0.now.span)
            (stmt_shape arms.entry.1.now.kind arms.entry.1.now.span) span) start ahead.old ahead.new) }
    {
        let (yes, no) = arms;
        let other = self.put(ahead, no)?;
        let inner = self.ending(other.at).put(ahead, yes)?;
        let at = inner.at - 1;
        let yes_to = inner.first;
        let no_to = other.first;
        self.put_test(ahead, test, Fork { at, yes_to, no_to })?;
        Ok(Start { at, first: at })
    }

    /// A `while`, whose body goes on at its test.
    #[cycle(putting)]
    fn put_while(
        self,
        ahead: &mut Ahead<'a>,
        head: WhileHead<'_, 'a>,
        body: &Stmt<'a>,
    ) -> Result<Start, NoMemory>
        requires test { IsTestTo 0 head.point (counted body.now.kind body.now.span) self.end }
        requires body { IsNumberedTo body.now self.end }
        ensures { IfOk result (λ start. (span : Place)
            → IsPut self.entry (while_loop (shape head.entry.test.now) (stmt_shape body.now.kind body.now.span) span) start ahead.old
            ahead.new) }
    {
        let at = head.point.unwrap();
        let inner = self.in_loop(at).put(ahead, body)?;
        let yes_to = inner.first;
        let no_to = self.follow;
        self.put_test(ahead, head.test, Fork { at, yes_to, no_to })?;
        Ok(Start { at, first: at })
    }

    /// A `do`, whose test stands behind its body: the edges of the body are put in front of those of the test when both are known.
    #[cycle(putting)]
    fn put_do(
        self,
        ahead: &mut Ahead<'a>,
        body: &Stmt<'a>,
        test: &Expr<'a>,
    ) -> Result<Start, NoMemory>
        requires { IsPartTo 0 body.now 1 self.end }
        ensures { IfOk result (λ start. (span : Place)
            → IsPut self.entry (do_loop (stmt_shape body.now.kind body.now.span) (shape test.now) span) start ahead.old ahead.new) }
    {
        let at = self.end - 1;
        let mut links = Vec::new(self.scope.allocator());
        ahead.swap_links(&mut links);
        let inner = self.ending(at).in_loop(at).put(ahead, body)?;
        ahead.swap_links(&mut links);
        let yes_to = inner.first;
        let no_to = self.follow;
        self.put_test(ahead, test, Fork { at, yes_to, no_to })?;
        ahead.put_all(&links)?;
        let at = inner.at;
        Ok(Start { at, first: at })
    }

    /// A `for`, whose body goes on at its third part, or without one at its test.
    #[cycle(putting)]
    fn put_for(
        self,
        ahead: &mut Ahead<'a>,
        head: ForHead<'_, 'a>,
        body: &Stmt<'a>,
    ) -> Result<Start, NoMemory>
        requires test { IsTestTo (length (points_of_init (init_given head.init))) head.point
            (length (points_of_step (step_given head.step)) + counted body.now.kind body.now.span) self.end }
        requires body { IsNumberedTo body.now self.end }
        ensures { IfOk result (λ start. (span : Place)
            → IsPut self.entry (for_loop (init_given head.entry.init) (option_map (λ x. shape x.now) head.entry.test)
            (step_given head.entry.step) (stmt_shape body.now.kind body.now.span) span) start ahead.old ahead.new) }
    {
        let test_at = head.point.unwrap();
        let steps = step_points(head.step);
        let back = or_follow(steps, test_at + 1, test_at);
        let inner = self.in_loop(back).put(ahead, body)?;
        let yes_to = inner.first;
        let no_to = self.follow;
        let at = self.put_head(
            ahead,
            head,
            Fork {
                at: test_at,
                yes_to,
                no_to,
            },
        )?;
        Ok(Start { at, first: at })
    }

    /// A `switch`, whose cases are those of its body but for those of a switch inside.
    #[cycle(putting)]
    fn put_switch(self, ahead: &mut Ahead<'a>, body: &Stmt<'a>) -> Result<Start, NoMemory>
        requires { IsPartTo 1 body.now 0 self.end }
        ensures { IfOk result (λ start. (key : Expression) (span : Place)
            → IsPut self.entry (switch key (stmt_shape body.now.kind body.now.span) span) start ahead.old ahead.new) }
    {
        let mut cases = Vec::new(self.scope.allocator());
        ahead.swap_cases(&mut cases);
        let inner = self.in_switch().put(ahead, body)?;
        let at = inner.at - 1;
        ahead.put_switch(at, self.follow)?;
        ahead.swap_cases(&mut cases);
        Ok(Start { at, first: at })
    }

    /// A statement, in front of which nothing is known yet.
    #[cycle(putting)]
    fn put(self, ahead: &mut Ahead<'a>, stmt: &Stmt<'a>) -> Result<Start, NoMemory>
        requires { IsNumberedTo stmt.now self.end }
        ensures { IfOk result (λ start. IsPut self.entry (stmt_shape stmt.now.kind stmt.now.span) start ahead.old ahead.new) }
    {
        let point = stmt.point;
        match &stmt.kind {
            StmtKind::Block(items) => self.put_all(ahead, items),
            StmtKind::If { test, yes, no } => match no {
                Some(no) => self.put_both(ahead, test, (yes, no)),
                None => self.put_if(ahead, test, yes),
            },
            StmtKind::While { test, body } => self.put_while(
                ahead,
                WhileHead { point, test },
                body,
            ),
            StmtKind::DoWhile { body, test } => self.put_do(ahead, body, test),
            StmtKind::For {
                init,
                test,
                step,
                body,
            } => {
                let (init, test, step) = (*init, *test, *step);
                let head = ForHead {
                    point,
                    init,
                    test,
                    step,
                };
                self.put_for(ahead, head, body)
            }
            StmtKind::Switch { body, .. } => self.put_switch(ahead, body),
            StmtKind::Case { value, body } => {
                let inner = self.put(ahead, body)?;
                self.put_case(ahead, value, inner.first)?;
                Ok(inner)
            }
            StmtKind::Otherwise { body } => {
                let inner = self.put(ahead, body)?;
                ahead.put_case(None, inner.first)?;
                Ok(inner)
            }
            StmtKind::Label { name, body } => {
                let inner = self.put(ahead, body)?;
                ahead.put_label(name.text, inner.first)?;
                Ok(inner)
            }
            StmtKind::Empty => self.put_next(ahead, self.follow),
            StmtKind::Local(_) => self.put_next(ahead, self.follow),
            StmtKind::Eval(_) => self.put_next(ahead, self.follow),
            StmtKind::Assign { .. } => self.put_next(ahead, self.follow),
            StmtKind::Break => self.put_next(ahead, self.break_to),
            StmtKind::Continue => self.put_next(ahead, self.continue_to),
            StmtKind::Goto(name) => self.put_next(ahead, self.label(name.text)),
            StmtKind::Return(_) => Ok(self.one_point()),
        }
    }

    /// Statements one behind the other, from the last one on.
    #[cycle(putting)]
    pub fn put_all(self, ahead: &mut Ahead<'a>, items: &[Stmt<'a>]) -> Result<Start, NoMemory>
        requires { AreNumberedTo items.now self.end }
        ensures { IfOk result (λ start. ArePut self.entry (stmt_shapes items.now) start ahead.old ahead.new) }
    {
        let mut start = Start {
            at: self.end,
            first: self.follow,
        };
        let mut left = items.len();
        'each: while left > 0 {
            left -= 1;
            start = self.ahead_of(start).put(ahead, &items[left])?;
        }
        Ok(start)
    }
}
