//! What a statement puts in front besides the statements in it: the edges of points and tests, and cases (C11 6.8).
ghost use Rattle.std.specs.Prelude.{◌≡◌, ◌+◌, ◌<◌, ◌≤◌, ◌∷◌, [], length, option_map, IfOk, OnOk};
ghost use Rattle.tsa_core.specs.Control.{edge, label_at, a_case, test_edges, tested_edges, for_edges, step_edges, Next};
ghost use Rattle.tsa_graph_edges.specs.Successors.{with_edges, with_cases};
ghost use Rattle.tsa_graph_edges.specs.Spots.{targets_at};
ghost use Rattle.tsa_tree.specs.expressions.Shapes.{shape};
ghost use Rattle.tsa_tree.specs.points.Syntax.{points_of_init, points_of_step};
ghost use Rattle.tsa_tree.specs.statements.Shapes.{init_given, step_given};
ghost use Rattle.tsa_tree.specs.types.DeclaredTypes.{value_in};
ghost use Rattle.tsa_tree.specs.types.Scopes.{context_of};

use crate::link::Outcome;
use crate::numbers::{init_points, int_of, step_points};
use crate::successors::Ahead;
use crate::walk::{Spot, Start};
use tsa_base::NoMemory;
use tsa_tree::expr::Expr;
use tsa_tree::number::Number;
use tsa_tree::stmt::Stmt;
use tsa_types_expressions::View;

/// A test: its point, and where it leads.
#[derive(Clone, Copy)]
pub struct Fork {
    pub at: u32,
    pub yes_to: u32,
    pub no_to: u32,
}

/// The test's point and the parts of a `for`, each of which may be left out.
#[derive(Clone, Copy)]
pub struct ForHead<'t, 'a> {
    pub point: Option<u32>,
    pub init: Option<&'t Stmt<'a>>,
    pub test: Option<&'t Expr<'a>>,
    pub step: Option<&'t Stmt<'a>>,
}

/// Puts the edge of a part of a `for`, where it is a point, in front.
fn put_part(ahead: &mut Ahead<'_>, points: u32, at: u32, to: u32) -> Result<(), NoMemory>
    ensures { OnOk result (ahead.new ≡ with_edges (step_edges points at to) ahead.old) }
{
    if points == 0 {
        return Ok(());
    }
    ahead.put(at, Outcome::Next, to)
}

/// Puts the edges of a test of a value in front; one that is a constant has only its own outcome.
fn put_fork(ahead: &mut Ahead<'_>, value: Option<Number>, fork: Fork) -> Result<(), NoMemory>
    ensures { OnOk result (ahead.new ≡ with_edges (test_edges value fork.at fork.yes_to fork.no_to) ahead.old) }
{
    match value {
        None => {
            ahead.put(fork.at, Outcome::No, fork.no_to)?;
            ahead.put(fork.at, Outcome::Yes, fork.yes_to)
        }
        Some(number) => {
            if number.is_nonzero() {
                ahead.put(fork.at, Outcome::Yes, fork.yes_to)
            } else {
                ahead.put(fork.at, Outcome::No, fork.no_to)
            }
        }
    }
}

impl<'t, 'a> Spot<'t, 'a> {
    /// The same before a statement that begins there.
    pub fn ahead_of(self, start: Start) -> Spot<'t, 'a>
        ensures { result ≡ record {
          scope = self.entry.scope;
          labels = self.entry.labels;
          end = start.at;
          follow = start.first;
          break_to =
              self.entry.break_to;
          continue_to = self.entry.continue_to;
        } }
    {
        Spot {
            end: start.at,
            follow: start.first,
            ..self
        }
    }

    /// The same before a point.
    pub fn ending(self, end: u32) -> Spot<'t, 'a>
        ensures { result ≡ record {
          scope = self.entry.scope;
          labels = self.entry.labels;
          end = end;
          follow = self.entry.follow;
          break_to =
              self.entry.break_to;
          continue_to = self.entry.continue_to;
        } }
    {
        Spot { end, ..self }
    }

    /// In a loop that goes on at a point, and ends here.
    pub fn in_loop(self, back: u32) -> Spot<'t, 'a>
        ensures { result ≡ record {
          scope = self.entry.scope;
          labels = self.entry.labels;
          end = self.entry.end;
          follow = back;
          break_to =
              self.entry.follow;
          continue_to = back;
        } }
    {
        Spot {
            follow: back,
            break_to: self.follow,
            continue_to: back,
            ..self
        }
    }

    /// In a switch that ends here.
    pub fn in_switch(self) -> Spot<'t, 'a>
        ensures { result ≡ record {
          scope = self.entry.scope;
          labels = self.entry.labels;
          end = self.entry.end;
          follow = self.entry.follow;
          break_to = self.entry.follow;
          continue_to = self.entry.continue_to;
        } }
    {
        Spot {
            break_to: self.follow,
            ..self
        }
    }

    /// What an expression is worth, where it is a constant.
    pub fn value(self, expr: &Expr<'_>) -> Result<Option<Number>, NoMemory>
        ensures { IfOk result (λ value. value ≡ value_in (context_of self.entry.scope.now) (shape expr.now)) }
    {
        let view = View {
            scope: self.scope,
            function: 0,
        };
        view.value(expr)
    }

    /// The point of a label, or what follows.
    pub fn label(self, name: &[u8]) -> u32
        ensures { result ≡ label_at (targets_at self.entry) name.now self.entry.follow }
    {
        self.labels.get(name).unwrap_or(self.follow)
    }

    /// The only point of a statement.
    pub fn one_point(self) -> Start
        requires { 0 < self.end }
        ensures at { result.at + 1 ≡ self.entry.end }
        ensures first { result.first ≡ result.at }
    {
        let at = self.end - 1;
        Start { at, first: at }
    }

    /// A statement of one point that leads to a point.
    pub fn put_next(self, ahead: &mut Ahead<'a>, to: u32) -> Result<Start, NoMemory>
        requires { 0 < self.end }
        ensures at { IfOk result (λ start. start.at + 1 ≡ self.entry.end) }
        ensures first { IfOk result (λ start. start.first ≡ start.at) }
        ensures put { IfOk result (λ start. ahead.new ≡ with_edges (edge start.at Next to ∷ []) ahead.old) }
    {
        let start = self.one_point();
        ahead.put(start.at, Outcome::Next, to)?;
        Ok(start)
    }

    /// Puts the edges of a test in front.
    pub fn put_test(
        self,
        ahead: &mut Ahead<'a>,
        test: &Expr<'_>,
        fork: Fork,
    ) -> Result<(), NoMemory>
        ensures { OnOk result (ahead.new ≡ with_edges (tested_edges self.entry.scope.now (shape test.now) fork.at fork.yes_to fork.no_to)
            ahead.old) }
    {
        put_fork(ahead, self.value(test)?, fork)
    }

    /// Puts the edges of the test of a `for` in front: an absent one is 1 (C11 6.8.5.3p2).
    pub fn put_for_test(
        self,
        ahead: &mut Ahead<'a>,
        test: Option<&Expr<'_>>,
        fork: Fork,
    ) -> Result<(), NoMemory>
        ensures { OnOk result (ahead.new ≡ with_edges
            (for_edges self.entry.scope.now (option_map (λ x. shape x.now) test.entry) fork.at fork.yes_to fork.no_to) ahead.old) }
    {
        match test {
            Some(test) => self.put_test(ahead, test, fork),
            None => ahead.put(fork.at, Outcome::Yes, fork.yes_to),
        }
    }

    /// Puts a case in front; one without a value is none.
    pub fn put_case(
        self,
        ahead: &mut Ahead<'a>,
        value: &Expr<'_>,
        first: u32,
    ) -> Result<(), NoMemory>
        ensures { OnOk result (ahead.new ≡ with_cases (a_case (value_in (context_of self.entry.scope.now) (shape value.now)) first)
            ahead.old) }
    {
        match self.value(value)? {
            Some(number) => ahead.put_case(Some(int_of(number)), first),
            None => Ok(()),
        }
    }

    /// Puts the parts of a `for` before its body in front, where that begins there: where the `for` begins.
    pub fn put_head(
        self,
        ahead: &mut Ahead<'a>,
        head: ForHead<'_, 'a>,
        fork: Fork,
    ) -> Result<u32, NoMemory>
        requires init { length (points_of_init (init_given head.init)) ≤ fork.at }
        requires test { fork.at < self.end }
        ensures at { IfOk result (λ at. at + length (points_of_init (init_given head.entry.init)) ≡ fork.at) }
        ensures put { IfOk result (λ at. ahead.new
            ≡ with_edges (step_edges (length (points_of_init (init_given head.entry.init))) at fork.at)
            (with_edges (for_edges self.entry.scope.now (option_map (λ x. shape x.now) head.entry.test) fork.at fork.yes_to fork.no_to)
            (with_edges (step_edges (length (points_of_step (step_given head.entry.step))) (fork.at + 1) fork.at) ahead.old))) }
    {
        let test_at = fork.at;
        put_part(ahead, step_points(head.step), test_at + 1, test_at)?;
        self.put_for_test(ahead, head.test, fork)?;
        let points = init_points(head.init);
        let at = test_at - points;
        put_part(ahead, points, at, test_at)?;
        Ok(at)
    }
}
