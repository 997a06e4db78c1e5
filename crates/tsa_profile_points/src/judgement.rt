//! A whole body: the first premise that fails at its points, how many of its locals begin with a try, and the paths of its function.
ghost use Rattle.std.specs.Prelude.{◌≡◌, ◌+◌, ◌<◌, ◌^◌, [], ◌∷◌, filter, length, map, Some, if◌then◌else◌, IfOk, OnOk};
ghost use Rattle.tsa_profile_points.specs.Bodies.{Around as SpecAround, is_try_variable, points_premises};
ghost use Rattle.tsa_profile_points.specs.Gathering.{calls_ways, with_all, with_ways};
ghost use Rattle.tsa_profile_points.specs.Judging.{behind_points};
ghost use Rattle.tsa_profile_points.specs.PointAnswers.{around_of};
ghost use Rattle.tsa_profile_points.specs.Ways.{calling as spec_calling, function_paths, points_ways};
ghost use Rattle.tsa_core_points.specs.Points.{placed};
ghost use Rattle.tsa_core_points.specs.Steps.{step_shape};
ghost use Rattle.tsa_core_points.specs.Walks.{points_along, points_at, walk_behind};
ghost use Rattle.tsa_tree.specs.expressions.Shapes.{shape};
ghost use Rattle.tsa_tree.specs.statements.Shapes.{action_shape};
ghost use Rattle.tsa_profile_accesses.specs.Premises.{first};

use crate::calls::function_called;
use crate::paths::Gathered;
use crate::points::{Around, Spot, calling};
use crate::premises::earlier;
use std::alloc::Global;
use tsa_base::NoMemory;
use tsa_core_points::{Step, Walk};
use tsa_path::PathTable;
use tsa_profile_accesses::{Failure, NamedLock};
use tsa_tree::expr::Expr;
use tsa_tree::stmt::{Action, Point};
use tsa_types_scope::Scope;

/// What is found of the points of a body so far.
#[derive(Drop)]
pub struct Found {
    pub failure: Option<Failure>,
    pub tries: usize,
    pub gathered: Gathered,
}

/// What is found of a body: the first premise that fails at its points, how many of its locals begin with a try, and the paths of its
/// function, each once, unless there are more than a function may have.
#[derive(Drop)]
pub struct Judged {
    pub failure: Option<Failure>,
    pub tries: usize,
    pub paths: Option<PathTable>,
}

/// The paths of the attributes of a function, each once, unless there are more than a function may have: those of one without a body.
#[tactic(auto, using(crate::proofs::Functions::alone_are))]
pub fn attribute_paths(alloc: Global, own: &[NamedLock]) -> Result<Option<PathTable>, NoMemory>
    ensures { IfOk result (λ paths. (a : SpecAround) → paths ≡ function_paths a own.now []) }
{
    let mut gathered = Gathered::new(alloc);
    gathered.put_named(alloc, own)?;
    Ok(gathered.into_table())
}

/// One more, where something is so.
fn count(number: usize, is_one: bool) -> usize
    requires { number + 1 < 2 ^ 64 }
    ensures { result ≡ number + (if is_one then 1 else 0) }
{
    if is_one { number + 1 } else { number }
}

impl<'w, 'a> Spot<'w, 'a> {
    /// Adds the paths that the locks have here which the function of an expression's call names.
    #[tactic(auto, using(crate::proofs::Keeps::callee_keeps))]
    fn put_callee(self, gathered: &mut Gathered, expr: &Expr<'_>) -> Result<(), NoMemory>
        ensures { OnOk result (gathered.new
            ≡ with_all gathered.old (calls_ways (around_of self.entry.around) self.entry.scope.now (Some (shape expr.now)))) }
    {
        let Some(function) = function_called(self.scope, expr) else {
            return Ok(());
        };
        let Some(locks) = self.around.attributes.get(function as usize) else {
            return Ok(());
        };
        let ways = self.body().argument_paths(expr)?;
        gathered.put_called(self.scope.allocator(), &locks.locks, &ways)
    }

    /// The same of what is done at a point, which may call none.
    fn put_calls(self, gathered: &mut Gathered, action: &Action<'_>) -> Result<(), NoMemory>
        ensures { OnOk result (gathered.new
            ≡ with_all gathered.old (calls_ways (around_of self.entry.around) self.entry.scope.now
            (spec_calling (action_shape action.now)))) }
    {
        match calling(action) {
            Some(expr) => self.put_callee(gathered, expr),
            None => Ok(()),
        }
    }

    /// Adds the paths of what is used and called at a point, and tells the first premise that fails there.
    #[tactic(auto, using(crate::proofs::Keeps::point_keeps, crate::proofs::Firsts::point_fails))]
    fn put_point(
        self,
        gathered: &mut Gathered,
        point: &Point<'_>,
    ) -> Result<Option<Failure>, NoMemory>
        ensures paths { OnOk result (gathered.new
            ≡ with_ways gathered.old (points_ways (around_of self.entry.around)
            (placed self.entry.scope.now (action_shape point.now.action) point.now.span ∷ []))) }
        ensures failure { IfOk result (λ failure. failure
            ≡ first (points_premises (around_of self.entry.around)
            (placed self.entry.scope.now (action_shape point.now.action) point.now.span ∷ []))) }
    {
        let mut found = gathered.take_room();
        let failure = self.deed_failure(&mut found, point)?;
        gathered.put_footprint(found)?;
        self.put_calls(gathered, &point.action)?;
        Ok(failure)
    }

    /// Notes a point behind the others.
    fn note_point(self, found: &mut Found, point: &Point<'_>) -> Result<(), NoMemory>
        requires { found.old.tries + 1 < 2 ^ 64 }
        ensures { OnOk result (found.new ≡ behind_points (around_of self.entry.around) found.old
            (placed self.entry.scope.now (action_shape point.now.action) point.now.span ∷ [])) }
    {
        let failure = self.put_point(&mut found.gathered, point)?;
        found.failure = earlier(found.failure, failure);
        found.tries = count(found.tries, self.is_begun_by_a_try(&point.action));
        Ok(())
    }
}

impl<'w> Around<'w> {
    /// Notes a step behind the others, where some things are known.
    #[tactic(auto, using(crate::proofs::Judges::behind_none))]
    fn note_step(
        self,
        found: &mut Found,
        scope: &Scope<'_>,
        step: &Step<'_>,
    ) -> Result<(), NoMemory>
        requires { found.old.tries + 1 < 2 ^ 64 }
        ensures { OnOk result (found.new ≡ behind_points (around_of self.entry) found.old (points_at scope.now (step_shape step.now))) }
    {
        match step {
            Step::Point(point) => Spot {
                around: self,
                scope,
            }
            .note_point(found, point),
            Step::Open | Step::Close => Ok(()),
        }
    }

    /// Notes all steps of a walk.
    fn note_steps<'a>(
        self,
        found: &mut Found,
        walk: &mut Walk<'a>,
        steps: &[Step<'a>],
    ) -> Result<(), NoMemory>
        requires { found.old.tries + length steps.now < 2 ^ 64 }
        ensures found { OnOk result (found.new
            ≡ behind_points (around_of self.entry) found.old (points_along walk.old (map step_shape steps.now))) }
        ensures behind { OnOk result (walk.new ≡ walk_behind walk.old (map step_shape steps.now)) }
    {
        'each: for step in steps {
            self.note_step(found, walk.scope(), step)?;
            walk.pass(step)?;
        }
        Ok(())
    }

    /// Judges a body along its steps: the paths of its function are first those of the function's own attributes.
    pub fn judge<'a>(
        self,
        walk: &mut Walk<'a>,
        steps: &[Step<'a>],
        own: &[NamedLock],
    ) -> Result<Judged, NoMemory>
        ensures failure { IfOk result (λ judged. judged.failure
            ≡ first (points_premises (around_of self.entry) (points_along walk.old (map step_shape steps.now)))) }
        ensures tries { IfOk result (λ judged. judged.tries
            ≡ length (filter (is_try_variable (around_of self.entry)) (points_along walk.old (map step_shape steps.now)))) }
        ensures paths { IfOk result (λ judged. judged.paths
            ≡ function_paths (around_of self.entry) own.now (points_along walk.old (map step_shape steps.now))) }
        ensures behind { OnOk result (walk.new ≡ walk_behind walk.old (map step_shape steps.now)) }
    {
        let alloc = walk.scope().allocator();
        let mut gathered = Gathered::new(alloc);
        gathered.put_named(alloc, own)?;
        let mut found = Found {
            failure: None,
            tries: 0,
            gathered,
        };
        self.note_steps(&mut found, walk, steps)?;
        Ok(Judged {
            failure: found.failure,
            tries: found.tries,
            paths: found.gathered.into_table(),
        })
    }
}
