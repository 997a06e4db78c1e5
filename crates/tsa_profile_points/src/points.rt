//! What the profile asks of what is done at the points of a body (C11 6.8), and which cells a point reads and writes.
ghost use Rattle.std.specs.Prelude.{◌≡◌, true, ◌++◌, Some, option_map, IfOk, OnOk};
ghost use Rattle.tsa_profile_declarations.specs.Declarations.{is_int as spec_is_int};
ghost use Rattle.tsa_profile_points.specs.Bodies.{begins_a_try as spec_begins_a_try, deed_premises};
ghost use Rattle.tsa_profile_points.specs.Bodies.{is_begun_by_a_try as spec_is_begun_by_a_try, is_no_truth as spec_is_no_truth, local_init};
ghost use Rattle.tsa_profile_points.specs.Bodies.{standing_of as spec_standing_of, value_misfits as spec_value_misfits, view_at};
ghost use Rattle.tsa_profile_points.specs.PointAnswers.{around_of, deed_accesses, init_accesses, left_accesses, value_accesses};
ghost use Rattle.tsa_profile_points.specs.Ways.{calling as spec_calling, init_value as spec_init_value};
ghost use Rattle.tsa_tree.specs.declarations.Shapes.{decl_shape, init_shape};
ghost use Rattle.tsa_tree.specs.expressions.Shapes.{shape};
ghost use Rattle.tsa_tree.specs.points.Syntax.{declares, returns};
ghost use Rattle.tsa_tree.specs.statements.Shapes.{action_shape};
ghost use Rattle.tsa_profile_accesses.specs.declared.standing.Standing.TheVariants.{Inside};
ghost use Rattle.tsa_profile_accesses.specs.Expressions.{expression};
ghost use Rattle.tsa_profile_accesses.specs.Premises.{first};

use crate::premises::{earlier, failure_if};
use tsa_base::{NoMemory, Span};
use tsa_place_layout::{Layout, declared_thing};
use tsa_place_paths::Sight;
use tsa_profile_accesses::{Body, Failure, Footprint, NamedLocks, ProfileCode, Standing, is_truth};
use tsa_profile_declarations::{init_failure, is_small, reads, writes};
use tsa_tree::decl::{Decl, Init};
use tsa_tree::expr::{BinaryOp, Expr};
use tsa_tree::kind::{Kind, ThingType};
use tsa_tree::number::Number;
use tsa_tree::stmt::{Action, Point};
use tsa_types_scope::Scope;

/// What the points of a body stand in: the layout of the unit, the locks that the functions name which are declared so far, by their
/// numbers, whether the function of the body tries, and which of its locals never change, by their numbers.
#[derive(Clone, Copy)]
pub struct Around<'w> {
    pub layout: &'w Layout<'w>,
    pub attributes: &'w [NamedLocks],
    pub tries: bool,
    pub stable: &'w [bool],
}

/// Where a point stands: what is around the body, and what is known there.
#[derive(Clone, Copy)]
pub struct Spot<'w, 'a> {
    pub around: Around<'w>,
    pub scope: &'w Scope<'a>,
}

/// Whether a kind is `int`.
fn is_int(kind: Kind) -> bool
    ensures { result ≡ spec_is_int kind }
{
    matches!(kind, Kind::Int)
}

/// Where the initialiser of a local stands.
fn standing_of(begins_a_try: bool) -> Standing
    ensures { result ≡ spec_standing_of begins_a_try }
{
    if begins_a_try {
        Standing::Begins
    } else {
        Standing::Whole
    }
}

/// Whether a value is no constant, or another number than 0 and 1.
fn is_no_truth(value: Option<Number>) -> bool
    ensures { result ≡ spec_is_no_truth value }
{
    match value {
        Some(number) => !is_truth(number),
        None => true,
    }
}

/// The expression whose call is made at a point, of an initialiser.
fn init_value<'t>(init: &'t Option<Init<'t>>) -> Option<&'t Expr<'t>>
    ensures { option_map (λ e. shape e.now) result ≡ spec_init_value (option_map init_shape init.now) }
{
    match init {
        Some(Init::Value(expr)) => Some(expr),
        _ => None,
    }
}

/// The expression whose call is made at a point.
pub fn calling<'t>(action: &Action<'t>) -> Option<&'t Expr<'t>>
    ensures { option_map (λ e. shape e.now) result ≡ spec_calling (action_shape action.now) }
{
    match action {
        Action::Declare(decl) => init_value(&decl.init),
        Action::Eval(expr) => Some(expr),
        Action::Assign { right, .. } => Some(right),
        Action::Test(given) => *given,
        Action::Return(given) => *given,
        _ => None,
    }
}

impl<'w, 'a> Spot<'w, 'a> {
    /// What an expression sees there: a thread works it out.
    pub fn body(self) -> Body<'w, 'a>
        ensures { result ≡ record {
          sight = record { scope = self.entry.scope; stable = self.entry.around.stable };
          layout =
              self.entry.around.layout;
          attributes = self.entry.around.attributes;
          is_run = true;
        } }
    {
        Body {
            sight: Sight {
                scope: self.scope,
                stable: self.around.stable,
            },
            layout: self.around.layout,
            attributes: self.around.attributes,
            is_run: true,
        }
    }

    /// Whether a local that is declared there may begin with what a try gives.
    fn begins_a_try(self, thing: ThingType) -> bool
        ensures { result ≡ spec_begins_a_try (around_of self.entry.around) self.entry.scope.now thing }
    {
        let local = self.scope.next_local() as usize;
        let is_stable = self.around.stable.get(local).copied().unwrap_or(false);
        is_int(thing.kind) && thing.length.is_none() && is_stable
    }

    /// Adds the cells that are read for the value of an expression, and tells the first premise that fails in it.
    fn value(
        self,
        found: &mut Footprint,
        standing: Standing,
        expr: &Expr<'_>,
    ) -> Result<Option<Failure>, NoMemory>
        ensures cells { OnOk result (found.new ≡ found.old ++ value_accesses (around_of self.entry.around) self.entry.scope.now
            (shape expr.now)) }
        ensures failure { IfOk result (λ failure. failure
            ≡ first (expression (view_at (around_of self.entry.around) self.entry.scope.now) standing (shape expr.now))) }
    {
        reads(self.body(), found, standing, expr)
    }

    /// The same for what an assignment reads and writes for its left side.
    fn left_side(
        self,
        found: &mut Footprint,
        op: Option<BinaryOp>,
        left: &Expr<'_>,
    ) -> Result<Option<Failure>, NoMemory>
        ensures cells { OnOk result (found.new ≡ found.old ++ left_accesses (around_of self.entry.around) self.entry.scope.now op
            (shape left.now)) }
        ensures failure { IfOk result (λ failure. failure
            ≡ first (expression (view_at (around_of self.entry.around) self.entry.scope.now) Inside (shape left.now))) }
    {
        writes(self.body(), found, op, left)
    }

    /// The same for the initialiser of a local of a type.
    #[tactic(auto, using(crate::proofs::Firsts::firsts))]
    fn initial(
        self,
        found: &mut Footprint,
        thing: ThingType,
        init: &Option<Init<'_>>,
    ) -> Result<Option<Failure>, NoMemory>
        ensures cells { OnOk result (found.new ≡ found.old ++ init_accesses (around_of self.entry.around) self.entry.scope.now
            (option_map init_shape init.now)) }
        ensures failure { IfOk result (λ failure. failure
            ≡ first (local_init (around_of self.entry.around) self.entry.scope.now thing (option_map init_shape init.now))) }
    {
        let Some(init) = init else {
            return Ok(None);
        };
        match init {
            Init::Value(expr) => {
                let standing = standing_of(self.begins_a_try(thing));
                self.value(found, standing, expr)
            }
            Init::List { .. } => init_failure(self.body(), init),
        }
    }

    /// The same for a declaration: a local is a number or a pointer.
    #[tactic(auto, using(crate::proofs::Firsts::firsts))]
    fn declaration(
        self,
        found: &mut Footprint,
        span: Span,
        decl: &Decl<'_>,
    ) -> Result<Option<Failure>, NoMemory>
        ensures cells { OnOk result (found.new ≡ found.old ++ deed_accesses (around_of self.entry.around) self.entry.scope.now
            (declares (decl_shape decl.now))) }
        ensures failure { IfOk result (λ failure. failure
            ≡ first (deed_premises (around_of self.entry.around) self.entry.scope.now span (declares (decl_shape decl.now)))) }
    {
        let thing = declared_thing(self.scope, &decl.ctype)?;
        let is_large = failure_if(!is_small(thing), ProfileCode::PF4, decl.span);
        let initial = self.initial(found, thing, &decl.init)?;
        Ok(earlier(is_large, initial))
    }

    /// Whether what a function gives back that tries may be neither 0 nor 1.
    fn value_misfits(self, expr: &Expr<'_>) -> Result<bool, NoMemory>
        ensures { IfOk result (λ misfits. misfits ≡ spec_value_misfits (around_of self.entry.around) self.entry.scope.now (shape expr.now)) }
    {
        if self.around.tries {
            Ok(is_no_truth(self.body().sight.value_at(expr)?))
        } else {
            Ok(false)
        }
    }

    /// The same for what a function gives back.
    #[tactic(auto, using(crate::proofs::Firsts::firsts))]
    fn given_back(
        self,
        found: &mut Footprint,
        span: Span,
        expr: &Expr<'_>,
    ) -> Result<Option<Failure>, NoMemory>
        ensures cells { OnOk result (found.new ≡ found.old ++ deed_accesses (around_of self.entry.around) self.entry.scope.now
            (returns (Some (shape expr.now)))) }
        ensures failure { IfOk result (λ failure. failure
            ≡ first (deed_premises (around_of self.entry.around) self.entry.scope.now span (returns (Some (shape expr.now))))) }
    {
        let misfit = failure_if(self.value_misfits(expr)?, ProfileCode::PF7, span);
        let value = self.value(found, Standing::Whole, expr)?;
        Ok(earlier(misfit, value))
    }

    /// Adds the cells that a point reads and writes, and tells the first premise that fails there.
    #[tactic(auto, using(crate::proofs::Firsts::firsts))]
    pub fn deed_failure(
        self,
        found: &mut Footprint,
        point: &Point<'_>,
    ) -> Result<Option<Failure>, NoMemory>
        ensures cells { OnOk result (found.new ≡ found.old ++ deed_accesses (around_of self.entry.around) self.entry.scope.now
            (action_shape point.now.action)) }
        ensures failure { IfOk result (λ failure. failure
            ≡ first (deed_premises (around_of self.entry.around) self.entry.scope.now point.now.span (action_shape point.now.action))) }
    {
        match &point.action {
            Action::Declare(decl) => self.declaration(found, point.span, decl),
            Action::Eval(expr) => self.value(found, Standing::Whole, expr),
            Action::Assign { left, op, right } => {
                let left = self.left_side(found, *op, left)?;
                let right = self.value(found, Standing::Whole, right)?;
                Ok(earlier(left, right))
            }
            Action::Test(Some(expr)) => self.value(found, Standing::Test, expr),
            Action::Switch(expr) => self.value(found, Standing::Inside, expr),
            Action::Return(Some(expr)) => self.given_back(found, point.span, expr),
            Action::Test(None) | Action::Return(None) => Ok(None),
            Action::Jump | Action::Idle | Action::End => Ok(None),
        }
    }

    /// Whether what is declared at a point is a local that begins with what a try gives.
    pub fn is_begun_by_a_try(self, action: &Action<'_>) -> bool
        ensures { result ≡ spec_is_begun_by_a_try (around_of self.entry.around) self.entry.scope.now (action_shape action.now) }
    {
        match action {
            Action::Declare(decl) => match &decl.init {
                Some(Init::Value(expr)) => self.body().is_try_call(expr),
                _ => false,
            },
            _ => false,
        }
    }
}
