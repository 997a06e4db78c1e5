//! What a point of a body does for the rules.
ghost use Rattle.std.specs.Prelude.{◌≡◌};
ghost use Rattle.tsa_core.specs.Bodies.{point_by, zero_term};
ghost use Rattle.tsa_tree.specs.statements.Shapes.{action_shape};
ghost use Rattle.tsa_rules.specs.Conditions.{answer_of};
ghost use Rattle.tsa_rules_roles.specs.Duties.{Tells};

use crate::answers::{Told, answer_told, test_told};
use tsa_tree::kind::Kind;
use tsa_tree::stmt::Action;
use tsa_types_scope::Scope;

/// What a point does for the rules.
#[derive(Clone, Copy)]
pub enum Duty {
    /// It begins the local of a number.
    Declares(u32),
    /// It tests what a call or a local gives.
    Tests(Told),
    /// It returns, or is the end, with an answer of a try where that is a constant 0 or 1.
    Leaves(Option<bool>),
    /// None of these.
    Passes,
}

/// The answer that zero is, or null, which a body gives that gives nothing back.
fn zero_told(kind: Kind) -> Option<bool>
    ensures { result ≡ answer_of (zero_term kind) }
{
    match kind {
        Kind::Int | Kind::Unsigned => Some(false),
        _ => None,
    }
}

/// What a point does for the rules, in a function whose result has a kind; a test that is absent does nothing for them.
#[tactic(auto, using(crate::proofs::Duties::duties))]
pub fn duty_at(scope: &Scope<'_>, kind: Kind, action: &Action<'_>) -> Duty
    ensures { Tells result (point_by scope.now kind (action_shape action.now)).action }
{
    match action {
        Action::Declare(_) => Duty::Declares(scope.next_local()),
        Action::Test(Some(expr)) => match test_told(scope, expr) {
            Some(told) => Duty::Tests(told),
            None => Duty::Passes,
        },
        Action::Return(Some(expr)) => Duty::Leaves(answer_told(scope, kind, expr)),
        Action::Return(None) | Action::End => Duty::Leaves(zero_told(kind)),
        _ => Duty::Passes,
    }
}
