//! The function that a point calls, and the locks that it names (C11 6.5.2.2).
ghost use Rattle.std.specs.Prelude.{◌≡◌, [], option_map, unwrap_or};
ghost use Rattle.tsa_core.specs.Bodies.{knows};
ghost use Rattle.tsa_profile_points.specs.Ways.{called_at};
ghost use Rattle.tsa_rules_points.specs.Points.{called_attributes};
ghost use Rattle.tsa_rules_points.specs.Visits.{around_at, known_at};
ghost use Rattle.tsa_profile_accesses.specs.Locks.{tries};
ghost use Rattle.tsa_tree.specs.statements.Shapes.{action_shape};

use crate::visit::Visit;
use tsa_profile_accesses::{NamedLock, NamedLocks};
use tsa_profile_points::{Spot, calling, function_called};
use tsa_tree::stmt::Action;
use tsa_types_scope::Scope;

/// The function that a point calls, by its number.
fn callee_at(scope: &Scope<'_>, action: &Action<'_>) -> Option<u32>
    ensures { result ≡ called_at (knows scope.now (action_shape action.now)) }
{
    function_called(scope, calling(action)?)
}

/// The locks that the functions name which are declared so far, of one that is called.
fn callee_locks(attributes: &[NamedLocks], callee: Option<u32>) -> Option<&NamedLocks>
    ensures { unwrap_or (option_map (λ locks. locks.now) result) [] ≡ called_attributes attributes.now callee }
{
    attributes.get(callee? as usize)
}

impl<'w, 'a> Visit<'w, 'a> {
    /// A visit to a point.
    pub fn new(spot: Spot<'w, 'a>, action: &'w Action<'a>) -> Visit<'w, 'a>
        ensures spot { result.spot ≡ spot.entry }
        ensures action { result.action ≡ action.entry }
    {
        let callee = callee_at(spot.scope, action);
        Visit {
            spot,
            action,
            callee,
        }
    }

    /// The locks that the called function names.
    pub fn locks(self) -> &'w [NamedLock]
        ensures { result.now ≡ called_attributes (around_at self.entry).attributes (called_at (known_at self.entry)) }
    {
        match callee_locks(self.spot.around.attributes, self.callee) {
            Some(locks) => &locks.locks,
            None => &[],
        }
    }

    /// Whether the called function tries.
    pub fn tries(self) -> bool
        ensures { result ≡ tries (called_attributes (around_at self.entry).attributes (called_at (known_at self.entry))) }
    {
        match callee_locks(self.spot.around.attributes, self.callee) {
            Some(locks) => locks.tries(),
            None => false,
        }
    }
}
