//! A point of a body that is visited, with the function that it calls.
ghost use Rattle.std.specs.Prelude.{◌≡◌};
ghost use Rattle.tsa_core.specs.Bodies.{knows};
ghost use Rattle.tsa_profile_points.specs.Ways.{called_at};
ghost use Rattle.tsa_tree.specs.statements.Shapes.{action_shape};

use tsa_profile_points::Spot;
use tsa_tree::stmt::Action;

/// Where a point stands, what is done there, and the number of the function that it calls.
#[derive(Clone, Copy)]
pub struct Visit<'w, 'a> {
    pub spot: Spot<'w, 'a>,
    pub action: &'w Action<'a>,
    pub callee: Option<u32>,
    pub ghost called: { callee ≡ called_at (knows spot.scope.now (action_shape action.now)) },
}
