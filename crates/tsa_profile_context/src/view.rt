//! What is known of a function by its head, and what is seen outside of the points of bodies.
ghost use Rattle.std.specs.Prelude.{◌≡◌, false, IfOk};
ghost use Rattle.tsa_profile_context.specs.Judging.{unit_at};
ghost use Rattle.tsa_profile_context.specs.Units.{is_bodied, stable_of};
ghost use Rattle.tsa_tree.specs.declarations.Shapes.{head_shape};
ghost use Rattle.tsa_profile_accesses.specs.NodeAnswers.{view_of};
ghost use Rattle.tsa_place_model.specs.LockPaths.{stable_in};

use crate::context::Ground;
use tsa_base::NoMemory;
use tsa_place_paths::Sight;
use tsa_profile_accesses::{Body, NamedLocks};
use tsa_tree::item::FnTree;
use tsa_types_scope::Scope;

impl<'t, 'a> Ground<'t, 'a> {
    /// Whether a function has a body somewhere in the unit.
    pub fn has_body(&self, head: &FnTree<'_>) -> bool
        ensures { result ≡ is_bodied (unit_at self.now) (head_shape head.now) }
    {
        self.bodies.has_body(head.name.text)
    }

    /// Which locals of a function never change.
    pub fn stable(&self, head: &FnTree<'_>) -> Result<Vec<bool>, NoMemory>
        ensures { IfOk result (λ stable. stable_in stable.items ≡ stable_of (unit_at self.now) (head_shape head.now)) }
    {
        self.bodies.stable(head)
    }

    /// What is seen outside of the points of bodies, where some locals never change.
    pub fn view<'w>(
        &self,
        scope: &'w Scope<'a>,
        attributes: &'w [NamedLocks],
        stable: &'w [bool],
    ) -> Body<'w, 'a>
    where
        't: 'w,
        ensures { view_of result ≡ record {
          layout = (unit_at self.now).program.layout;
          attributes = attributes.now;
          here = scope.now;
          stable = stable_in stable.now;
          is_run = false;
        } }
    {
        Body {
            sight: Sight { scope, stable },
            layout: self.layout,
            attributes,
            is_run: false,
        }
    }
}
