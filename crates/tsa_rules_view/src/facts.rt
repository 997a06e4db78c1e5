//! What walks bring to the points of a unit's functions.
ghost use Rattle.std.specs.Prelude.{◌≡◌, ◌<◌, ◌↔◌, ℕ, List, Some, length, option_map, slice_get, IsTrue};
ghost use Rattle.tsa_core.specs.Programs.{Function, program_of};
ghost use Rattle.tsa_rules_bodies.specs.Paths.{paths_if};
ghost use Rattle.tsa_rules.specs.Points.{points_of};
ghost use Rattle.tsa_rules.specs.Sets.{Has};
ghost use Rattle.tsa_rules.specs.declared.status.Status.{Status};
ghost use Rattle.tsa_rules.specs.Walks.{Agree, ReachAt, course_of};
ghost use Rattle.tsa_tree.specs.units.Shapes.{item_shapes};
ghost use Rattle.tsa_tree.specs.units.Syntax.{UnitItem};
ghost use Rattle.tsa_rules_view.specs.Views.{IsViewIn};
ghost use Rattle.tsa_place_model.specs.Ways.{Way};

use crate::content::RuleView;
use tsa_rules::Statuses;
use tsa_tree::item::UnitTree;

/// A unit with the views of its functions and with what walks bring to their points.
pub trait Facts<'a> {
    /// The items of the unit.
    ghost items: { Self → List UnitItem };

    /// What was worked out is what walks bring: whoever makes the facts says it of them, and each call below goes by it.
    ghost hold: { Self → Type 0 };

    /// The tree of the unit.
    fn unit(&self) -> &'a UnitTree<'a>
        ensures { item_shapes result.now.items.now ≡ items self.now };

    /// The view of a function by its number. None exactly where it has no table of paths, as without a body.
    fn view(&self, function: u32) -> Option<&RuleView<'a>>
        ensures { hold self.now → IsViewIn (program_of (items self.now)) (slice_get (program_of (items self.now)).functions function)
            (option_map (λ view. view.now) result) };

    /// The statuses of a path before a point of a function, by their numbers: all that some walk brings there.
    fn statuses(&self, function: u32, point: u32, cap: u32) -> Statuses
        ensures { hold self.now → (f : Function) (paths : List Way) (c : Way) → slice_get (program_of (items self.now)).functions function
            ≡ Some f → paths_if (program_of (items self.now)) f ≡ Some paths → point < length (points_of f) → slice_get paths cap ≡ Some c
            → (s : Status) → Has result s ↔ ReachAt (course_of (program_of (items self.now)) f c) point s };

    /// Whether all edges that are reached into the point bring the same statuses of the path.
    fn agree(&self, function: u32, point: u32, cap: u32) -> bool
        ensures { hold self.now → (f : Function) (paths : List Way) (c : Way) → slice_get (program_of (items self.now)).functions function
            ≡ Some f → paths_if (program_of (items self.now)) f ≡ Some paths → point < length (points_of f) → slice_get paths cap ≡ Some c
            → IsTrue result ↔ Agree (course_of (program_of (items self.now)) f c) point };
}
