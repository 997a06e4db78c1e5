//! Units that are reported of.
ghost use Rattle.std.specs.Prelude.{◌≡◌, Ok};
ghost use Rattle.tsa_place_model.specs.Units.{placed_in};
ghost use Rattle.tsa_tree.specs.units.Shapes.{item_shapes};

use tsa_place::Places;
use tsa_warn_function::Fit;

/// A unit in the profile with its places.
pub struct Ready<'a> {
    pub fit: Fit<'a>,
    pub places: Places,
    pub ghost placed: { placed_in (item_shapes fit.typed.unit.now.items.now) ≡ Ok places },
}

impl Drop for Ready<'_> {
    /// Lets its parts go, in one call for all who let one go.
    fn drop(self) {
        let Ready { fit: _, places: _ } = self;
    }
}
