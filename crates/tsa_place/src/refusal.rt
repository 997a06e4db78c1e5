//! Why a unit has no places.

use tsa_base::{NoMemory, Span};

/// Why a unit has no places: there would be more than it may have, from the declarator at a span on, or memory is wanted.
#[derive(Clone, Copy, Debug, PartialEq, Eq)]
pub enum PlaceRefusal {
    TooMany { span: Span },
    NoMemory,
}

impl From<NoMemory> for PlaceRefusal {
    ghost use Rattle.tsa_place.specs.declared.refusal.PlaceRefusal.TheVariants.{NoMemory};
    ghost use Rattle.std.specs.Prelude.{◌≡◌};

    ghost from_gives = { λ _ e. e ≡ NoMemory };

    fn from(_: NoMemory) -> PlaceRefusal {
        PlaceRefusal::NoMemory
    }
}
