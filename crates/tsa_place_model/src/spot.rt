//! Where paths lead (C11 6.5.2, 6.5.3.2).
ghost use Rattle.std.specs.Prelude.{◌≡◌};
ghost use Rattle.tsa_place_model.specs.Calls.{place_in};

use tsa_base::Value;

/// Where a path leads: to a place, or to a value that is held.
#[derive(Clone, Copy, Debug, PartialEq, Eq)]
pub enum Spot {
    Place(u32),
    Holds(Value),
}

impl Spot {
    /// The place, where it is one.
    pub fn place(self) -> Option<u32>
        ensures { result ≡ place_in self }
    {
        match self {
            Spot::Place(place) => Some(place),
            Spot::Holds(_) => None,
        }
    }
}
