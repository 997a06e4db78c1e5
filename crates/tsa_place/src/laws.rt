//! Laws of places.
ghost use Rattle.tsa_place.specs.Examples.{PlacesAreListed};

/// Units have the places, the guards and the values that stand beside them.
#[tactic(auto, using(crate::proofs::Examples::places_are_listed))]
pub fn places_are_as_written()
    ensures { PlacesAreListed }
{}
