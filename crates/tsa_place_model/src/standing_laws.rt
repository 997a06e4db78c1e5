//! Laws of layouts.
ghost use Rattle.tsa_place_model.specs.Standing.{MemberStands, ElementStands};

/// A member and an element stand among the places of a unit where they are told to.
pub fn places_stand_where_they_are_told()
    ensures members { MemberStands }
    ensures elements { ElementStands }
{}
