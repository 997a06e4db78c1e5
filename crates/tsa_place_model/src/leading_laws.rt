//! The law of where globals, members and elements lead.
ghost use Rattle.tsa_place_model.specs.Leading.{PlacesAreLedTo, WhatIsLedToBears, MembersHavePlaces, ElementsHavePlaces, OneWay, TextsTell};
ghost use Rattle.tsa_place_model.specs.Leading.{PlacedUnitsAreLaid};

/// Each place of a unit is led to by the global or the member that declares it, and by one way from one global; what is led to bears what
/// leads there; members and elements that are declared have places of the unit, so that the end of the list never cuts them off; and the
/// text of a place of a typed unit tells which one it is. All this holds of any unit, however many places it has; one that keeps within
/// the limit is laid out in those same places.
pub fn places_have_one_way_and_text()
    ensures led { PlacesAreLedTo }
    ensures bears { WhatIsLedToBears }
    ensures members { MembersHavePlaces }
    ensures elements { ElementsHavePlaces }
    ensures one { OneWay }
    ensures texts { TextsTell }
    ensures placed { PlacedUnitsAreLaid }
{}
