//! The law of places.
ghost use Rattle.tsa_sound_accepted.specs.laid.Laws.{PlacesAreLaidOut};

/// At the places of any unit, however many there are, stands what it declares, guarded as it declares: a member by what guards its object
/// and by its own guards, an element as its array. No guard speaks of a local.
pub fn places_are_laid_out()
    ensures { PlacesAreLaidOut }
{}
