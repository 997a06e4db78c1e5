//! Laws of the lines of held locks.
ghost use Rattle.tsa_warn_text.specs.HeldLines.{MembersAreInOrder, MembersAreWhatSetsHave};

/// A line of held locks tells each status that its set has once, in the order of their numbers, and no other.
pub fn members_are_what_sets_have()
    ensures each { MembersAreWhatSetsHave }
    ensures ordered { MembersAreInOrder }
{}
