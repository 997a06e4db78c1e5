//! The laws of bodies and of the arguments of calls.
ghost use Rattle.tsa_sound_accepted.specs.entered.Laws.{ArgumentsLead, BodiesMayBeEntered, LayoutsAreSmall};

/// A unit that has no more places than it may have has at most 65,536, so that their number is an `int`.
pub fn layouts_are_small()
    ensures { LayoutsAreSmall }
{}

/// At each point that calls, of a function with a body of a unit that is typed and in the profile, each argument is what its path says: a
/// local, a constant, or a pointer to where the path leads.
pub fn arguments_lead_along_their_paths()
    ensures { ArgumentsLead }
{}

/// Each function with a body of such a unit may be called: its attributes name paths, which mention parameters alone, each path is claimed
/// once, no lock is given back in whatever mode, its locals and its result are numbers and pointers, and where it tries a lock each return
/// says whether it was taken.
pub fn bodies_may_be_entered()
    ensures { BodiesMayBeEntered }
{}
