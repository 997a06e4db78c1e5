//! Laws of the paths of functions.
ghost use Rattle.tsa_profile_points.specs.Laws.{CallsAreOfTheCore};

/// The function that is called at a point is the one that the core program calls there.
#[tactic(auto, using(crate::proofs::CoreCalls::calls_are_of_the_core))]
pub fn calls_are_of_the_core()
    ensures { CallsAreOfTheCore }
{}
