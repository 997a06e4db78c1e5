//! Laws of accesses.
ghost use Rattle.tsa_profile_guards.specs.Laws.{ArgumentsAreThoseOfTheCore, ReadsAreThoseOfTheCore, WritesAreThoseOfTheCore};

/// What is read for the value of an expression is what the core program reads.
#[tactic(auto, using(crate::proofs::Spans::reads_are_those))]
pub fn reads_are_those_of_the_core()
    ensures { ReadsAreThoseOfTheCore }
{}

/// What a left side reads and writes is what the core program does there.
#[tactic(auto, using(crate::proofs::Spans::writes_are_those))]
pub fn writes_are_those_of_the_core()
    ensures { WritesAreThoseOfTheCore }
{}

/// The arguments of a call lead where they do in the core program.
#[tactic(auto, using(crate::proofs::Spans::arguments_are_those))]
pub fn arguments_are_those_of_the_core()
    ensures { ArgumentsAreThoseOfTheCore }
{}
