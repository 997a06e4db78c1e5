//! The laws of the calls of accepted units.
ghost use Rattle.tsa_sound_accepted.specs.called.Laws.{CallsHaveTheirFacts};

/// At each point of each function with a body of a unit that is typed and in the profile, what is called is as the laws of calls ask.
pub fn calls_have_their_facts()
    ensures { CallsHaveTheirFacts }
{}
