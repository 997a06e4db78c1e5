//! Laws of what is still to come.
ghost use Rattle.tsa_lower_going.specs.Doing.{ActsTellWhatComes, FramesTellWhatComes};
ghost use Rattle.tsa_lower_going.specs.Examples.{ReadsComeInTurn};

/// The act of a point is what comes first there, and with the value of its read the same is still to come.
pub fn acts_tell_what_comes()
    ensures points { ActsTellWhatComes }
    ensures frames { FramesTellWhatComes }
{}

/// Statements read their cells in turn, and come to an act or to a trap.
#[tactic(auto, using(crate::proofs::Courses::reads_come_in_turn))]
pub fn reads_come_in_turn()
    ensures { ReadsComeInTurn }
{}
