//! The law of turns of frames.
ghost use Rattle.tsa_exec_frames.specs.Examples.{TurnsAreAsWritten};

/// Turns of frames at single statements are as they are written out, whatever code stands for the unit.
#[tactic(auto, using(crate::proofs::TurnExamples::as_written))]
pub fn frame_turns_are_as_written()
    ensures { TurnsAreAsWritten }
{}
