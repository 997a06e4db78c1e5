//! The laws of turns with locks.
ghost use Rattle.tsa_exec_locks.specs.Examples.{LockTurnsAreAsWritten};
ghost use Rattle.tsa_exec_locks.specs.Laws.{RoomLasts};

/// A machine that makes fewer turns than a count can say has room for each of them, from a table of free locks on.
#[tactic(auto, using(crate::proofs::Changes::room_lasts))]
pub fn room_lasts_for_turns()
    ensures { RoomLasts }
{}

/// Turns with single locks are as they are written out, whatever table stands for the locks.
#[tactic(auto, using(crate::proofs::TurnExamples::as_written))]
pub fn lock_turns_are_as_written()
    ensures { LockTurnsAreAsWritten }
{}
