//! The laws of locks.
ghost use Rattle.tsa_locks.specs.Examples.{TakingsAreAsWritten};
ghost use Rattle.tsa_locks.specs.Laws.{HoldsChange, LocksAreTakenWhereTheyCanBe};
ghost use Rattle.tsa_locks.specs.Sameness.{LocksAreTheirHolds};
ghost use Rattle.tsa_locks.specs.TableLocks.{TheTableIsTheLocks};
ghost use Rattle.tsa_locks.specs.TableStates.{TheTableIsTheState};

/// Whoever takes a lock holds it once more, and whoever gives it back once less; nobody else's holds change. Who is in the way holds the
/// lock.
#[tactic(auto, using(crate::proofs::Holding::holds_change))]
pub fn holds_change_as_taken_and_given()
    ensures { HoldsChange }
{}

/// A lock is taken exactly where nobody who holds it is in the way, and whoever holds it alone is the only one who does.
#[tactic(auto, using(crate::proofs::Takings::locks_are_taken_where_they_can_be))]
pub fn locks_are_taken_where_they_can_be()
    ensures { LocksAreTakenWhereTheyCanBe }
{}

/// Locks that each thread holds as often are one lock: they are taken and given back alike, and one that nobody shares is free.
#[tactic(auto, using(crate::proofs::SameLocks::locks_are_their_holds))]
pub fn locks_are_their_holds()
    ensures { LocksAreTheirHolds }
{}

/// Takings and givings of single locks are as they are written out.
#[tactic(auto, using(crate::proofs::LockExamples::as_written))]
pub fn takings_are_as_written()
    ensures { TakingsAreAsWritten }
{}

/// What the calls of a table do to a lock is what the machine does to it: who holds it, in which mode and how often, and who is in the way.
#[tactic(auto, using(crate::proofs::TableLocks::the_table_is_the_locks))]
pub fn the_table_is_the_locks()
    ensures { TheTableIsTheLocks }
{}

/// And they leave every other lock of a state as it was.
#[tactic(auto, using(crate::proofs::TableStates::the_table_is_the_state))]
pub fn the_table_is_the_state()
    ensures { TheTableIsTheState }
{}
