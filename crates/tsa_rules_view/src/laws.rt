//! Laws of lock kinds, and examples.
ghost use Rattle.tsa_rules_view.specs.Examples.{LockKindsAreAsWritten};
ghost use Rattle.tsa_rules_view.specs.Laws.{LockKindsAreOfTheProgram};

/// The struct to which a path leads, what kind of lock that is and whether its holder may take it again are those of the program.
#[tactic(auto, using(crate::proofs::OfTheProgram::lock_kinds_are_of_the_program))]
pub fn lock_kinds_are_of_the_program()
    ensures { LockKindsAreOfTheProgram }
{}

/// Structs are the kinds of locks that stand beside them, and paths lead to them.
pub fn lock_kinds_are_as_written()
    ensures { LockKindsAreAsWritten }
{}
