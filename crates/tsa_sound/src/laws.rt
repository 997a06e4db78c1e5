//! The laws of turns.
ghost use Rattle.tsa_sound.specs.Examples.{ACallMeetsTheFacts, ALockedWriteMeetsTheFacts};
ghost use Rattle.tsa_sound.specs.Laws.{EnvironmentCallsGoWell, EveryTurnGoesWell, IsBranch, IsChoice, IsEnter, IsGive, IsLeave, IsRead};
ghost use Rattle.tsa_sound.specs.Laws.{IsSet, IsStep, IsTake, IsTrap, IsTry, IsWrite, ProgramsAreSound, RunsAreSound};
ghost use Rattle.tsa_sound.specs.Laws.{StartsHaveTheInvariant, ThreadsThatDoNotRunGoWell, TurnsGoWell, WaitsGoWell};

/// A turn of a thread that isn't there, has ended or has stopped for good keeps the invariant, and so does one that waits and one that
/// traps; none of them is a violation.
pub fn turns_that_change_nothing_go_well()
    ensures no_run { ThreadsThatDoNotRunGoWell }
    ensures waits { WaitsGoWell }
    ensures traps { TurnsGoWell IsTrap }
{}

/// A turn that only goes on keeps the invariant, and is no violation.
pub fn steps_go_well()
    ensures { TurnsGoWell IsStep }
{}

/// A turn that goes to the case of a switch keeps the invariant, and is no violation.
pub fn choices_go_well()
    ensures { TurnsGoWell IsChoice }
{}

/// A turn that goes by a test keeps the invariant, and is no violation: where the test looks at a try variable, the outcome tells the
/// answer that it holds.
pub fn branches_go_well()
    ensures { TurnsGoWell IsBranch }
{}

/// A turn that reads a cell keeps the invariant, and is no violation: its thread holds all locks that guard the cell.
pub fn reads_go_well()
    ensures { TurnsGoWell IsRead }
{}

/// A unit that takes a lock, writes what is under it and gives the lock back meets all that the laws of turns ask of a program.
pub fn a_locked_write_meets_the_facts()
    ensures { ALockedWriteMeetsTheFacts }
{}

/// A turn that writes a cell keeps the invariant, and is no violation: its thread holds alone all locks that guard the cell.
pub fn writes_go_well()
    ensures { TurnsGoWell IsWrite }
{}

/// A turn that sets a local keeps the invariant, and is no violation.
pub fn sets_go_well()
    ensures { TurnsGoWell IsSet }
{}

/// A turn that takes a lock, or waits for it, keeps the invariant, and is no violation.
pub fn takings_go_well()
    ensures { TurnsGoWell IsTake }
{}

/// A turn that tries to take a lock keeps the invariant, and is no violation: whether it took the lock is told by the answer.
pub fn tries_go_well()
    ensures { TurnsGoWell IsTry }
{}

/// A turn that gives a lock back keeps the invariant, and is no violation: its thread holds the lock, in the mode in which it gives it
/// back.
pub fn givings_go_well()
    ensures { TurnsGoWell IsGive }
{}

/// A turn that calls the environment keeps the invariant, and is no violation.
pub fn environment_calls_go_well()
    ensures { EnvironmentCallsGoWell }
{}

/// A turn that calls a function with a body keeps the invariant, and is no violation: what the caller hands over is what the function
/// begins with. So does one that finds no room for a frame more.
pub fn calls_go_well()
    ensures { TurnsGoWell IsEnter }
{}

/// A turn in which a function returns keeps the invariant, and is no violation: its holds are as it declares, and its caller goes on with
/// them.
pub fn returns_go_well()
    ensures { TurnsGoWell IsLeave }
{}

/// Every turn keeps the invariant, and is no violation.
pub fn every_turn_goes_well()
    ensures { EveryTurnGoesWell }
{}

/// From a state with the invariant no run tells of a violation, and none leads to a race.
pub fn runs_are_sound()
    ensures { RunsAreSound }
{}

/// Every start has the invariant: each thread begins with a function that asks nothing of its caller, and no lock is held.
pub fn starts_have_the_invariant()
    ensures { StartsHaveTheInvariant }
{}

/// A program that has what is asked is sound: no event of any run from any start is a violation, and no state of it is a race.
pub fn programs_are_sound()
    ensures { ProgramsAreSound }
{}

/// A unit that takes a lock, writes what is under it and hands the lock over to a function that gives it back meets all that the laws of
/// turns ask of a program.
pub fn a_call_meets_the_facts()
    ensures { ACallMeetsTheFacts }
{}
