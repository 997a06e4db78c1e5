//! Laws of the machine.
ghost use Rattle.tsa_mean.specs.Examples.{LockedWritesCanStart, ThreadsBeginWhereNothingIsAsked, UnlockedWritesAreUnsound};
ghost use Rattle.tsa_mean.specs.FurtherTraces.{AnswersGoWhereCallsStand, CallsAreAnswered, LoopsGoRound, ReadersShareALock};
ghost use Rattle.tsa_mean.specs.FurtherTraces.{ReturnsAreJudged, ReturnsLeaveWhatIsDeclared, SwitchesGoOn};
ghost use Rattle.tsa_mean.specs.HoldLaws.{HoldsChangeAsTold};
ghost use Rattle.tsa_mean.specs.Laws.{FirstStatesAreStarts, NothingIsDoneWhereNoneRuns, NothingIsDoneWhileWaiting, RunsGoTurnByTurn};
ghost use Rattle.tsa_mean.specs.Laws.{TurnsAreAtomic, TurnsAreSafeByTheirActs, TurnsTellTheirActs, WhatIsNotHeldIsAViolation};
ghost use Rattle.tsa_mean.specs.Laws.{WhatIsNoViolationIsSafe};
ghost use Rattle.tsa_mean.specs.OrderTraces.{NumbersTurnAtTheirEdges, TermsAreWorkedOutInOrder};
ghost use Rattle.tsa_mean.specs.StateLaws.{StatesAreKept};
ghost use Rattle.tsa_mean.specs.TracePlaces.{PointsStandAtTheirPlaces};
ghost use Rattle.tsa_mean.specs.Traces.{AnswersCome, HoldersTakeTheirLockAgain, ThreadsTrap, ThreadsWait, TransfersLockTheirAccounts};
ghost use Rattle.tsa_mean.specs.Traces.{UnlockedWritesAreViolations};
ghost use Rattle.tsa_mean.specs.WorthLaws.{ReadsKeepTheWorth, WhatIsWorkedOutIsWorthIt};

/// A turn of a thread that isn't there, has ended, has stopped for good or waits changes nothing.
#[tactic(auto, using(crate::proofs::Turns::nothing_is_done_where_none_runs, crate::proofs::Turns::nothing_is_done_while_waiting))]
pub fn some_turns_change_nothing()
    ensures none_runs { NothingIsDoneWhereNoneRuns }
    ensures waiting { NothingIsDoneWhileWaiting }
{}

/// A turn reads one cell at most, writes one cell or changes one lock at most, and leaves all other threads as they were.
#[tactic(auto, using(crate::proofs::Atomic::turns_are_atomic))]
pub fn turns_are_atomic()
    ensures { TurnsAreAtomic }
{}

/// In every start, and after every turn from a state where that is so, no lock is taken more often than it can be, and no thread has more
/// frames than it may.
#[tactic(auto, using(crate::proofs::Keeping::states_are_kept))]
pub fn states_are_kept()
    ensures { StatesAreKept }
{}

/// A thread's holds change by what its turns tell, and those of all others stay.
#[tactic(auto, using(crate::proofs::Holds::holds_change_as_told))]
pub fn holds_change_as_told()
    ensures { HoldsChangeAsTold }
{}

/// Each pick has one turn, of its thread, and a run goes on where the last one ended.
#[tactic(auto, using(crate::proofs::Atomic::runs_go_turn_by_turn))]
pub fn runs_go_turn_by_turn()
    ensures { RunsGoTurnByTurn }
{}

/// The next turn of a thread tells the act that its top frame decides: which cell it touches, and what it writes.
#[tactic(auto, using(crate::proofs::Telling::turns_tell_their_acts))]
pub fn turns_tell_their_acts()
    ensures { TurnsTellTheirActs }
{}

/// An act is worked out to be no violation exactly where it is safe, and so is a turn; a giving is one exactly where the thread doesn't
/// hold what it gives.
#[tactic(auto, using(crate::proofs::Safety::what_is_no_violation_is_safe, crate::proofs::Telling::turns_are_safe_by_their_acts, crate::proofs::Atomic::what_is_not_held_is_a_violation))]
pub fn violations_are_unsafe()
    ensures acts { WhatIsNoViolationIsSafe }
    ensures turns { TurnsAreSafeByTheirActs }
    ensures not_held { WhatIsNotHeldIsAViolation }
{}

/// What is worked out without a read is what a term is worth in any store, and what traps is worth nothing; a read that is replaced by what
/// a store holds keeps what the term is worth there.
#[tactic(auto, using(crate::proofs::Worths::what_is_worked_out_is_worth_it, crate::proofs::Filling::reads_keep_the_worth))]
pub fn terms_come_to_their_worth()
    ensures worked_out { WhatIsWorkedOutIsWorthIt }
    ensures read { ReadsKeepTheWorth }
{}

/// Threads that begin well, with the initial values in all cells, are a start.
#[tactic(auto, using(crate::proofs::Starting::first_states_are_starts))]
pub fn first_states_are_starts()
    ensures { FirstStatesAreStarts }
{}

/// A thread waits while another one holds the lock that it takes.
#[tactic(auto, using(crate::proofs::RunExamples::threads_wait))]
pub fn threads_wait()
    ensures { ThreadsWait }
{}

/// Writes without the lock that guards a cell are violations of each thread that makes them.
#[tactic(auto, using(crate::proofs::RunExamples::unlocked_writes_are_violations))]
pub fn unlocked_writes_are_violations()
    ensures { UnlockedWritesAreViolations }
{}

/// A transfer locks both accounts, and from an account to itself waits for itself.
#[tactic(auto, using(crate::proofs::RunExamples::transfers_lock_their_accounts))]
pub fn transfers_lock_their_accounts()
    ensures { TransfersLockTheirAccounts }
{}

/// Overflow, division by zero, null, an index out of range and a call too deep stop a thread for good.
#[tactic(auto, using(crate::proofs::RunExamples::threads_trap))]
pub fn threads_trap()
    ensures { ThreadsTrap }
{}

/// The environment answers what the pick says, and a try whether it took the lock.
#[tactic(auto, using(crate::proofs::RunExamples::answers_come))]
pub fn answers_come()
    ensures { AnswersCome }
{}

/// The holder of a reentrant lock takes it again, and it is free once it is given back as often.
#[tactic(auto, using(crate::proofs::RunExamples::holders_take_their_lock_again))]
pub fn holders_take_their_lock_again()
    ensures { HoldersTakeTheirLockAgain }
{}

/// A unit that writes without the lock isn't sound: it races from its first state on.
#[tactic(auto, using(crate::proofs::Unsound::unlocked_writes_are_unsound))]
pub fn unlocked_writes_are_unsound()
    ensures { UnlockedWritesAreUnsound }
{}

/// A unit that takes a lock has a start, which is no race.
#[tactic(auto, using(crate::proofs::Unsound::locked_writes_can_start))]
pub fn locked_writes_can_start()
    ensures { LockedWritesCanStart }
{}

/// Loops and switches go where their values lead.
#[tactic(auto, using(crate::proofs::FurtherRunExamples::loops_go_round, crate::proofs::FurtherRunExamples::switches_go_on))]
pub fn loops_go_round()
    ensures loops { LoopsGoRound }
    ensures switches { SwitchesGoOn }
{}

/// Readers hold a lock together, and a writer waits for them.
#[tactic(auto, using(crate::proofs::FurtherRunExamples::readers_share_a_lock))]
pub fn readers_share_a_lock()
    ensures { ReadersShareALock }
{}

/// What a call gives back goes where the call stands: into an assignment, a declaration, a test or a return.
#[tactic(auto, using(crate::proofs::FurtherRunExamples::calls_are_answered, crate::proofs::FurtherRunExamples::answers_go_where_calls_stand))]
pub fn calls_are_answered()
    ensures long { CallsAreAnswered }
    ensures short { AnswersGoWhereCallsStand }
{}

/// A return is judged by what its function's attributes say of its answer, and of what is held then and was held at the call.
#[tactic(auto, using(crate::proofs::FurtherRunExamples::returns_are_judged, crate::proofs::FurtherRunExamples::returns_leave_what_is_declared))]
pub fn returns_are_judged()
    ensures answers { ReturnsAreJudged }
    ensures attributes { ReturnsLeaveWhatIsDeclared }
{}

/// Operands are worked out from left to right, the right side of an assignment before the left one, and numbers trap or wrap at their
/// edges.
#[tactic(auto, using(crate::proofs::OrderRunExamples::terms_are_worked_out_in_order, crate::proofs::OrderRunExamples::numbers_turn_at_their_edges))]
pub fn terms_are_worked_out_in_order()
    ensures order { TermsAreWorkedOutInOrder }
    ensures edges { NumbersTurnAtTheirEdges }
{}

/// Threads begin with functions that have a body and ask no lock of their callers, and with values of their parameters' types.
#[tactic(auto, using(crate::proofs::Unsound::threads_begin_where_nothing_is_asked))]
pub fn threads_begin_where_nothing_is_asked()
    ensures { ThreadsBeginWhereNothingIsAsked }
{}

/// The points of worked runs stand in their texts at the lines and columns that stand beside them.
#[tactic(auto, using(crate::proofs::PlaceRunExamples::points_stand_at_their_places))]
pub fn points_stand_at_their_places()
    ensures { PointsStandAtTheirPlaces }
{}
