//! The laws of actions.
ghost use Rattle.tsa_exec_actions.specs.Actions.{HoldsAreKeptByActions, ReturnsAreJudgedByActions};
ghost use Rattle.tsa_exec_actions.specs.Chains.{CallsArePlacesInTheList};
ghost use Rattle.tsa_exec_actions.specs.Examples.{ActionsAreAsWritten};

/// A thread's holds are those at a call with what it took and without what it gave back since; each turn goes on so, by what it tells.
#[tactic(auto, using(crate::proofs::Actions::holds_are_kept_by_actions))]
pub fn holds_are_kept_by_actions()
    ensures { HoldsAreKeptByActions }
{}

/// The actions since a call are those behind its place in the list of all actions: each behind the one that is its thread's last before it.
#[tactic(auto, using(crate::proofs::Chains::calls_are_places_in_the_list))]
pub fn calls_are_places_in_the_list()
    ensures { CallsArePlacesInTheList }
{}

/// A return is a violation exactly where the actions since the call of its function aren't what the attributes say.
#[tactic(auto, using(crate::proofs::Judging::returns_are_judged_by_actions))]
pub fn returns_are_judged_by_actions()
    ensures { ReturnsAreJudgedByActions }
{}

/// Actions of two threads, and what was done since calls, are as they are written out.
#[tactic(auto, using(crate::proofs::ActionExamples::as_written))]
pub fn actions_are_as_written()
    ensures { ActionsAreAsWritten }
{}
