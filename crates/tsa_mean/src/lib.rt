//! The machine of threads, in definitions and laws, and how its threads begin.
#![tactic(auto)]

mod laws;
mod start;
mod worked_runs;

pub use laws::{
    answers_come, calls_are_answered, first_states_are_starts, holders_take_their_lock_again,
    holds_change_as_told, locked_writes_can_start, loops_go_round, points_stand_at_their_places,
    readers_share_a_lock, returns_are_judged, runs_go_turn_by_turn, some_turns_change_nothing,
    states_are_kept, terms_are_worked_out_in_order, terms_come_to_their_worth,
    threads_begin_where_nothing_is_asked, threads_trap, threads_wait,
    transfers_lock_their_accounts, turns_are_atomic, turns_tell_their_acts,
    unlocked_writes_are_unsound, unlocked_writes_are_violations, violations_are_unsafe,
};
pub use start::ThreadStart;
pub use worked_runs::{accepted_units_run_safely, transfers_can_start};
