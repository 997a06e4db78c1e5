//! Accepted units are sound: the invariant of held sets, and the turns that keep it, in definitions and laws alone.
#![tactic(auto)]

mod laws;

pub use laws::{
    a_call_meets_the_facts, a_locked_write_meets_the_facts, branches_go_well, calls_go_well,
    choices_go_well, environment_calls_go_well, every_turn_goes_well, givings_go_well,
    programs_are_sound, reads_go_well, returns_go_well, runs_are_sound, sets_go_well,
    starts_have_the_invariant, steps_go_well, takings_go_well, tries_go_well,
    turns_that_change_nothing_go_well, writes_go_well,
};
