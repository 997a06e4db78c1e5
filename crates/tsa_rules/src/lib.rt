//! The rules of thread safety: what each point of a function makes of the status of each lock, and which statuses break a rule there.
#![tactic(auto)]

mod attributes;
mod case;
mod effects;
mod fails;
mod images;
mod kinds;
mod laws;
mod mark;
mod rule;
mod status;
mod statuses;

pub use case::{Asked, Case, Lock, Role, Test};
pub use kinds::Kinds;
pub use laws::{
    a_locked_write_is_accepted, accepted_functions_have_sheets, accesses_need_their_locks,
    attributes_name_what_arguments_are, calls_are_by_their_attribute,
    calls_of_reentrant_locks_count_depths, cases_tell_the_rules, declarations_find_free_paths,
    entries_and_exits_are_as_declared, exits_of_tries_are_by_the_answer,
    kept_programs_have_no_warnings, kept_rows_break_no_rule, kinds_are_sets,
    large_units_are_judged, marks_are_made_step_by_step, names_of_calls_differ,
    numbers_tell_statuses, one_status_where_edges_agree, other_tests_decide_nothing,
    paths_lead_to_their_locks, programs_that_pass_have_no_warnings, quiet_cases,
    returns_are_as_declared, rules_speak_of_named_paths, same_statuses_are_equal,
    sets_are_their_statuses, sheets_that_pass_are_kept, statuses_keep_places,
    statuses_stay_possible, tests_of_calls_tell_the_answer, tests_of_variables_tell_the_answer,
    try_variables_are_numbered, try_variables_are_told_by_declarations, walks_bring_statuses,
    warnings_are_told_in_order, what_does_not_fail_fits,
};
pub use mark::{Claim, Mark};
pub use rule::{Rule, rule_of};
pub use status::Status;
pub use statuses::Statuses;
