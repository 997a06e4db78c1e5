//! The commands of the analyser, from words and bytes to bytes and a status.
#![tactic(auto)]

mod answer;
mod check;
mod command;
mod exchange;
mod laws;
mod top;

pub use laws::{
    accepted_units_are_sound, accepted_units_break_no_rule, checks_are_as_written,
    one_report_is_right, texts_are_refused_by_what_fails_first,
    units_that_break_no_rule_are_accepted, what_is_printed_is_printed_again,
};
pub use top::tool;
