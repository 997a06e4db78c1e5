//! Units in which no rule fails are sound: what the laws of turns ask of a program, from what `check` says of its unit.
#![tactic(auto)]

mod called;
mod entered;
mod kept;
mod laid;
mod laws;
mod terms;

pub use called::calls_have_their_facts;
pub use entered::{arguments_lead_along_their_paths, bodies_may_be_entered, layouts_are_small};
pub use kept::{
    locals_are_set_apart, paths_are_named_once, rows_are_kept_where_no_rule_fails,
    units_keep_their_rows,
};
pub use laid::places_are_laid_out;
pub use laws::{two_texts_are_sound, units_without_warnings_are_sound};
pub use terms::{
    arguments_have_their_paths, calls_have_their_terms, guards_of_terms_are_those_of_expressions,
    points_have_their_terms,
};
