//! What is reported of a unit in the profile: the lines of its warnings.
#![tactic(auto)]

mod body;
mod coverage;
mod laws;
mod line_count;
mod unit;
mod warning_lines;

pub use body::push_place;
pub use coverage::rules_fail_for_paths_of_functions;
pub use laws::{
    rules_that_fail_are_told, units_without_lines_have_no_warnings,
    units_without_warnings_have_no_lines,
};
pub use line_count::UnitLines;
pub use tsa_warn_bodies::{Course, Teller, ToldBody, UnitTables};
pub use tsa_warn_function::Fit;
pub use unit::Ready;
pub use warning_lines::unit_lines;
