//! The rules that fail in a function, in the order in which they are told.
#![tactic(auto)]

mod edges;
mod failure;
mod failure_laws;
mod failures;
mod laws;
mod marks;
mod order;
mod points;
mod spot;

pub use failure::RuleFailure;
pub use failure_laws::rules_fail_at_points_of_bodies;
pub use failures::failures_of;
pub use laws::failures_are_told_in_one_order;
pub use order::warnings_of;
pub use tsa_flow_function::Fit;
