//! What is still to come of a thread's work at a point, in definitions and laws alone.
#![tactic(auto)]

mod laws;

pub use laws::{acts_tell_what_comes, reads_come_in_turn};
