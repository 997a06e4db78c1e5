//! What is known by name at each point of a body, and which locals never change.
#![tactic(auto)]

mod laws;
mod stable;
mod steps;
mod walk;

pub use laws::{points_are_of_the_core, steps_are_the_points};
pub use stable::stable_locals;
pub use steps::{Step, body_steps};
pub use walk::Walk;
