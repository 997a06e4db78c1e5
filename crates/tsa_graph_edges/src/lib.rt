//! The edges of the control of a body (C11 6.8).
#![tactic(auto)]

mod forks;
mod link;
mod links;
mod numbers;
mod points;
mod successors;
mod walk;

pub use link::{Link, Outcome};
pub use links::body_links;
pub use points::BodyPoints;
