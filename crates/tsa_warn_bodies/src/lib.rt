//! The bodies of a unit one by one: what walks bring to the points of each, and the texts of its paths.
#![tactic(auto)]

mod body_rows;
mod course;

pub use body_rows::{Teller, ToldBody};
pub use course::Course;
pub use tsa_flow::UnitTables;
