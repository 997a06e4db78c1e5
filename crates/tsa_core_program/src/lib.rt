//! What later passes ask of the row of a typed unit, found in one walk along it.
#![tactic(auto)]

mod counts;
mod laws;
mod lists;
mod program;
mod ranges;
mod walk;

pub use laws::{
    bodies_are_found, bodies_are_found_as_written, body_of_each_is_found, points_stand_there,
};
pub use lists::Lists;
pub use program::Program;
pub use ranges::{BodyRange, Range};
