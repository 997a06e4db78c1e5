//! Which cells expressions read and write, each with the paths of its guards, and the first premise of the profile that fails in them.
#![tactic(auto)]

mod laws;
mod place;
mod walking;

pub use laws::{
    arguments_are_those_of_the_core, reads_are_those_of_the_core, writes_are_those_of_the_core,
};
pub use place::{own_failure, place_failure};
pub use walking::{reads, writes};
