//! The statuses that walks bring to the points of a body, for several paths at once.
#![tactic(auto)]

mod edges;
mod flags;
mod front;
mod joins;
mod lanes;
mod passing;
mod places;
mod row;
mod sets;
mod stages;

pub use lanes::Lanes;
pub use sets::{Reached, Spot, reach};
