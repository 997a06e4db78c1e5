//! Where things lie among the places of a unit: structs with their members, what a place is, its guards, and where paths lead (C11 6.2.5,
//! 6.7.2.1).
#![tactic(auto)]

mod definitions;
mod evaluation;
mod guards;
mod layout;
mod members;
mod parts;
mod structures;
mod ways;

pub use definitions::define_struct;
pub use layout::Layout;
pub use parts::{Part, declared_thing, part_of, whole};
pub use structures::Structures;
pub use tsa_place_paths::{Led, Sight, meant};
