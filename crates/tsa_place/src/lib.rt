//! The places of a unit: the cells and struct objects of its globals, and their values at the start (C11 6.2.4).
#![tactic(auto)]

mod environment;
mod filling;
mod globals;
mod items;
mod laws;
mod places;
mod refusal;
mod unit;
mod values;

pub use globals::Globals;
pub use items::{know_alias, know_enum, know_global};
pub use laws::places_are_as_written;
pub use places::Places;
pub use refusal::PlaceRefusal;
pub use tsa_place_layout::declared_thing;
pub use values::{or_zero, zero_of};
