//! Places and the paths to them: what they are, where they lie and where paths lead (C11 6.2.4, 6.5.2, 6.5.3.2), in definitions, types and
//! laws.
#![tactic(auto)]

mod leading_laws;
mod path;
mod place;
mod spot;
mod standing_laws;

pub use leading_laws::places_have_one_way_and_text;
pub use path::{Path, PathStep, Root};
pub use place::{Guard, Holder, PlaceKind, Placed};
pub use spot::Spot;
pub use standing_laws::places_stand_where_they_are_told;
