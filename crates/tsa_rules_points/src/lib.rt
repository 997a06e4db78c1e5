//! What the points of a body are to the rules: what each does, the function that it calls, and what it says of each path.
#![tactic(auto)]

mod calls;
mod marking;
mod notes;
mod points;
mod visit;

pub use notes::{Noted, Notes};
pub use points::{Frame, notes_of};
