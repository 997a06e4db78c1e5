//! What is known where something stands in a unit: names, tags, members, functions, the cases of a switch; and what its names mean.
#![tactic(auto)]

mod beginning;
mod cases;
mod changes;
mod names;
mod scope;

pub use beginning::{next_number, outset};
pub use cases::Cases;
pub use names::Names;
pub use scope::{FunctionTypes, Scope};
