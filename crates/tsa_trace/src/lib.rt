//! The lines of what turns of a unit's threads did, and of races.
#![tactic(auto)]

mod actions;
mod functions;
mod laws;
mod lines;
mod races;
mod table;
mod tracer;
mod values;

pub use laws::{event_lines_are_as_written, race_lines_are_as_written};
pub use lines::event_line;
pub use races::{Side, race_line};
pub use tracer::Tracer;
