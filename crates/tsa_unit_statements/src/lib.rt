//! Reading of statements, into the arena, with their points.
#![tactic(auto)]

mod closings;
mod reader;

pub use reader::statements;
