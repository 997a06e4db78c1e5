//! Reading of what stands before the body of a statement, and of statements that a keyword begins and that have no body, into
//! the arena, with their points.
#![tactic(auto)]

mod heads;
mod loops;
mod openings;
mod text;

pub use heads::{Head, Headed, Marked, marked_test};
pub use openings::leaf_statement;
pub use text::TextReader;
