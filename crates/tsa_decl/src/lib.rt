//! Reading of declarations: items without a body, heads of functions and locals, into the arena.
#![tactic(auto)]

mod bodies;
mod constants;
mod heads;
mod items;
mod lists;
mod nodes;
mod read;

pub use items::{Begun, begin_item};
pub use nodes::keep_function;
pub use read::{read_declaration, read_head, read_local};
