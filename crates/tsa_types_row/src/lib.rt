//! The row of a unit: its expressions and the points of its bodies as nodes in one list, each in front of its parts.
#![tactic(auto)]

mod kept;
mod laws;
mod node;
mod row;
mod short;
mod shortening;
mod whole;

pub use laws::{names_of_rows_are_those_of_the_unit, rows_are_as_written};
pub use node::{Node, Op};
pub use row::Row;
