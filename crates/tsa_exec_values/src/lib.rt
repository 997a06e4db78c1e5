//! Operators on the values that threads of the machine work with, as its definitions have them.
#![tactic(auto)]

mod laws;
mod operators;
mod values;

pub use laws::operators_are_as_written;
pub use operators::{convert, join, prefix};
pub use values::{index_in, int_in, is_same_pointer, is_true, of_truth, pointed_place};
