//! The functions and the items of a unit are typed (C11 6.9): the first failing node, or what each name means.
#![tactic(auto)]

mod functions;
mod heads;
mod typed;
mod unit;

pub use functions::function_number;
pub use typed::{Typed, type_check};
