//! Expressions and units as canonical text.
#![tactic(auto)]

mod attributes;
mod declarations;
mod items;
mod laws;
mod mark;
mod print;
mod sheet;
mod statements;

pub use items::print_unit;
pub use laws::{
    printed_expressions_are_read_again, printed_units_are_read_again,
    read_expressions_can_be_printed, read_units_can_be_printed,
};
pub use print::print_expr;
