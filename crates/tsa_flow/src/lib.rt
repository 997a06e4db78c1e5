//! The held sets of a unit: what walks bring to the points of all its functions, in one walk along its items.
#![tactic(auto)]

mod passage;
mod tables;
mod unit_flow;

pub use passage::Pass;
pub use tables::UnitTables;
pub use tsa_flow_function::FunctionFlow;
pub use unit_flow::{Flowed, flow};
