//! Code over numbered slots: instructions, what is still to come of them, and the code of terms and points, in definitions and laws.
#![tactic(auto)]

pub mod instr;
mod laws;

pub use instr::{Ending, Instr};
pub use laws::{code_goes_as_the_term, code_is_as_written, points_go_as_their_code};
