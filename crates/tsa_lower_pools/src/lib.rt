//! The flat pools of the lowered code of a unit, and what each point and each function of the program has in them.
#![tactic(auto)]

pub mod code;
mod laws;
mod reads;

pub use code::{AnswerUse, Case, Code, FunctionCode, PointCode, PoolPart};
pub use laws::code_goes_as_the_program;
