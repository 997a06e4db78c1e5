//! Expressions of a unit's row as instructions over numbered slots: no tree and no term is built.
#![tactic(auto)]

mod calls;
mod emit;
mod find;
mod head;
mod laws;
mod lower;
mod top;
mod wanted;

pub use calls::FoundCall;
pub use find::{Source, Spot};
pub use head::Head;
pub use laws::{expressions_are_lowered, expressions_have_their_code, parts_are_of_any_result};
pub use lower::Job;
pub use top::Reach;
