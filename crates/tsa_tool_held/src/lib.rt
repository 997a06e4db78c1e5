//! What is shown of a unit in the profile by its held sets: their lines, written body by body.
#![tactic(auto)]

mod held;
mod refusal;
mod tries;

pub use held::write_held;
pub use refusal::WriteRefusal;
pub use tsa_warn::{Ready, UnitLines, unit_lines};
