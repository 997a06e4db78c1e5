//! What the profile asks of the items of a typed unit, judged one by one with what is known in front of each, and the paths of its
//! functions.
#![tactic(auto)]

mod bodies;
mod functions;
mod items;

pub use items::judge;
pub use tsa_core_environment::{Bodies, know_item};
pub use tsa_profile_context::{Ground, ProfileRefusal, init_failure, named_locks};
pub use tsa_types::Typed;
