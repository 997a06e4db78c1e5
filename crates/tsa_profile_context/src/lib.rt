//! What the items of a typed unit are judged with, what is known in front of each, and what the profile asks of data and of the heads of
//! functions.
#![tactic(auto)]

mod context;
mod data;
mod heads;
mod knowledge;
mod refusal;
mod view;

pub use context::Ground;
pub use knowledge::{Knowledge, or_else, put_scope, take_scope};
pub use refusal::{ProfileRefusal, answer_of};
pub use tsa_profile_points::{Around, Judged, attribute_paths, init_failure, named_locks};
