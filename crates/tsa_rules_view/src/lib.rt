//! What the rules of thread safety go by in a function: the view of it, by points and by the numbers of its paths.
#![tactic(auto)]

mod build;
mod calls;
mod content;
mod facts;
mod functions;
mod kind;
mod laws;
mod parts;
mod structure;
mod view;
mod walks;

pub use build::Unit;
pub use calls::{effect, entry_status, exit_status, fails};
pub use content::RuleView;
pub use facts::Facts;
pub use kind::{LockKind, is_reentrant, kind_at, lock_kinds};
pub use laws::{lock_kinds_are_as_written, lock_kinds_are_of_the_program};
pub use structure::Leads;
pub use tsa_rules_bodies::{Fit, graph_of};
