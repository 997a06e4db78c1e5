//! Simple statements, locals and the heads of `for` loops are typed (C11 6.7, 6.8.3, 6.8.5): what is wrong with them, and what their names
//! mean.
#![tactic(auto)]

mod context;
mod leaves;
mod locals;
mod loops;
mod targets;
mod verdicts;

pub use context::{Around, Key};
pub use leaves::{given_value, point_at, simple};
pub use locals::{Told, declare_local};
pub use loops::{ForHead, for_head};
pub use targets::{collect_all_labels, collect_cases, first_default};
pub use verdicts::{return_failure, switched, tested};
