//! The held sets of functions: what walks bring to their points, path by path.
#![tactic(auto)]

mod claim_lanes;
mod claims;
mod firsts;
mod function;
mod lanes;
mod number;
mod paths;
mod queries;
mod table;
mod working;

pub use claim_lanes::{count_of, lanes_at};
pub use claims::{Claims, claims_of};
pub use function::FunctionFlow;
pub use number::flow_of;
pub use tsa_rules_view::{Facts, Fit, LockKind, RuleView, Unit, lock_kinds};
