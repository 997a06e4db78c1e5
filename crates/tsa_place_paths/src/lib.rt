//! Paths to places, and those of lock expressions (C11 6.5.2, 6.5.3.2).
#![tactic(auto)]

mod leads;
mod sight;

pub use leads::{Led, meant};
pub use sight::{Sight, is_pointer};
pub use tsa_types_expressions::{View, single};
