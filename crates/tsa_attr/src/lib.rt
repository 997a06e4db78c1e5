//! Reading of attributes of thread safety: from tokens to the arena, one token ahead.
#![tactic(auto)]

mod balance;
mod lists;
mod nodes;
mod read;
mod reader;
mod reading;
mod takes;
mod view;

pub use read::{read_attributes, read_groups, read_more};
pub use view::begins_group;
