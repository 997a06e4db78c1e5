//! What each point of a function says of each path: a table of marks by points and by the numbers of paths, made step by step.
#![tactic(auto)]

mod accesses;
mod attributes;
mod declarations;
mod entries;
mod marks;
mod note;
mod notes;
mod numbers;

pub use entries::Entry;
pub use marks::Marks;
pub use numbers::Numbers;
