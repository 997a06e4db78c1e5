//! Reading of whole units, into the arena.
#![tactic(auto)]

mod items;
mod limits;
mod names;
mod text;
mod unit;

pub use unit::parse;
