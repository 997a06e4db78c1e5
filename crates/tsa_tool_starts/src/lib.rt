//! The words of a run that say how threads begin: which function each calls, and with which arguments.
#![tactic(auto)]

mod arguments;
mod call;
mod expression;
mod laws;
mod refusal;
mod start;
mod starter;
mod threads;

pub use laws::{good_words_begin_well, words_are_as_written};
pub use refusal::StartRefusal;
pub use starter::Starter;
