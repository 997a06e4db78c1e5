//! The tokens of a text.
#![tactic(auto)]

mod front;
mod gaps;
mod keywords;
mod laws;
mod numbers;
mod puncts;
mod scan;
mod tokens;

pub use keywords::is_reserved;
pub use laws::quick_tokens_are_tokens;
pub use tokens::{LexRefusal, lex};
