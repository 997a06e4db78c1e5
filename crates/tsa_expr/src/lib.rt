//! Reading of expressions: from tokens to trees in the arena, one token ahead.
#![tactic(auto)]

mod aliases;
mod meaning;
mod members;
mod nodes;
mod read;
mod reader;
mod reading;
mod refusal;
mod sign;
mod source;
mod table;
mod words;

pub use aliases::Aliases;
pub use meaning::meaning_of;
pub use read::{read_expr, read_unary};
pub use reading::{ArgumentList, Reading};
pub use refusal::{SyntaxCode, SyntaxRefusal, refuse};
pub use sign::sign_of;
pub use source::Reader;
