//! Reading of what statements are made of, into the arena: tests in parentheses, simple statements, statements that hold no
//! other one, the parts of a `for` and the locals of a block, with their points.
#![tactic(auto)]

mod conditions;
mod leaves;
mod parts;
mod points;
mod signs;
mod simple;

pub use conditions::{Tested, Value, colon, is_else_at, test, value_or_none, while_word};
pub use leaves::{
    break_statement, continue_statement, empty, goto, return_statement, simple_statement,
};
pub use parts::{Body, Part, for_init, for_step, in_body, locals};
pub use points::{Read, mark};
pub use signs::{begins_statement, begins_type, closes_block};
