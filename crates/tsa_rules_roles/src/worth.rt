//! What the value of an expression is, as far as it may tell an answer (C11 6.6).
ghost use Rattle.std.specs.Prelude.{◌≡◌, option_map};
ghost use Rattle.tsa_rules_roles.specs.Worths.{joined_worth as spec_joined_worth, number_behind as spec_number_behind};
ghost use Rattle.tsa_rules_roles.specs.Worths.{prefix_worth as spec_prefix_worth};

use tsa_tree::expr::{BinaryOp, UnaryOp};
use tsa_tree::number::{Number, Trap};
use tsa_types_expressions::{worked_binary, worked_prefix};

/// What the value of an expression is.
#[derive(Clone, Copy)]
pub enum Worth {
    /// The answer of the call that is made at its point.
    Call,
    /// What the local of a number has.
    Local(u32),
    /// A number that is made of constants alone, or why there is none.
    Number(Result<Number, Trap>),
    /// The null pointer, which is also what isn't known.
    Null,
    /// Anything else.
    Other,
}

/// A prefix operator of integers on a value.
fn number_behind(op: UnaryOp, inner: Worth) -> Worth
    ensures { result ≡ spec_number_behind op inner }
{
    match inner {
        Worth::Number(number) => Worth::Number(worked_prefix(op, number)),
        _ => Worth::Other,
    }
}

/// A prefix operator on a value: an address and a place are no numbers.
pub fn prefix_worth(op: UnaryOp, inner: Worth) -> Worth
    ensures { result ≡ spec_prefix_worth op inner }
{
    match op {
        UnaryOp::Address | UnaryOp::Follow => Worth::Other,
        _ => number_behind(op, inner),
    }
}

/// A binary operator on values.
pub fn joined_worth(op: BinaryOp, left: Worth, right: Worth) -> Worth
    ensures { result ≡ spec_joined_worth op left right }
{
    match (left, right) {
        (Worth::Number(left), Worth::Number(right)) => {
            Worth::Number(worked_binary(op, left, right))
        }
        _ => Worth::Other,
    }
}
