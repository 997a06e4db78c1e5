//! Conversions and operators, with the traps that they end in (C11 6.3.1.3, 6.5.3.3, 6.5.5 to 6.5.12). A pointer traps as null does where a
//! number is wanted. `&&` and `||` aren't here: they stop early, before their right side is a value.
ghost use Rattle.std.specs.Prelude.{◌≡◌};
ghost use Rattle.tsa_mean.specs.Operators.{converted_to, of_result as spec_of_result, operate_on, prefix_on};
ghost use Rattle.tsa_exec_values.specs.Answers.{as_out};

use crate::values::{is_same_pointer, is_true, number_in, of_number, of_truth};
use tsa_base::Value;
use tsa_place::or_zero;
use tsa_sched::TrapKind;
use tsa_tree::expr::{BinaryOp, UnaryOp};
use tsa_tree::kind::Kind;
use tsa_tree::number::{Number, Trap};
use tsa_types_operators::{operate, operate_prefix};

/// What arithmetic gives, or the trap that it ends in (C11 6.5p5, 6.5.5p5).
fn of_result(given: Result<Number, Trap>) -> Result<Value, TrapKind>
    ensures { as_out result ≡ spec_of_result given }
{
    match given {
        Ok(number) => Ok(of_number(number)),
        Err(Trap::Overflow) => Err(TrapKind::Overflow),
        Err(Trap::Division) => Err(TrapKind::Division),
    }
}

/// A value as one of a kind, modulo 2^32 (C11 6.3.1.3).
pub fn convert(kind: Kind, value: Value) -> Result<Value, TrapKind>
    ensures { as_out result ≡ converted_to kind value }
{
    match number_in(value) {
        Some(number) => Ok(or_zero(kind, Some(number))),
        None => Err(TrapKind::NullPointer),
    }
}

/// What a prefix operator makes of a value (C11 6.5.3.3): `!` is asked of pointers, too.
pub fn prefix(op: UnaryOp, value: Value) -> Result<Value, TrapKind>
    ensures { as_out result ≡ prefix_on op value }
{
    match op {
        UnaryOp::Not => Ok(of_truth(!is_true(value))),
        _ => match number_in(value) {
            Some(number) => of_result(operate_prefix(op, number)),
            None => Err(TrapKind::NullPointer),
        },
    }
}

/// Whether two pointers are equal, or whether they aren't (C11 6.5.9p6); any other operator asks for numbers.
fn on_pointers(op: BinaryOp, left: Option<u32>, right: Option<u32>) -> Result<Value, TrapKind>
    ensures { as_out result ≡ operate_on op (Value.Pointer left) (Value.Pointer right) }
{
    match op {
        BinaryOp::Equal => Ok(of_truth(is_same_pointer(left, right))),
        BinaryOp::Unequal => Ok(of_truth(!is_same_pointer(left, right))),
        _ => Err(TrapKind::NullPointer),
    }
}

/// What a binary operator but `&&` and `||` makes of two values (C11 6.5.5 to 6.5.12).
pub fn join(op: BinaryOp, left: Value, right: Value) -> Result<Value, TrapKind>
    ensures { as_out result ≡ operate_on op left right }
{
    match (left, right) {
        (Value::Pointer(place), Value::Pointer(other)) => on_pointers(op, place, other),
        _ => match (number_in(left), number_in(right)) {
            (Some(number), Some(other)) => of_result(operate(op, number, other)),
            _ => Err(TrapKind::NullPointer),
        },
    }
}
