//! What a value counts as: a number, a truth, an index, a pointer to a place (C11 6.2.5p6, 6.2.5p20).
ghost use Rattle.std.specs.Prelude.{◌≡◌};
ghost use Rattle.tsa_core.specs.Meanings.{of_number as spec_of_number};
ghost use Rattle.tsa_path.specs.Values.{is_same_pointer as spec_is_same_pointer, is_true as spec_is_true, number_in as spec_number_in};
ghost use Rattle.tsa_path.specs.Values.{of_truth as spec_of_truth, pointed_place as spec_pointed_place};
ghost use Rattle.tsa_mean.specs.Steps.{int_in as spec_int_in};
ghost use Rattle.tsa_place_model.specs.Calls.{index_in as spec_index_in};

use tsa_base::Value;
use tsa_tree::number::Number;
use tsa_types_operators::truth;

/// The value that a number is.
pub(crate) fn of_number(number: Number) -> Value
    ensures { result ≡ spec_of_number number }
{
    match number {
        Number::Int(number) => Value::Int(number),
        Number::Unsigned(number) => Value::Unsigned(number),
    }
}

/// The number that a value is; a pointer is none.
pub(crate) fn number_in(value: Value) -> Option<Number>
    ensures { result ≡ spec_number_in value }
{
    match value {
        Value::Int(number) => Some(Number::Int(number)),
        Value::Unsigned(number) => Some(Number::Unsigned(number)),
        Value::Pointer(_) => None,
    }
}

/// The `int` 1 where it holds, else 0 (C11 6.5.8p6).
pub fn of_truth(holds: bool) -> Value
    ensures { result ≡ spec_of_truth holds }
{
    of_number(truth(holds))
}

/// Whether a value counts as true: whether it is neither 0 nor null (C11 6.5.3.3p5).
pub fn is_true(value: Value) -> bool
    ensures { result ≡ spec_is_true value }
{
    match value {
        Value::Int(number) => Number::Int(number).is_nonzero(),
        Value::Unsigned(number) => Number::Unsigned(number).is_nonzero(),
        Value::Pointer(place) => place.is_some(),
    }
}

/// Whether two pointers are to the same place, or both null (C11 6.5.9p6).
pub fn is_same_pointer(left: Option<u32>, right: Option<u32>) -> bool
    ensures { result ≡ spec_is_same_pointer left right }
{
    left == right
}

/// The place that a pointer leads to; null leads to none, and a number neither.
pub fn pointed_place(value: Value) -> Option<u32>
    ensures { result ≡ spec_pointed_place value }
{
    match value {
        Value::Pointer(place) => place,
        _ => None,
    }
}

/// A value as an index; a negative one is none, and a pointer neither.
pub fn index_in(value: Value) -> Option<u32>
    ensures { result ≡ spec_index_in value }
{
    match value {
        Value::Int(number) => u32::try_from(number).ok(),
        Value::Unsigned(number) => Some(number),
        Value::Pointer(_) => None,
    }
}

/// The `int` that a value equals modulo 2^32, by which a switch goes (C11 6.8.4.2p5); a pointer counts as 0.
pub fn int_in(value: Value) -> i32
    ensures { result ≡ spec_int_in value }
{
    match value {
        Value::Int(number) => number,
        Value::Unsigned(number) => number.cast_signed(),
        Value::Pointer(_) => 0,
    }
}
