//! What cells hold at the start (C11 6.3.1.3, 6.7.9p10, p11).
ghost use Rattle.std.specs.Prelude.{◌≡◌};
ghost use Rattle.tsa_place_model.specs.Items.{converted as spec_converted, zero_of as spec_zero_of, or_zero as spec_or_zero};
ghost use Rattle.tsa_tree.specs.types.Arithmetic.{int_of};

use tsa_base::Value;
use tsa_tree::kind::Kind;
use tsa_tree::number::Number;

/// A number as an `int`, modulo 2^32.
fn to_int(number: Number) -> i32
    ensures { result ≡ int_of number }
{
    match number {
        Number::Int(z) => z,
        Number::Unsigned(n) => n.cast_signed(),
    }
}

/// A constant in a cell of a kind, to which it is converted.
fn converted(kind: Kind, number: Number) -> Value
    ensures { result ≡ spec_converted kind number }
{
    match kind {
        Kind::Unsigned => Value::Unsigned(number.to_unsigned()),
        _ => Value::Int(to_int(number)),
    }
}

/// What a cell of a kind holds that has no initialiser: 0, or null.
pub fn zero_of(kind: Kind) -> Value
    ensures { result ≡ spec_zero_of kind }
{
    match kind {
        Kind::Int => Value::Int(0),
        Kind::Unsigned => Value::Unsigned(0),
        _ => Value::Pointer(None),
    }
}

/// What a cell of a kind holds by a constant, where there is one.
pub fn or_zero(kind: Kind, number: Option<Number>) -> Value
    ensures { result ≡ spec_or_zero kind number }
{
    match number {
        Some(number) => converted(kind, number),
        None => zero_of(kind),
    }
}
