//! What values and places are (C11 6.3.2.1), and which values go to which things.
ghost use Rattle.std.specs.Prelude.{◌≡◌};
ghost use Rattle.tsa_tree.specs.types.Operands.{is_single as spec_is_single, is_integer as spec_is_integer};
ghost use Rattle.tsa_tree.specs.types.Operands.{is_unsigned as spec_is_unsigned, is_pointer as spec_is_pointer};
ghost use Rattle.tsa_tree.specs.types.Operands.{is_scalar as spec_is_scalar, is_array as spec_is_array, target as spec_target};
ghost use Rattle.tsa_tree.specs.types.Operands.{struct_of as spec_struct_of, is_struct_place as spec_is_struct_place};
ghost use Rattle.tsa_tree.specs.types.Operands.{comparable as spec_comparable, goes_to as spec_goes, element_type as spec_element_type};
ghost use Rattle.tsa_tree.specs.types.Types.{single as spec_single, value as spec_value, place as spec_place};

use crate::kinds::{
    has_target_of, is_integer_kind, is_pointer_kind, is_unsigned_kind, keeps_const, structure_of,
    target_of,
};
use tsa_tree::kind::{ExpressionType, Kind, ThingType};

/// The type of one thing of a kind, no array.
pub fn single(kind: Kind, is_const: bool) -> ThingType
    ensures { result ≡ spec_single kind is_const }
{
    ThingType {
        kind,
        length: None,
        is_const,
    }
}

/// The type of a value of a kind that stands in no place (C11 6.3.2.1p2).
pub fn value(kind: Kind) -> ExpressionType
    ensures { result ≡ spec_value kind }
{
    ExpressionType {
        thing: single(kind, false),
        is_place: false,
        is_zero: false,
    }
}

/// The type of a place of a thing, C's lvalue (C11 6.3.2.1p1).
pub fn place(thing: ThingType) -> ExpressionType
    ensures { result ≡ spec_place thing }
{
    ExpressionType {
        thing,
        is_place: true,
        is_zero: false,
    }
}

/// Whether it is no array.
pub fn is_single(t: ExpressionType) -> bool
    ensures { result ≡ spec_is_single t }
{
    t.thing.length.is_none()
}

/// Whether it is an integer (C11 6.2.5p17).
pub fn is_integer(t: ExpressionType) -> bool
    ensures { result ≡ spec_is_integer t }
{
    is_single(t) && is_integer_kind(t.thing.kind)
}

/// Whether it is an `unsigned`.
pub fn is_unsigned(t: ExpressionType) -> bool
    ensures { result ≡ spec_is_unsigned t }
{
    is_single(t) && is_unsigned_kind(t.thing.kind)
}

/// Whether it is a pointer; `NULL` is one.
pub fn is_pointer(t: ExpressionType) -> bool
    ensures { result ≡ spec_is_pointer t }
{
    is_single(t) && is_pointer_kind(t.thing.kind)
}

/// Whether it is an integer or a pointer (C11 6.2.5p21).
pub fn is_scalar(t: ExpressionType) -> bool
    ensures { result ≡ spec_is_scalar t }
{
    is_integer(t) || is_pointer(t)
}

/// Whether it is an array, which is no value.
pub fn is_array(t: ExpressionType) -> bool
    ensures { result ≡ spec_is_array t }
{
    t.thing.length.is_some()
}

/// The number of the struct that it points to.
pub fn target(t: ExpressionType) -> Option<u32>
    ensures { result ≡ spec_target t }
{
    if is_single(t) {
        target_of(t.thing.kind)
    } else {
        None
    }
}

/// The number of the struct that it is.
pub fn struct_of(t: ExpressionType) -> Option<u32>
    ensures { result ≡ spec_struct_of t }
{
    if is_single(t) {
        structure_of(t.thing.kind)
    } else {
        None
    }
}

/// Whether it is a place that has a struct.
pub fn is_struct_place(t: ExpressionType) -> bool
    ensures { result ≡ spec_is_struct_place t }
{
    t.is_place && struct_of(t).is_some()
}

/// The type of an element of an array, which is a place where the array is one (C11 6.5.2.1p2).
pub fn element_type(t: ExpressionType) -> ExpressionType
    ensures { result ≡ spec_element_type t }
{
    ExpressionType {
        thing: single(t.thing.kind, t.thing.is_const),
        is_place: t.is_place,
        is_zero: false,
    }
}

/// Whether two values may stand on the sides of `==`: integers, pointers to the same struct, or a pointer and null
/// (C11 6.5.9p2).
pub fn comparable(a: ExpressionType, b: ExpressionType) -> bool
    ensures { result ≡ spec_comparable a b }
{
    let pointers = is_single(a) && is_single(b) && has_target_of(a.thing.kind, b.thing.kind);
    let zeros = (a.is_zero && is_pointer(b)) || (b.is_zero && is_pointer(a));
    (is_integer(a) && is_integer(b)) || pointers || zeros
}

/// Whether a value goes to a thing of a type: an integer to an integer, a pointer to one to the same struct, and the number 0 and
/// `NULL` to every pointer (C11 6.5.16.1p1).
pub fn goes_to(t: ExpressionType, thing: ThingType) -> bool
    ensures { result ≡ spec_goes t thing }
{
    let integers = is_integer(t) && is_integer_kind(thing.kind);
    let is_pointer = target_of(thing.kind).is_some();
    let same = has_target_of(t.thing.kind, thing.kind) && keeps_const(t.thing.kind, thing.kind);
    let pointers = is_single(t) && is_pointer && same;
    thing.length.is_none() && (integers || (t.is_zero && is_pointer) || pointers)
}
