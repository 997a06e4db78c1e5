//! What each node of an expression comes to by its parts: what it is found to be, or the first premise that fails.
ghost use Rattle.std.specs.Prelude.{◌≡◌};
ghost use Rattle.tsa_types_expressions.specs.Found.{prefix_constant as spec_prefix_constant, binary_constant as spec_binary_constant};
ghost use Rattle.tsa_types_expressions.specs.Found.{index_constant as spec_index_constant, number_in};
ghost use Rattle.tsa_types_expressions.specs.Parts.{found_thing, found_at, name_part, prefix_part, binary_part, index_part};
ghost use Rattle.tsa_types_expressions.specs.Verdicts.{at as spec_at};
ghost use Rattle.tsa_tree.specs.types.Constants.{as_truth as spec_as_truth, go_on, worked_binary as spec_worked_binary};
ghost use Rattle.tsa_tree.specs.types.Arithmetic.{operate_prefix as spec_operate_prefix};
ghost use Rattle.tsa_tree.specs.types.Initialisers.{is_index as spec_is_index};

use crate::constants::{Constant, Found, named};
use tsa_base::Span;
use tsa_tree::expr::{BinaryOp, UnaryOp};
use tsa_tree::kind::ExpressionType;
use tsa_tree::meaning::Entry;
use tsa_tree::number::{Number, Trap};
use tsa_tree::premise::{Failure, TypeCode};
use tsa_types_operators::{
    binary_type, breaks_binary, breaks_index, breaks_prefix, element_type, operate, operate_prefix,
    prefix_type, truth,
};

/// A premise that fails at a place.
pub fn at(code: TypeCode, span: Span) -> Failure
    ensures { result ≡ spec_at code span }
{
    Failure { code, span }
}

/// The type of a part that has one.
pub fn thing_of(part: Result<Found, Failure>) -> Option<ExpressionType>
    ensures { result ≡ found_thing part }
{
    match part {
        Ok(found) => Some(found.thing),
        Err(_) => None,
    }
}

/// A name that stands alone.
pub fn name_verdict(span: Span, entry: Option<Entry>) -> Result<Found, Failure>
    ensures { result ≡ name_part span entry }
{
    match entry {
        Some(entry) => Ok(named(entry)),
        None => Err(at(TypeCode::TY1, span)),
    }
}

/// A prefix operator on what may be a number.
pub fn worked_prefix(op: UnaryOp, inner: Result<Number, Trap>) -> Result<Number, Trap>
    ensures { result ≡ go_on inner (spec_operate_prefix op) }
{
    operate_prefix(op, inner?)
}

/// A prefix operator on a constant: an address of a place, that place again, or a number.
fn prefix_constant(op: UnaryOp, inner: Constant) -> Constant
    ensures { result ≡ spec_prefix_constant op inner }
{
    match (op, inner) {
        (UnaryOp::Address, Constant::Place(number)) => Constant::Address(number),
        (UnaryOp::Follow, Constant::Address(number)) => Constant::Place(number),
        (UnaryOp::Address | UnaryOp::Follow, _) => Constant::Other,
        (_, Constant::Number(worth)) => Constant::Number(worked_prefix(op, worth)),
        _ => Constant::Other,
    }
}

/// A prefix operator before its operand.
pub fn prefix_verdict(
    op: UnaryOp,
    span: Span,
    inner: Result<Found, Failure>,
) -> Result<Found, Failure>
    ensures { result ≡ prefix_part op span inner }
{
    if breaks_prefix(op, thing_of(inner)) {
        return Err(at(TypeCode::TY3, span));
    }
    let inner = inner?;
    Ok(Found {
        thing: prefix_type(op, inner.thing),
        constant: prefix_constant(op, inner.constant),
    })
}

/// 1 or 0, by whether a number is another than 0.
fn as_truth(value: Result<Number, Trap>) -> Result<Number, Trap>
    ensures { result ≡ spec_as_truth value }
{
    Ok(truth(value?.is_nonzero()))
}

/// A binary operator on what may be numbers: `&&` and `||` stop early (C11 6.5.13p4, 6.5.14p4).
pub fn worked_binary(
    op: BinaryOp,
    left: Result<Number, Trap>,
    right: Result<Number, Trap>,
) -> Result<Number, Trap>
    ensures { result ≡ spec_worked_binary op left right }
{
    let a = left?;
    match op {
        BinaryOp::Or => {
            if a.is_nonzero() {
                Ok(truth(true))
            } else {
                as_truth(right)
            }
        }
        BinaryOp::And => {
            if a.is_nonzero() {
                as_truth(right)
            } else {
                Ok(truth(false))
            }
        }
        _ => operate(op, a, right?),
    }
}

/// A binary operator on constants.
fn binary_constant(op: BinaryOp, left: Constant, right: Constant) -> Constant
    ensures { result ≡ spec_binary_constant op left right }
{
    match (left, right) {
        (Constant::Number(left), Constant::Number(right)) => {
            Constant::Number(worked_binary(op, left, right))
        }
        _ => Constant::Other,
    }
}

/// A binary operator between its operands.
pub fn binary_verdict(
    op: BinaryOp,
    span: Span,
    left: Result<Found, Failure>,
    right: Result<Found, Failure>,
) -> Result<Found, Failure>
    ensures { result ≡ binary_part op span left right }
{
    if breaks_binary(op, thing_of(left), thing_of(right)) {
        return Err(at(TypeCode::TY3, span));
    }
    let left = left?;
    let right = right?;
    Ok(Found {
        thing: binary_type(op, left.thing, right.thing),
        constant: binary_constant(op, left.constant, right.constant),
    })
}

/// Whether a constant is the number of an element.
fn is_index(length: Option<u32>, value: Option<Number>) -> bool
    ensures { result ≡ spec_is_index length value }
{
    match (length, value) {
        (Some(length), Some(Number::Int(z))) => 0 <= z && (z as u32) < length,
        (Some(length), Some(Number::Unsigned(n))) => n < length,
        _ => false,
    }
}

/// An element of a place of a global, by a constant in range.
fn index_constant(length: Option<u32>, base: Constant, index: Option<Number>) -> Constant
    ensures { result ≡ found_at length base index }
{
    match base {
        Constant::Place(number) => {
            if is_index(length, index) {
                Constant::Place(number)
            } else {
                Constant::Other
            }
        }
        _ => Constant::Other,
    }
}

/// An element by its index.
pub fn index_verdict(
    span: Span,
    base: Result<Found, Failure>,
    index: Result<Found, Failure>,
) -> Result<Found, Failure>
    ensures { result ≡ index_part span base index }
{
    if breaks_index(thing_of(base), thing_of(index)) {
        return Err(at(TypeCode::TY3, span));
    }
    let base = base?;
    let index = index?;
    Ok(Found {
        thing: element_type(base.thing),
        constant: index_constant(base.thing.thing.length, base.constant, index.value()),
    })
}
