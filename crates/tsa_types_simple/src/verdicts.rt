//! What is wrong with assignments, tests and values of statements (C11 6.5.16, 6.8.4, 6.8.6.4), by what their expressions were found to be.
ghost use Rattle.std.specs.Prelude.{◌≡◌};
ghost use Rattle.tsa_types_simple.specs.Simple.{assigned, tested_by, valued, returned};
ghost use Rattle.tsa_tree.specs.types.Simple.{assignment_breaks as spec_breaks, is_written_to as spec_written};
ghost use Rattle.tsa_tree.specs.types.Simple.{written_type as spec_written_type, is_void as spec_is_void};
ghost use Rattle.tsa_types_expressions.specs.Parts.{found_thing};

use tsa_base::Span;
use tsa_tree::expr::BinaryOp;
use tsa_tree::kind::{ExpressionType, Kind, ThingType};
use tsa_tree::premise::{Failure, TypeCode};
use tsa_types_expressions::{Found, at, thing_of};
use tsa_types_operators::{binary_type, breaks_binary, goes_to, is_integer, is_scalar};

/// Whether what an assignment makes can't go to its left side.
fn assignment_breaks(
    op: Option<BinaryOp>,
    left: Option<ExpressionType>,
    right: Option<ExpressionType>,
) -> bool
    ensures { result ≡ spec_breaks op left right }
{
    if let Some(op) = op {
        if breaks_binary(op, left, right) {
            return true;
        }
    }
    match (left, right) {
        (Some(a), Some(b)) => {
            let made = match op {
                Some(op) => binary_type(op, a, b),
                None => b,
            };
            !goes_to(made, a.thing)
        }
        _ => false,
    }
}

/// Whether it is a place that isn't `const`.
fn is_written_to(t: ExpressionType) -> bool
    ensures { result ≡ spec_written t }
{
    t.is_place && !t.thing.is_const
}

/// The type of a left side that may be written to; one that may not has none.
fn written_type(left: Result<Found, Failure>) -> Option<ExpressionType>
    ensures { result ≡ spec_written_type (found_thing left) }
{
    thing_of(left).filter(|t| is_written_to(*t))
}

/// The left side of an assignment: where it stands, and what it was found to be.
#[derive(Clone, Copy)]
pub struct Target {
    pub span: Span,
    pub found: Result<Found, Failure>,
}

/// What is wrong with an assignment at a span, by an operator or not.
pub fn assignment_failure(
    op: Option<BinaryOp>,
    span: Span,
    left: Target,
    right: Result<Found, Failure>,
) -> Option<Failure>
    ensures { result ≡ assigned op span left right }
{
    if assignment_breaks(op, written_type(left.found), thing_of(right)) {
        return Some(at(TypeCode::TY3, span));
    }
    match left.found {
        Err(failure) => Some(failure),
        Ok(found) => {
            if is_written_to(found.thing) {
                right.err()
            } else {
                Some(at(TypeCode::TY5, left.span))
            }
        }
    }
}

/// Whether a test of a statement that begins at a span is no number and no pointer.
pub fn tested(span: Span, found: Result<Found, Failure>) -> Option<Failure>
    ensures { result ≡ tested_by span found }
{
    match found {
        Ok(found) => {
            if is_scalar(found.thing) {
                None
            } else {
                Some(at(TypeCode::TY3, span))
            }
        }
        Err(_) => None,
    }
}

/// Whether the value of a `switch` that begins at a span is no integer.
pub fn switched(span: Span, found: Result<Found, Failure>) -> Option<Failure>
    ensures { result ≡ valued span found }
{
    match found {
        Ok(found) => {
            if is_integer(found.thing) {
                None
            } else {
                Some(at(TypeCode::TY3, span))
            }
        }
        Err(_) => None,
    }
}

/// A function that gives nothing.
fn is_void(thing: ThingType) -> bool
    ensures { result ≡ spec_is_void thing }
{
    match thing.kind {
        Kind::Void => true,
        _ => false,
    }
}

/// What is wrong with a `return` at a span, from a function that gives a result, with a value or without.
pub fn return_failure(
    gives: ThingType,
    span: Span,
    value: Option<Result<Found, Failure>>,
) -> Option<Failure>
    ensures { result ≡ returned gives span value }
{
    match value {
        None => if is_void(gives) {
            None
        } else {
            Some(at(TypeCode::TY8, span))
        },
        Some(Ok(found)) => if !is_void(gives) && goes_to(found.thing, gives) {
            None
        } else {
            Some(at(TypeCode::TY8, span))
        },
        Some(Err(failure)) => if is_void(gives) {
            Some(at(TypeCode::TY8, span))
        } else {
            Some(failure)
        },
    }
}
