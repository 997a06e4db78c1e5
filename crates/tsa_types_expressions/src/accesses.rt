//! Members by their names, and calls by their arguments (C11 6.5.2.2, 6.5.2.3).
ghost use Rattle.std.specs.Prelude.{◌≡◌, ◌||◌};
ghost use Rattle.tsa_types_expressions.specs.Found.{field_constant as spec_field_constant};
ghost use Rattle.tsa_types_expressions.specs.Parts.{member_part, call_part, worse as spec_worse};
ghost use Rattle.tsa_tree.specs.types.Expressions.{owner as spec_owner, const_base as spec_const_base, member_type as spec_member_type};
ghost use Rattle.tsa_tree.specs.types.Expressions.{function_of as spec_function_of};
ghost use Rattle.tsa_tree.specs.types.Premises.{or_else};

use crate::constants::{Constant, Found, called};
use crate::verdicts::at;
use tsa_base::Span;
use tsa_tree::kind::{ExpressionType, Kind, ThingType};
use tsa_tree::meaning::{Entry, Meaning};
use tsa_tree::premise::{Failure, TypeCode};
use tsa_types_operators::{goes_to, struct_of, target};

/// The struct whose member stands behind a point or an arrow.
pub fn owner(arrow: bool, t: ExpressionType) -> Option<u32>
    ensures { result ≡ spec_owner arrow t }
{
    if arrow { target(t) } else { struct_of(t) }
}

/// Whether what has the member is constant.
fn const_base(arrow: bool, t: ExpressionType) -> bool
    ensures { result ≡ spec_const_base arrow t }
{
    if !arrow {
        return t.thing.is_const;
    }
    match t.thing.kind {
        Kind::Pointer { to_const, .. } => to_const,
        _ => false,
    }
}

/// The type of a member: what is constant hands that on.
pub fn member_type(arrow: bool, t: ExpressionType, member: ThingType) -> ExpressionType
    ensures { result ≡ spec_member_type arrow t member }
{
    ExpressionType {
        thing: ThingType {
            kind: member.kind,
            length: member.length,
            is_const: member.is_const || const_base(arrow, t),
        },
        is_place: arrow || t.is_place,
        is_zero: false,
    }
}

/// A member of a place of a global is one.
fn field_constant(arrow: bool, base: Constant) -> Constant
    ensures { result ≡ spec_field_constant arrow base }
{
    match (arrow, base) {
        (false, Constant::Place(number)) => Constant::Place(number),
        (true, Constant::Address(number)) => Constant::Place(number),
        _ => Constant::Other,
    }
}

/// A member that its owner has, or that is asked for at its own name.
pub fn member_verdict(
    name: Span,
    arrow: bool,
    base: Found,
    member: Option<ThingType>,
) -> Result<Found, Failure>
    ensures { result ≡ member_part name arrow base member }
{
    match member {
        Some(member) => Ok(Found {
            thing: member_type(arrow, base.thing, member),
            constant: field_constant(arrow, base.constant),
        }),
        None => Err(at(TypeCode::TY1, name)),
    }
}

/// What arguments come to: whether one can't go to its parameter, whether there are as many as parameters, and the first
/// premise that fails in them.
#[derive(Clone, Copy)]
pub struct Arguments {
    pub breaks: bool,
    pub miscounts: bool,
    pub failure: Option<Failure>,
}

/// The function that a name means.
pub fn function_of(entry: Entry) -> Option<u32>
    ensures { result ≡ spec_function_of entry.meaning }
{
    match entry.meaning {
        Meaning::Function(number) => Some(number),
        _ => None,
    }
}

/// A call: first what its own premises say, and then those of its arguments.
pub fn call_verdict(
    name: Span,
    span: Span,
    entry: Option<Entry>,
    arguments: Arguments,
) -> Result<Found, Failure>
    ensures { result ≡ call_part name span entry arguments }
{
    let Some(entry) = entry else {
        return Err(at(TypeCode::TY1, name));
    };
    if function_of(entry).is_none() || arguments.breaks {
        return Err(at(TypeCode::TY3, span));
    }
    if arguments.miscounts {
        return Err(at(TypeCode::TY4, span));
    }
    match arguments.failure {
        Some(failure) => Err(failure),
        None => Ok(called(entry)),
    }
}

/// Whether an argument can't go to its parameter, where there is one, or one before it can't.
pub fn worse(breaks: bool, argument: Result<Found, Failure>, param: Option<ThingType>) -> bool
    ensures { result ≡ (breaks || spec_worse argument param) }
{
    match (argument, param) {
        (Ok(found), Some(param)) => breaks || !goes_to(found.thing, param),
        _ => breaks,
    }
}

/// The first of two failures.
pub fn first_of(failure: Option<Failure>, other: Option<Failure>) -> Option<Failure>
    ensures { result ≡ or_else failure other }
{
    match failure {
        Some(failure) => Some(failure),
        None => other,
    }
}
