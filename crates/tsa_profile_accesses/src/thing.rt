//! What expressions are: their types, and whether they stand for places.
ghost use Rattle.std.specs.Prelude.{◌≡◌, ◌&&◌};
ghost use Rattle.tsa_core.specs.Meanings.{is_cell as spec_is_cell, of_call, of_name, of_prefix, to_member};
ghost use Rattle.tsa_tree.specs.types.Operands.{binary_type as spec_binary_type};
ghost use Rattle.tsa_tree.specs.declared.kind.Kind.TheVariants as type;
ghost use Rattle.tsa_tree.specs.types.Types.{value as spec_value};
ghost use Rattle.tsa_profile_accesses.specs.ExpressionViews.{thing_of, typed, value_of};

use tsa_tree::expr::{BinaryOp, UnaryOp};
use tsa_tree::kind::{ExpressionType, Kind, ThingType};
use tsa_tree::meaning::{Entry, Meaning};
use tsa_types_expressions::{entry_type, member_type, result_type};
use tsa_types_operators::{binary_type, prefix_type, value};

/// What an expression is: its type, and whether it stands for a place: a local is none.
#[derive(Clone, Copy)]
pub struct Thing {
    pub expression: ExpressionType,
    pub is_place: bool,
}

/// Whether a place of a type is a cell: neither a struct nor an array is one.
fn is_cell(thing: ThingType) -> bool
    ensures { result ≡ spec_is_cell thing }
{
    thing.length.is_none() && !matches!(thing.kind, Kind::Structure(_))
}

/// Whether the value of a thing is read from a cell.
pub fn is_loaded(thing: Thing) -> bool
    ensures { result ≡ (thing.is_place && spec_is_cell thing.expression.thing) }
{
    thing.is_place && is_cell(thing.expression.thing)
}

/// A value of a type.
pub fn value_thing(expression: ExpressionType) -> Thing
    ensures { result ≡ value_of expression }
{
    Thing {
        expression,
        is_place: false,
    }
}

/// What isn't known.
fn unknown() -> Thing
    ensures { result ≡ value_of (spec_value type.Null) }
{
    value_thing(value(Kind::Null))
}

/// What a name stands for.
pub fn named_thing(entry: Option<Entry>) -> Thing
    ensures { result ≡ thing_of (of_name entry) }
{
    match entry {
        Some(entry) => Thing {
            expression: entry_type(entry),
            is_place: matches!(entry.meaning, Meaning::Global(_)),
        },
        None => unknown(),
    }
}

/// What a call gives.
pub fn called_thing(entry: Option<Entry>) -> Thing
    ensures { result ≡ thing_of (of_call entry) }
{
    match entry {
        Some(entry) => value_thing(result_type(entry)),
        None => unknown(),
    }
}

/// What a prefix operator gives.
pub fn prefix_thing(op: UnaryOp, inner: ExpressionType) -> Thing
    ensures { result ≡ thing_of (of_prefix op (typed inner)) }
{
    Thing {
        expression: prefix_type(op, inner),
        is_place: matches!(op, UnaryOp::Follow),
    }
}

/// What a binary operator gives.
pub fn binary_thing(op: BinaryOp, left: ExpressionType, right: ExpressionType) -> Thing
    ensures { result ≡ value_of (spec_binary_type op left right) }
{
    value_thing(binary_type(op, left, right))
}

/// A member of a thing, behind a point or an arrow.
pub fn member_thing(arrow: bool, base: ExpressionType, member: Option<(usize, ThingType)>) -> Thing
    ensures { result ≡ thing_of (to_member arrow (typed base) member) }
{
    match member {
        Some((_, thing)) => Thing {
            expression: member_type(arrow, base, thing),
            is_place: true,
        },
        None => unknown(),
    }
}
