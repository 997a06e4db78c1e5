//! What expressions mean, as far as they may tell an answer (C11 6.5).
ghost use Rattle.std.specs.Prelude.{◌≡◌, Ok};
ghost use Rattle.tsa_core.specs.Meanings.{meaning, name_term, null_pointer, of_call, of_field, of_name, of_type, to_member};
ghost use Rattle.tsa_core.specs.Meanings.{unknown as spec_unknown};
ghost use Rattle.tsa_tree.specs.expressions.Shapes.{shape};
ghost use Rattle.tsa_tree.specs.types.Constants.{number_value as spec_number_value};
ghost use Rattle.tsa_tree.specs.types.Expressions.{number_type as spec_number_type};
ghost use Rattle.tsa_tree.specs.types.Operands.{element_type as spec_element_type};
ghost use Rattle.tsa_rules_roles.specs.declared.worth.Worth.TheVariants as worth;
ghost use Rattle.tsa_rules_roles.specs.Worths.{binary_gist, binary_worth as spec_binary_worth, gist_of, prefix_gist, worth_beside};
ghost use Rattle.tsa_rules_roles.specs.Worths.{worth_of};

use crate::worth::{Worth, joined_worth, prefix_worth};
use tsa_tree::expr::{BinaryOp, Expr, ExprKind, UnaryOp};
use tsa_tree::kind::{ExpressionType, Kind, ThingType};
use tsa_tree::meaning::{Entry, Meaning};
use tsa_tree::number::Number;
use tsa_types_expressions::{
    entry_type, member_type, number_type, number_value, owner, result_type,
};
use tsa_types_operators::{
    binary_type, element_type, is_integer_kind, is_pointer_kind, prefix_type, value,
};
use tsa_types_scope::Scope;

/// The type of an expression, and what its value is.
#[derive(Clone, Copy)]
pub struct Gist {
    pub expression: ExpressionType,
    pub worth: Worth,
}

impl Gist {
    /// What the value is beside one of a kind: beside a pointer the number 0 is null (C11 6.5.9p5).
    pub fn beside(self, other: Kind) -> Worth
        ensures { result ≡ worth_beside other self }
    {
        if is_pointer_kind(other) && is_integer_kind(self.expression.thing.kind) {
            Worth::Null
        } else {
            self.worth
        }
    }
}

/// What isn't known, and `NULL`.
fn unknown() -> Gist
    ensures { result ≡ gist_of spec_unknown }
{
    Gist {
        expression: value(Kind::Null),
        worth: Worth::Null,
    }
}

/// A number.
fn number(value: u32, unsigned: bool) -> Gist
    ensures { result ≡ record { expression = spec_number_type value unsigned; worth = worth.Number (Ok (spec_number_value value unsigned)) } }
{
    Gist {
        expression: number_type(value, unsigned),
        worth: Worth::Number(Ok(number_value(value, unsigned))),
    }
}

/// The value of what a name means.
fn meant(meaning: Meaning) -> Worth
    ensures { result ≡ worth_of (name_term meaning) }
{
    match meaning {
        Meaning::Global(_) => Worth::Other,
        Meaning::Local(number) => Worth::Local(number),
        Meaning::Constant(number) => Worth::Number(Ok(Number::Int(number))),
        Meaning::Function(_) | Meaning::Owned | Meaning::TypeName => Worth::Null,
    }
}

/// What a name stands for.
fn named(entry: Option<Entry>) -> Gist
    ensures { result ≡ gist_of (of_name entry) }
{
    match entry {
        Some(entry) => Gist {
            expression: entry_type(entry),
            worth: meant(entry.meaning),
        },
        None => unknown(),
    }
}

/// What a call gives.
fn called(entry: Option<Entry>) -> Gist
    ensures { result ≡ gist_of (of_call entry) }
{
    match entry {
        Some(entry) => Gist {
            expression: result_type(entry),
            worth: Worth::Call,
        },
        None => unknown(),
    }
}

/// What a prefix operator gives.
fn prefixed(op: UnaryOp, inner: Gist) -> Gist
    ensures { result ≡ prefix_gist op inner }
{
    Gist {
        expression: prefix_type(op, inner.expression),
        worth: prefix_worth(op, inner.worth),
    }
}

/// The value that a binary operator gives: `==` and `!=` take the number 0 beside a pointer for null.
fn binary_worth(op: BinaryOp, left: Gist, right: Gist) -> Worth
    ensures { result ≡ spec_binary_worth op left right }
{
    match op {
        BinaryOp::Equal | BinaryOp::Unequal => {
            let first = left.beside(right.expression.thing.kind);
            let second = right.beside(left.expression.thing.kind);
            joined_worth(op, first, second)
        }
        _ => joined_worth(op, left.worth, right.worth),
    }
}

/// What a binary operator gives.
fn joined(op: BinaryOp, left: Gist, right: Gist) -> Gist
    ensures { result ≡ binary_gist op left right }
{
    Gist {
        expression: binary_type(op, left.expression, right.expression),
        worth: binary_worth(op, left, right),
    }
}

/// A member of what has a type, behind a point or an arrow.
fn member(arrow: bool, base: ExpressionType, member: Option<(usize, ThingType)>) -> Gist
    ensures { result ≡ gist_of (to_member arrow (of_type null_pointer base) member) }
{
    match member {
        Some((_, thing)) => Gist {
            expression: member_type(arrow, base, thing),
            worth: Worth::Other,
        },
        None => unknown(),
    }
}

/// The same by its name.
fn field(scope: &Scope<'_>, arrow: bool, name: &[u8], base: ExpressionType) -> Gist
    ensures { result ≡ gist_of (of_field scope.now arrow name.now (of_type null_pointer base)) }
{
    match owner(arrow, base) {
        Some(structure) => member(arrow, base, scope.find_member(structure, name)),
        None => unknown(),
    }
}

/// An element of an array.
fn element(base: ExpressionType) -> Gist
    ensures { result ≡ record { expression = spec_element_type base; worth = worth.Other } }
{
    Gist {
        expression: element_type(base),
        worth: Worth::Other,
    }
}

/// The type of an expression, and what its value is. The recursion is as deep as the tree is high.
#[tactic(auto, using(crate::proofs::Gists::gists), unfolding(tsa_core::specs::Meanings::meaning))]
pub fn gist_at(scope: &Scope<'_>, expr: &Expr<'_>) -> Gist
    ensures { result ≡ gist_of (meaning scope.now (shape expr.now)) }
{
    match &expr.kind {
        ExprKind::Number { value, unsigned } => number(*value, *unsigned),
        ExprKind::Null => unknown(),
        ExprKind::Named(name) => named(scope.known(name.text)),
        ExprKind::Call { callee, .. } => called(scope.known(callee.text)),
        ExprKind::Unary { op, inner } => prefixed(*op, gist_at(scope, inner)),
        ExprKind::Binary { op, left, right } => {
            let left = gist_at(scope, left);
            let right = gist_at(scope, right);
            joined(*op, left, right)
        }
        ExprKind::Field { base, name, arrow } => {
            let base = gist_at(scope, base);
            field(scope, *arrow, name.text, base.expression)
        }
        ExprKind::Index { base, .. } => element(gist_at(scope, base).expression),
    }
}
