//! The rules of operators, asked operand by operand, and the types of what they give (C11 6.5).
ghost use Rattle.std.specs.Prelude.{◌≡◌, not};
ghost use Rattle.tsa_tree.specs.types.Operands.{lacks, is_integer as spec_is_integer, either_unsigned, breaks_prefix as spec_breaks_prefix};
ghost use Rattle.tsa_tree.specs.types.Operands.{breaks_binary as spec_breaks_binary, breaks_index as spec_breaks_index};
ghost use Rattle.tsa_tree.specs.types.Operands.{breaks_integers as spec_integers, breaks_bits as spec_bits, address_of as spec_address};
ghost use Rattle.tsa_tree.specs.types.Operands.{followed as spec_followed, prefix_type as spec_prefix_type, common as spec_common};
ghost use Rattle.tsa_tree.specs.types.Operands.{common_type, binary_type as spec_binary_type, breaks_comparison as spec_comparison};
ghost use Rattle.tsa_tree.specs.types.Operands.{is_scalar as spec_is_scalar};

use crate::values::{
    comparable, is_array, is_integer, is_scalar, is_struct_place, is_unsigned, place, single,
    target, value,
};
use tsa_tree::expr::{BinaryOp, UnaryOp};
use tsa_tree::kind::{ExpressionType, Kind, ThingType};

/// Whether an operand that has a type breaks the rule of a prefix operator (C11 6.5.3.2p1, 6.5.3.3p1).
pub fn breaks_prefix(op: UnaryOp, operand: Option<ExpressionType>) -> bool
    ensures { result ≡ spec_breaks_prefix op operand }
{
    let Some(t) = operand else {
        return false;
    };
    match op {
        UnaryOp::Minus => !is_integer(t),
        UnaryOp::Not => !is_scalar(t),
        UnaryOp::Flip => !is_unsigned(t),
        UnaryOp::Address => !is_struct_place(t),
        UnaryOp::Follow => target(t).is_none(),
    }
}

/// Whether an operand that has a type is no integer.
fn isnt_integer(operand: Option<ExpressionType>) -> bool
    ensures { result ≡ lacks spec_is_integer operand }
{
    operand.is_some_and(|t| !is_integer(t))
}

/// Whether an operand that has a type is no integer and no pointer.
fn isnt_scalar(operand: Option<ExpressionType>) -> bool
    ensures { result ≡ lacks spec_is_scalar operand }
{
    operand.is_some_and(|t| !is_scalar(t))
}

/// Whether one of two operands that have types is no integer, as arithmetic and orders need (C11 6.5.5p2, 6.5.6, 6.5.8p2).
fn breaks_integers(left: Option<ExpressionType>, right: Option<ExpressionType>) -> bool
    ensures { result ≡ spec_integers left right }
{
    isnt_integer(left) || isnt_integer(right)
}

/// Whether one of two operands that have types is no integer and no pointer, as `||` and `&&` need (C11 6.5.13p2, 6.5.14p2).
fn breaks_scalars(left: Option<ExpressionType>, right: Option<ExpressionType>) -> bool
    ensures { result ≡ spec_breaks_binary BinaryOp.Or left right }
{
    isnt_scalar(left) || isnt_scalar(right)
}

/// Whether one of two operands is no integer, or their common type isn't `unsigned`: the bits of `int` are left to the
/// implementation (C11 6.5p4).
fn breaks_bits(left: Option<ExpressionType>, right: Option<ExpressionType>) -> bool
    ensures { result ≡ spec_bits left right }
{
    if breaks_integers(left, right) {
        return true;
    }
    match (left, right) {
        (Some(a), Some(b)) => !(is_unsigned(a) || is_unsigned(b)),
        _ => false,
    }
}

/// Whether one of two operands is no integer and no pointer, or both can't be compared (C11 6.5.9p2).
fn breaks_comparison(left: Option<ExpressionType>, right: Option<ExpressionType>) -> bool
    ensures { result ≡ spec_comparison left right }
{
    if breaks_scalars(left, right) {
        return true;
    }
    match (left, right) {
        (Some(a), Some(b)) => !comparable(a, b),
        _ => false,
    }
}

/// Whether operands that have types break the rule of a binary operator (C11 6.5.5 to 6.5.14).
pub fn breaks_binary(
    op: BinaryOp,
    left: Option<ExpressionType>,
    right: Option<ExpressionType>,
) -> bool
    ensures { result ≡ spec_breaks_binary op left right }
{
    match op {
        BinaryOp::Or | BinaryOp::And => breaks_scalars(left, right),
        BinaryOp::BitOr | BinaryOp::BitXor | BinaryOp::BitAnd => breaks_bits(left, right),
        BinaryOp::Equal | BinaryOp::Unequal => breaks_comparison(left, right),
        _ => breaks_integers(left, right),
    }
}

/// Whether what is indexed is no array, or the index no integer, where they have types (C11 6.5.2.1p1).
pub fn breaks_index(base: Option<ExpressionType>, at: Option<ExpressionType>) -> bool
    ensures { result ≡ spec_breaks_index base at }
{
    base.is_some_and(|t| !is_array(t)) || isnt_integer(at)
}

/// The kind of `&` before a place of a struct: a pointer, to `const` where the place is (C11 6.5.3.2p3).
fn address_of(thing: ThingType) -> Kind
    ensures { result ≡ spec_address thing }
{
    match thing.kind {
        Kind::Structure(target) => Kind::Pointer {
            target,
            to_const: thing.is_const,
        },
        kind => kind,
    }
}

/// The type of `*` before a pointer: the struct that it points to (C11 6.5.3.2p4).
fn followed(kind: Kind) -> ThingType
    ensures { result ≡ spec_followed kind }
{
    match kind {
        Kind::Pointer { target, to_const } => single(Kind::Structure(target), to_const),
        kind => single(kind, false),
    }
}

/// The type of a prefix operator before an operand that keeps its rule (C11 6.5.3).
pub fn prefix_type(op: UnaryOp, t: ExpressionType) -> ExpressionType
    ensures { result ≡ spec_prefix_type op t }
{
    match op {
        UnaryOp::Minus | UnaryOp::Flip => value(t.thing.kind),
        UnaryOp::Not => value(Kind::Int),
        UnaryOp::Address => value(address_of(t.thing)),
        UnaryOp::Follow => place(followed(t.thing.kind)),
    }
}

/// The type that both integers are converted to: `unsigned` where one is (C11 6.3.1.8p1).
fn common(left: Kind, right: Kind) -> Kind
    ensures { result ≡ spec_common left right }
{
    match left {
        Kind::Unsigned => Kind::Unsigned,
        _ => right,
    }
}

/// The type of a binary operator between operands that keep its rule: that of a test is `int` (C11 6.5.8p6, 6.5.9p3), any other
/// has the common type.
pub fn binary_type(op: BinaryOp, left: ExpressionType, right: ExpressionType) -> ExpressionType
    ensures { result ≡ spec_binary_type op left right }
{
    match op {
        BinaryOp::Or | BinaryOp::And | BinaryOp::Equal | BinaryOp::Unequal => { value(Kind::Int) }
        BinaryOp::Less | BinaryOp::More | BinaryOp::LessEqual | BinaryOp::MoreEqual => {
            value(Kind::Int)
        }
        _ => value(common(left.thing.kind, right.thing.kind)),
    }
}
