//! Nodes as they are written in few bytes, where nothing of them is large.
ghost use Rattle.std.specs.Prelude.{◌≡◌, ◌+◌, ◌<◌, ◌^◌, None, Some, IfSome};
ghost use Rattle.tsa_types_row.specs.Rows.{sized};
ghost use Rattle.tsa_types_row.specs.declared.node.Op.TheVariants.{Name};
ghost use Rattle.tsa_types_row.specs.ShortNodes.{array, bearing, constant, node_in, op_in, standing, thing_in, worth_in};

use crate::node::{Node, Op};
use crate::short::{Form, Role, ShortNode, ShortOp, ShortType};
use tsa_base::Span;
use tsa_tree::kind::{ExpressionType, Kind, ThingType};
use tsa_tree::meaning::Symbol;
use tsa_tree::number::Number;

/// What bears a symbol in a role, in short.
fn short_symbol(role: Role, symbol: Symbol) -> Option<ShortOp>
    ensures { IfSome result (λ short. op_in short ≡ bearing role symbol) }
{
    match symbol {
        Symbol::Global(number) => Some(ShortOp::Global { role, number }),
        Symbol::Local { function, number } => Some(ShortOp::Local {
            role,
            function: u16::try_from(function).ok()?,
            number,
        }),
        Symbol::Function(number) => Some(ShortOp::Function { role, number }),
        Symbol::Constant(value) => Some(ShortOp::Constant { role, value }),
    }
}

/// A name, in short.
fn short_name(symbol: Option<Symbol>, is_fixed: bool) -> Option<ShortOp>
    ensures { IfSome result (λ short. op_in short ≡ Name symbol is_fixed) }
{
    let role = if is_fixed {
        Role::FixedName
    } else {
        Role::Name
    };
    short_symbol(role, symbol?)
}

/// What a node is, in short.
fn short_op(op: &Op) -> Option<ShortOp>
    ensures { IfSome result (λ short. op_in short ≡ op.now) }
{
    Some(match *op {
        Op::Number => ShortOp::Number,
        Op::Null => ShortOp::Null,
        Op::Index => ShortOp::Index,
        Op::Aside => ShortOp::Aside,
        Op::Evaluate => ShortOp::Evaluate,
        Op::Branch => ShortOp::Branch,
        Op::Move => ShortOp::Move,
        Op::End => ShortOp::End,
        Op::Name { symbol, is_fixed } => return short_name(symbol, is_fixed),
        Op::Callee(symbol) => return short_symbol(Role::Callee, symbol?),
        Op::Declared(symbol) => return short_symbol(Role::Declared, symbol),
        Op::Call { function, args } => ShortOp::Call {
            args: u16::try_from(args).ok()?,
            function,
        },
        Op::Unary(op) => ShortOp::Unary(op),
        Op::Binary(op) => ShortOp::Binary(op),
        Op::Field {
            arrow,
            number,
            is_fixed,
        } => ShortOp::Field {
            arrow,
            is_fixed,
            number: u32::try_from(number).ok()?,
        },
        Op::Declare { local, has_value } => ShortOp::Declare { has_value, local },
        Op::Set(op) => ShortOp::Set(op),
        Op::Test { given } => ShortOp::Test { given },
        Op::Give { given } => ShortOp::Give { given },
    })
}

/// A type that is no array's, in short.
fn short_standing(kind: Kind, form: Form) -> ShortType
    ensures thing { thing_in result ≡ standing kind form }
    ensures worth { worth_in result ≡ None }
{
    match kind {
        Kind::Int => ShortType::Int(form),
        Kind::Unsigned => ShortType::Unsigned(form),
        Kind::Void => ShortType::Void(form),
        Kind::Null => ShortType::Null(form),
        Kind::Function => ShortType::Function(form),
        Kind::Structure(number) => ShortType::Structure { form, number },
        Kind::Pointer { target, to_const } => {
            if to_const {
                ShortType::PointerToConst { form, target }
            } else {
                ShortType::Pointer { form, target }
            }
        }
    }
}

/// An array's type, in short.
fn short_array(kind: Kind, length: u32, is_const: bool) -> Option<ShortType>
    ensures thing { IfSome result (λ short. thing_in short ≡ array kind length is_const) }
    ensures worth { IfSome result (λ short. worth_in short ≡ None) }
{
    match kind {
        Kind::Int => Some(ShortType::Ints { is_const, length }),
        Kind::Structure(number) => Some(ShortType::Structures {
            is_const,
            number: u16::try_from(number).ok()?,
            length,
        }),
        _ => None,
    }
}

/// A constant with its type, in short.
fn short_constant(kind: Kind, is_zero: bool, worth: Number) -> Option<ShortType>
    ensures thing { IfSome result (λ short. thing_in short ≡ constant kind is_zero) }
    ensures worth { IfSome result (λ short. worth_in short ≡ Some worth) }
{
    match (kind, worth) {
        (Kind::Int, Number::Int(value)) => Some(ShortType::IntWorth { is_zero, value }),
        (Kind::Unsigned, Number::Unsigned(value)) => {
            Some(ShortType::UnsignedWorth { is_zero, value })
        }
        _ => None,
    }
}

/// A type with the constant that a node of it is worth, in short.
fn short_type(thing: &ExpressionType, worth: Option<Number>) -> Option<ShortType>
    ensures thing { IfSome result (λ short. thing_in short ≡ thing.now) }
    ensures worth { IfSome result (λ short. worth_in short ≡ worth) }
{
    let ThingType {
        kind,
        length,
        is_const,
    } = thing.thing;
    match (length, worth) {
        (None, None) => Some(short_standing(
            kind,
            Form {
                is_const,
                is_place: thing.is_place,
                is_zero: thing.is_zero,
            },
        )),
        (Some(length), None) => {
            if !thing.is_place || thing.is_zero {
                return None;
            }
            short_array(kind, length, is_const)
        }
        (None, Some(worth)) => {
            if is_const || thing.is_place {
                return None;
            }
            short_constant(kind, thing.is_zero, worth)
        }
        _ => None,
    }
}

/// How long what stands somewhere is, where that is short.
fn short_length(span: Span) -> Option<u16>
    ensures end { IfSome result (λ length. span.from + length ≡ span.to) }
    ensures in_text { IfSome result (λ length. span.from + length < 2 ^ 32) }
{
    u16::try_from(span.to.checked_sub(span.from)?).ok()
}

/// A node, in short.
pub(crate) fn short_node(node: &Node, size: usize) -> Option<ShortNode>
    ensures { IfSome result (λ short. node_in short ≡ sized size node.now) }
{
    Some(ShortNode {
        op: short_op(&node.op)?,
        thing: short_type(&node.thing, node.worth)?,
        from: node.span.from,
        length: short_length(node.span)?,
        size: u16::try_from(size).ok()?,
    })
}
