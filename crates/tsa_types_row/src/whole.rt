//! Nodes that were written in few bytes, in full.
ghost use Rattle.std.specs.Prelude.{◌≡◌};
ghost use Rattle.tsa_tree.specs.declared.meaning.Symbol.TheVariants.{Local};
ghost use Rattle.tsa_types_row.specs.ShortNodes.{array, bearing, constant, node_in, op_in, standing, thing_in, worth_in};

use crate::node::{Node, Op};
use crate::short::{Form, Role, ShortNode, ShortOp, ShortType};
use tsa_base::Span;
use tsa_tree::kind::{ExpressionType, Kind, ThingType};
use tsa_tree::meaning::Symbol;
use tsa_tree::number::Number;

impl Role {
    /// What a symbol is borne by.
    fn op(self, symbol: Symbol) -> Op
        ensures { result ≡ bearing self symbol }
    {
        match self {
            Role::Name => Op::Name {
                symbol: Some(symbol),
                is_fixed: false,
            },
            Role::FixedName => Op::Name {
                symbol: Some(symbol),
                is_fixed: true,
            },
            Role::Callee => Op::Callee(Some(symbol)),
            Role::Declared => Op::Declared(symbol),
        }
    }
}

/// A local of a function.
fn local(function: u16, number: u32) -> Symbol
    ensures { result ≡ Local function number }
{
    Symbol::Local {
        function: u32::from(function),
        number,
    }
}

impl ShortOp {
    /// What it is in full.
    pub(crate) fn whole(self) -> Op
        ensures { result ≡ op_in self }
    {
        match self {
            ShortOp::Number => Op::Number,
            ShortOp::Null => Op::Null,
            ShortOp::Index => Op::Index,
            ShortOp::Aside => Op::Aside,
            ShortOp::Evaluate => Op::Evaluate,
            ShortOp::Branch => Op::Branch,
            ShortOp::Move => Op::Move,
            ShortOp::End => Op::End,
            ShortOp::Global { role, number } => role.op(Symbol::Global(number)),
            ShortOp::Local {
                role,
                function,
                number,
            } => role.op(local(function, number)),
            ShortOp::Function { role, number } => role.op(Symbol::Function(number)),
            ShortOp::Constant { role, value } => role.op(Symbol::Constant(value)),
            ShortOp::Call { args, function } => Op::Call {
                function,
                args: usize::from(args),
            },
            ShortOp::Unary(op) => Op::Unary(op),
            ShortOp::Binary(op) => Op::Binary(op),
            ShortOp::Field {
                arrow,
                is_fixed,
                number,
            } => Op::Field {
                arrow,
                number: number as usize,
                is_fixed,
            },
            ShortOp::Declare { has_value, local } => Op::Declare { local, has_value },
            ShortOp::Set(op) => Op::Set(op),
            ShortOp::Test { given } => Op::Test { given },
            ShortOp::Give { given } => Op::Give { given },
        }
    }
}

impl Form {
    /// A type that is no array's and stands so.
    fn of(self, kind: Kind) -> ExpressionType
        ensures { result ≡ standing kind self }
    {
        ExpressionType {
            thing: ThingType {
                kind,
                length: None,
                is_const: self.is_const,
            },
            is_place: self.is_place,
            is_zero: self.is_zero,
        }
    }
}

/// An array's type in full.
fn array_of(kind: Kind, length: u32, is_const: bool) -> ExpressionType
    ensures { result ≡ array kind length is_const }
{
    ExpressionType {
        thing: ThingType {
            kind,
            length: Some(length),
            is_const,
        },
        is_place: true,
        is_zero: false,
    }
}

/// A constant's type in full.
fn constant_of(kind: Kind, is_zero: bool) -> ExpressionType
    ensures { result ≡ constant kind is_zero }
{
    ExpressionType {
        thing: ThingType {
            kind,
            length: None,
            is_const: false,
        },
        is_place: false,
        is_zero,
    }
}

impl ShortType {
    /// The type in full.
    fn thing(self) -> ExpressionType
        ensures { result ≡ thing_in self }
    {
        match self {
            ShortType::Int(form) => form.of(Kind::Int),
            ShortType::Unsigned(form) => form.of(Kind::Unsigned),
            ShortType::Void(form) => form.of(Kind::Void),
            ShortType::Null(form) => form.of(Kind::Null),
            ShortType::Function(form) => form.of(Kind::Function),
            ShortType::Structure { form, number } => form.of(Kind::Structure(number)),
            ShortType::Pointer { form, target } => form.of(Kind::Pointer {
                target,
                to_const: false,
            }),
            ShortType::PointerToConst { form, target } => form.of(Kind::Pointer {
                target,
                to_const: true,
            }),
            ShortType::IntWorth { is_zero, .. } => constant_of(Kind::Int, is_zero),
            ShortType::UnsignedWorth { is_zero, .. } => constant_of(Kind::Unsigned, is_zero),
            ShortType::Ints { is_const, length } => array_of(Kind::Int, length, is_const),
            ShortType::Structures {
                is_const,
                number,
                length,
            } => array_of(Kind::Structure(u32::from(number)), length, is_const),
        }
    }

    /// The constant that a node of it is worth.
    fn worth(self) -> Option<Number>
        ensures { result ≡ worth_in self }
    {
        match self {
            ShortType::IntWorth { value, .. } => Some(Number::Int(value)),
            ShortType::UnsignedWorth { value, .. } => Some(Number::Unsigned(value)),
            _ => None,
        }
    }
}

impl ShortNode {
    /// Where it stands.
    pub(crate) fn span(self) -> Span
        ensures { result ≡ (node_in self).span }
    {
        Span {
            from: self.from,
            to: self.from + u32::from(self.length),
        }
    }

    /// The node in full.
    pub(crate) fn whole(self) -> Node
        ensures { result ≡ node_in self }
    {
        Node {
            op: self.op.whole(),
            thing: self.thing.thing(),
            worth: self.thing.worth(),
            size: usize::from(self.size),
            span: self.span(),
        }
    }
}
