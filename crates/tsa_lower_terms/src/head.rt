//! Terms by their heads: what a node says of the term of its part.
ghost use Rattle.std.specs.Prelude.{◌≡◌};
ghost use Rattle.tsa_core.specs.Meanings.{is_cell as spec_is_cell, of_number};
ghost use Rattle.tsa_lower_terms.specs.Heads.{head_is_place, null_type as spec_null_type, number_head as spec_number_head, prefix_head as spec_prefix_head};
ghost use Rattle.tsa_lower_terms.specs.Heads.{op_head, node_type, passed as spec_passed, symbol_head as spec_symbol_head, taken as spec_taken};

use tsa_base::Value;
use tsa_tree::expr::{BinaryOp, UnaryOp};
use tsa_tree::kind::{ExpressionType, Kind, ThingType};
use tsa_tree::meaning::Symbol;
use tsa_tree::number::Number;
use tsa_types_row::{Node, Op};

/// What a term is before its parts.
#[derive(Clone, Copy)]
pub enum Head {
    /// A value that is known.
    Constant(Value),
    /// The value of a local.
    Variable(u32),
    /// The answer of a call of a function by its number with so many arguments.
    Answer { function: u32, args: usize },
    /// The place of a global.
    Global(u32),
    /// The place of a member of its part, or of what that leads to.
    Member { arrow: bool, number: usize },
    /// The place of an element: its parts are the array and the index.
    Element,
    /// The place that its part leads to.
    Target,
    /// A pointer to its part.
    Address,
    /// An operator on its part.
    Prefixed(UnaryOp),
    /// An operator between its parts.
    Joined(BinaryOp),
}

/// The value of a number.
pub(crate) fn value_of(number: Number) -> Value
    ensures { result ≡ of_number number }
{
    match number {
        Number::Int(z) => Value::Int(z),
        Number::Unsigned(n) => Value::Unsigned(n),
    }
}

/// The head of a number that is known, or isn't.
fn number_head(worth: Option<Number>) -> Head
    ensures { result ≡ spec_number_head worth }
{
    match worth {
        Some(number) => Head::Constant(value_of(number)),
        None => Head::Constant(Value::Pointer(None)),
    }
}

/// The head of a name.
fn symbol_head(symbol: Option<Symbol>) -> Head
    ensures { result ≡ spec_symbol_head symbol }
{
    match symbol {
        Some(Symbol::Global(number)) => Head::Global(number),
        Some(Symbol::Local { number, .. }) => Head::Variable(number),
        Some(Symbol::Constant(z)) => Head::Constant(Value::Int(z)),
        _ => Head::Constant(Value::Pointer(None)),
    }
}

/// The head of an operator on one part.
fn prefix_head(op: UnaryOp) -> Head
    ensures { result ≡ spec_prefix_head op }
{
    match op {
        UnaryOp::Address => Head::Address,
        UnaryOp::Follow => Head::Target,
        _ => Head::Prefixed(op),
    }
}

/// The head of the part that a node gives, where it gives one.
pub(crate) fn head_of(node: Node) -> Option<Head>
    ensures { result ≡ op_head node.op node.worth }
{
    match node.op {
        Op::Number => Some(number_head(node.worth)),
        Op::Null => Some(Head::Constant(Value::Pointer(None))),
        Op::Name { symbol, .. } => Some(symbol_head(symbol)),
        Op::Call { function, args } => Some(Head::Answer { function, args }),
        Op::Unary(op) => Some(prefix_head(op)),
        Op::Binary(op) => Some(Head::Joined(op)),
        Op::Field { arrow, number, .. } => Some(Head::Member { arrow, number }),
        Op::Index => Some(Head::Element),
        _ => None,
    }
}

/// The type of the part that a node gives.
pub(crate) fn type_of(node: Node) -> ExpressionType
    ensures { result ≡ node_type node }
{
    match node.op {
        Op::Null => null_type(),
        _ => node.thing,
    }
}

/// The type of the null pointer.
pub(crate) fn null_type() -> ExpressionType
    ensures { result ≡ spec_null_type }
{
    ExpressionType {
        thing: ThingType {
            kind: Kind::Null,
            length: None,
            is_const: false,
        },
        is_place: false,
        is_zero: false,
    }
}

/// How many parts a node passes that gives none.
pub(crate) fn passed(op: Op) -> usize
    ensures { result ≡ spec_passed op }
{
    match op {
        Op::Aside | Op::Evaluate | Op::Branch => 1,
        Op::Set(_) => 2,
        Op::Declare { has_value, .. } => usize::from(has_value),
        Op::Test { given } | Op::Give { given } => usize::from(given),
        _ => 0,
    }
}

/// How many parts a term takes.
pub(crate) fn taken(head: Head) -> usize
    ensures { result ≡ spec_taken head }
{
    match head {
        Head::Constant(_) | Head::Variable(_) | Head::Global(_) => 0,
        Head::Answer { args, .. } => args,
        Head::Element | Head::Joined(_) => 2,
        _ => 1,
    }
}

/// Whether a term is a place.
pub(crate) fn is_place(head: Head) -> bool
    ensures { result ≡ head_is_place head }
{
    matches!(
        head,
        Head::Global(_) | Head::Member { .. } | Head::Element | Head::Target
    )
}

/// Whether a thing is a cell: neither a struct nor an array is one.
pub(crate) fn is_cell(thing: ThingType) -> bool
    ensures { result ≡ spec_is_cell thing }
{
    match thing.kind {
        Kind::Structure(_) => false,
        _ => thing.length.is_none(),
    }
}
