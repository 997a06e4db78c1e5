//! The nodes of expressions, declarations and points, each by what it was found to be.
ghost use Rattle.std.specs.Prelude.{◌≡◌};
ghost use Rattle.tsa_tree.specs.expressions.Shapes.{name_shape};
ghost use Rattle.tsa_tree.specs.types.Symbols.{symbol_of as spec_symbol_of, entry_symbol as spec_entry_symbol};
ghost use Rattle.tsa_tree.specs.types.Symbols.{meant_function as spec_meant_function};
ghost use Rattle.tsa_types_row.specs.BodyRows.{typed_node as spec_typed_node, bare_node as spec_bare_node};
ghost use Rattle.tsa_types_expressions.specs.RowParts.{thing_or_bare as spec_thing_or_bare, found_node as spec_found_node};
ghost use Rattle.tsa_types_row.specs.ExpressionRows.{bare as spec_bare, is_fixed as spec_is_fixed, entry_fixed as spec_entry_fixed, name_op as spec_name_op};
ghost use Rattle.tsa_types_row.specs.ExpressionRows.{entry_function as spec_entry_function, call_op as spec_call_op};
ghost use Rattle.tsa_types_row.specs.ExpressionRows.{callee_node as spec_callee_node, member_op as spec_member_op};

use crate::constants::Found;
use crate::values::value_of;
use tsa_base::Span;
use tsa_tree::expr::Name;
use tsa_tree::kind::{ExpressionType, Kind, ThingType};
use tsa_tree::meaning::{Entry, Meaning, Symbol};
use tsa_tree::premise::Failure;
use tsa_types_operators::{is_pointer_kind, value};
use tsa_types_row::{Node, Op};

/// What a node is, and where it stands.
#[derive(Clone, Copy)]
pub struct Mark {
    pub op: Op,
    pub span: Span,
}

impl Mark {
    /// What is at a span.
    pub fn new(op: Op, span: Span) -> Mark
        ensures { result ≡ record { op = op; span = span } }
    {
        Mark { op, span }
    }
}

/// The type of what is no expression, or has none.
fn bare() -> ExpressionType
    ensures { result ≡ spec_bare }
{
    value(Kind::Void)
}

/// The type that was found, or that of nothing.
fn thing_or_bare(found: Result<Found, Failure>) -> ExpressionType
    ensures { result ≡ spec_thing_or_bare found }
{
    match found {
        Ok(found) => found.thing,
        Err(_) => bare(),
    }
}

/// The node of an expression, by what it was found to be.
pub fn found_node(mark: Mark, found: Result<Found, Failure>) -> Node
    ensures { result ≡ spec_found_node mark.op mark.span found }
{
    Node {
        op: mark.op,
        thing: thing_or_bare(found),
        worth: value_of(found),
        size: 1,
        span: mark.span,
    }
}

/// A node of a type that is no expression.
pub fn typed_node(mark: Mark, thing: ExpressionType) -> Node
    ensures { result ≡ spec_typed_node mark.op thing mark.span }
{
    Node {
        op: mark.op,
        thing,
        worth: None,
        size: 1,
        span: mark.span,
    }
}

/// A node without a type that is no expression.
pub fn bare_node(mark: Mark) -> Node
    ensures { result ≡ spec_bare_node mark.op mark.span }
{
    typed_node(mark, bare())
}

/// Whether what is declared so never changes: a pointer that is `const`.
fn is_fixed(thing: ThingType) -> bool
    ensures { result ≡ spec_is_fixed thing }
{
    is_pointer_kind(thing.kind) && thing.is_const
}

/// Whether what a name stands for never changes.
fn entry_fixed(entry: Option<Entry>) -> bool
    ensures { result ≡ spec_entry_fixed entry }
{
    match entry {
        Some(entry) => is_fixed(entry.thing),
        None => false,
    }
}

/// What a name means, in a function by its number or outside of all, that isn't a member's or a type's.
fn symbol_of(function: u32, meaning: Meaning) -> Option<Symbol>
    ensures { result ≡ spec_symbol_of function meaning }
{
    match meaning {
        Meaning::Global(number) => Some(Symbol::Global(number)),
        Meaning::Local(number) => Some(Symbol::Local { function, number }),
        Meaning::Function(number) => Some(Symbol::Function(number)),
        Meaning::Constant(value) => Some(Symbol::Constant(value)),
        Meaning::Owned | Meaning::TypeName => None,
    }
}

/// The same of what may not be known.
fn entry_symbol(function: u32, entry: Option<Entry>) -> Option<Symbol>
    ensures { result ≡ spec_entry_symbol function entry }
{
    symbol_of(function, entry?.meaning)
}

/// A name that stands alone, by what it stands for.
pub fn name_op(function: u32, entry: Option<Entry>) -> Op
    ensures { result ≡ spec_name_op function entry }
{
    Op::Name {
        symbol: entry_symbol(function, entry),
        is_fixed: entry_fixed(entry),
    }
}

/// The function that a meaning is, or 0.
fn meant_function(meaning: Meaning) -> u32
    ensures { result ≡ spec_meant_function meaning }
{
    match meaning {
        Meaning::Function(number) => number,
        _ => 0,
    }
}

/// The function that a name stands for, or 0.
fn entry_function(entry: Option<Entry>) -> u32
    ensures { result ≡ spec_entry_function entry }
{
    match entry {
        Some(entry) => meant_function(entry.meaning),
        None => 0,
    }
}

/// A call of what a name stands for, with so many arguments.
pub fn call_op(entry: Option<Entry>, args: usize) -> Op
    ensures { result ≡ spec_call_op entry args }
{
    Op::Call {
        function: entry_function(entry),
        args,
    }
}

/// The name before the arguments of a call.
pub fn callee_node(function: u32, name: Name<'_>, entry: Option<Entry>) -> Node
    ensures { result ≡ spec_callee_node function (name_shape name.entry) entry }
{
    Node {
        op: Op::Callee(entry_symbol(function, entry)),
        thing: bare(),
        worth: None,
        size: 1,
        span: name.span,
    }
}

/// A member, by its number and type where it is there.
pub fn member_op(arrow: bool, member: Option<(usize, ThingType)>) -> Op
    ensures { result ≡ spec_member_op arrow member }
{
    match member {
        Some((number, thing)) => Op::Field {
            arrow,
            number,
            is_fixed: is_fixed(thing),
        },
        None => Op::Field {
            arrow,
            number: 0,
            is_fixed: false,
        },
    }
}
