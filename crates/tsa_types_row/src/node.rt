//! Nodes of a unit's row: what each says of itself.

use tsa_base::Span;
use tsa_tree::expr::{BinaryOp, UnaryOp};
use tsa_tree::kind::ExpressionType;
use tsa_tree::meaning::Symbol;
use tsa_tree::number::Number;

/// What a node is. Those of expressions come first, then what stands outside of points, then the points of bodies.
#[derive(Clone, Copy, Debug, PartialEq, Eq)]
pub enum Op {
    /// An integer constant, which the node is worth (C11 6.4.4.1).
    Number,
    /// The null pointer (C11 7.19p3).
    Null,
    /// A name that stands for a thing or a constant, with what it means, and whether what it is declared as never changes.
    Name {
        symbol: Option<Symbol>,
        is_fixed: bool,
    },
    /// The name of a function before its arguments. It is no part of the call, which says the function's number itself.
    Callee(Option<Symbol>),
    /// A call of the function of a number with so many arguments (C11 6.5.2.2).
    Call {
        function: u32,
        args: usize,
    },
    /// A prefix operator on its part (C11 6.5.3).
    Unary(UnaryOp),
    /// A binary operator between its parts (C11 6.5.5 to 6.5.14).
    Binary(BinaryOp),
    /// A member of its part, or of what that leads to, by the member's number in its struct; and whether what the member is declared
    /// as never changes (C11 6.5.2.3).
    Field {
        arrow: bool,
        number: usize,
        is_fixed: bool,
    },
    /// An element: its parts are the array and the index (C11 6.5.2.1).
    Index,
    /// A name that is declared (C11 6.7).
    Declared(Symbol),
    /// Its part is worked out where the unit is translated, not by a thread: a length, a case's value, what an attribute names.
    Aside,
    /// The point of a local's declaration: the local begins with its last part, or with zero or null (C11 6.7.9).
    Declare {
        local: u32,
        has_value: bool,
    },
    /// The point of an expression that is a statement (C11 6.8.3).
    Evaluate,
    /// The point of an assignment: what is set and the right side, beside an operator or none (C11 6.5.16).
    Set(Option<BinaryOp>),
    /// The point of a test, which may be left out in a `for` (C11 6.8.4.1, 6.8.5).
    Test {
        given: bool,
    },
    /// The point of a switch's value (C11 6.8.4.2).
    Branch,
    /// The point of a jump or of an empty statement (C11 6.8.3, 6.8.6).
    Move,
    /// The point of a `return`, which may give nothing (C11 6.8.6.4).
    Give {
        given: bool,
    },
    /// The point of a body's end (C11 6.9.1p12).
    End,
}

/// A node in front of its parts: what it is, the type and the constant that it was found to be, how many nodes it is with its parts, and
/// where it stands. What is no expression has the type `void`.
#[derive(Clone, Copy, Debug, PartialEq, Eq)]
pub struct Node {
    pub op: Op,
    pub thing: ExpressionType,
    pub worth: Option<Number>,
    pub size: usize,
    pub span: Span,
}

impl Node {
    ghost use Rattle.std.specs.Prelude.{◌≡◌};
    ghost use Rattle.tsa_types_row.specs.Rows.{sized};

    /// The same node with a number of nodes that it is with its parts.
    pub fn sized(self, size: usize) -> Node
        ensures { result ≡ sized size self }
    {
        Node {
            op: self.op,
            thing: self.thing,
            worth: self.worth,
            size,
            span: self.span,
        }
    }
}
