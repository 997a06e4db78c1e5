//! Nodes in few bytes: what each kind of node and each type needs there, and what is large isn't held.
ghost use Rattle.std.specs.Prelude.{◌+◌, ◌<◌, ◌^◌};

use tsa_tree::expr::{BinaryOp, UnaryOp};

/// What bears a symbol: a name, of which what it is declared as may never change; the name before a call's arguments; a declaration's.
#[derive(Clone, Copy)]
pub(crate) enum Role {
    Name,
    FixedName,
    Callee,
    Declared,
}

/// What a node is, in eight bytes.
#[derive(Clone, Copy)]
pub(crate) enum ShortOp {
    Number,
    Null,
    Index,
    Aside,
    Evaluate,
    Branch,
    Move,
    End,
    Global {
        role: Role,
        number: u32,
    },
    Local {
        role: Role,
        function: u16,
        number: u32,
    },
    Function {
        role: Role,
        number: u32,
    },
    Constant {
        role: Role,
        value: i32,
    },
    Call {
        args: u16,
        function: u32,
    },
    Unary(UnaryOp),
    Binary(BinaryOp),
    Field {
        arrow: bool,
        is_fixed: bool,
        number: u32,
    },
    Declare {
        has_value: bool,
        local: u32,
    },
    Set(Option<BinaryOp>),
    Test {
        given: bool,
    },
    Give {
        given: bool,
    },
}

/// How what has a type stands there: as `const`, as a place, as the number 0.
#[derive(Clone, Copy)]
pub(crate) struct Form {
    pub is_const: bool,
    pub is_place: bool,
    pub is_zero: bool,
}

/// A type with the constant that a node of it is worth, in eight bytes.
#[derive(Clone, Copy)]
pub(crate) enum ShortType {
    Int(Form),
    Unsigned(Form),
    Void(Form),
    Null(Form),
    Function(Form),
    Structure {
        form: Form,
        number: u32,
    },
    Pointer {
        form: Form,
        target: u32,
    },
    PointerToConst {
        form: Form,
        target: u32,
    },
    /// A constant, which is no place and may be the number 0.
    IntWorth {
        is_zero: bool,
        value: i32,
    },
    UnsignedWorth {
        is_zero: bool,
        value: u32,
    },
    /// An array, which is a place.
    Ints {
        is_const: bool,
        length: u32,
    },
    Structures {
        is_const: bool,
        number: u16,
        length: u32,
    },
}

/// A node in 24 bytes, of which nothing is large.
#[derive(Clone, Copy)]
pub(crate) struct ShortNode {
    pub op: ShortOp,
    pub thing: ShortType,
    pub from: u32,
    pub length: u16,
    pub size: u16,
    pub ghost in_text: { from + length < 2 ^ 32 },
}
