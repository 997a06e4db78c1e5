//! Instructions over numbered slots. Slot 0 has the answer of the point's call; a place is given by a pointer to it.

use tsa_base::Value;
use tsa_sched::TrapKind;
use tsa_tree::attr::AttrKind;
use tsa_tree::expr::{BinaryOp, UnaryOp};
use tsa_tree::kind::Kind;

/// What an instruction does with slots.
#[derive(Clone, Copy)]
pub enum Instr {
    /// A value that the code has.
    Constant {
        to: u32,
        value: Value,
    },
    /// The value of a local of the frame.
    Local {
        to: u32,
        number: u32,
    },
    /// The answer of the point's call, from slot 0.
    Answer {
        to: u32,
    },
    /// From a struct object's place to that of its member.
    Member {
        at: u32,
        number: u32,
    },
    /// From an array's place, with the index in the next slot, to that of its element.
    Element {
        at: u32,
    },
    /// A pointer that isn't null.
    Follow {
        at: u32,
    },
    /// Reads a cell, which ends the turn.
    Load {
        from: u32,
        to: u32,
    },
    /// A value in another kind of integer.
    Convert {
        at: u32,
        kind: Kind,
    },
    /// An operator on one value.
    Prefix {
        at: u32,
        op: UnaryOp,
    },
    /// An operator on two values.
    Join {
        left: u32,
        right: u32,
        to: u32,
        op: BinaryOp,
    },
    /// `&&` and `||`: where the truth of the slot is this one, that is the value, and so many instructions are passed.
    Skip {
        at: u32,
        on: bool,
        by: u32,
    },
    /// 1 where the value isn't 0 or null, else 0.
    Truth {
        at: u32,
    },
    /// A trap.
    Stop {
        kind: TrapKind,
    },
    /// The end of a point.
    End {
        ending: Ending,
    },
}

/// What is done at the end of a point, or in place of its call.
#[derive(Clone, Copy)]
pub enum Ending {
    /// Nothing but to go on.
    Step,
    /// A local is set.
    Set {
        number: u32,
        from: u32,
    },
    /// The value stands in a slot, and its place in the next one.
    Write {
        at: u32,
    },
    /// The point goes on by the truth of a value.
    Branch {
        from: u32,
    },
    /// The point goes on by the case of a value.
    Choose {
        from: u32,
    },
    /// The function gives a value back.
    Leave {
        from: u32,
    },
    /// A function with a body is entered, with arguments that stand one after the other.
    Enter {
        function: u32,
        from: u32,
        count: u32,
    },
    /// A lock, to which a slot has a pointer, is taken or given back as an attribute says.
    Lock {
        kind: AttrKind,
        success: bool,
        from: u32,
        function: u32,
        result: Kind,
    },
    /// The environment is asked for the answer of a function.
    Ask {
        function: u32,
        result: Kind,
    },
}
