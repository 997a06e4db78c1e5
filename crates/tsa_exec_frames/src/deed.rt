//! What is done at the end of a point, with the values of its slots.
ghost use Rattle.std.specs.Prelude.{◌≡◌, ◌≤◌, length};
ghost use Rattle.tsa_lower_code.specs.Codes.{act_in};
ghost use Rattle.tsa_lower_going.specs.Going.{place_in};
ghost use Rattle.tsa_lower_pools.specs.Needs.{ending_needs};
ghost use Rattle.tsa_exec_frames.specs.Deeds.{act_done, DeedFits};

use tsa_base::Value;
use tsa_exec_values::{is_true, pointed_place};
use tsa_lower_code::Ending;
use tsa_tree::attr::AttrKind;
use tsa_tree::kind::Kind;

/// What a frame doesn't do by itself: a switch goes by a value, the function gives one back, a function is entered with arguments that stand in
/// slots one after the other, a lock function is called with the lock at a place, or the environment is asked for the answer of a function.
#[derive(Clone, Copy)]
pub enum Request {
    Choose(Value),
    Leave(Value),
    Enter {
        function: u32,
        from: u32,
        count: u32,
    },
    Lock {
        kind: AttrKind,
        success: bool,
        place: u32,
        function: u32,
        result: Kind,
    },
    Ask {
        function: u32,
        result: Kind,
    },
}

/// What a frame does at the end of its point: nothing, it sets a local, writes a cell, or goes one way of a test; or it asks for more.
#[derive(Clone, Copy)]
pub(crate) enum Deed {
    Step,
    Set { number: u32, value: Value },
    Write { place: u32, value: Value },
    Branch { taken: bool },
    Request(Request),
}

/// The place to which a value points, else the first.
pub(crate) fn place_of(value: Value) -> u32
    ensures { result ≡ place_in value }
{
    match pointed_place(value) {
        Some(place) => place,
        None => 0,
    }
}

/// What is done at an end.
pub(crate) fn deed_at(ending: Ending, slots: &[Value]) -> Deed
    requires { ending_needs ending ≤ length slots.now }
    ensures does { act_done result slots.now ≡ act_in ending slots.now }
    ensures fits { DeedFits (length slots.now) result }
{
    match ending {
        Ending::Step => Deed::Step,
        Ending::Set { number, from } => Deed::Set {
            number,
            value: slots[from as usize],
        },
        Ending::Write { at } => Deed::Write {
            place: place_of(slots[at as usize + 1]),
            value: slots[at as usize],
        },
        Ending::Branch { from } => Deed::Branch {
            taken: is_true(slots[from as usize]),
        },
        Ending::Choose { from } => Deed::Request(Request::Choose(slots[from as usize])),
        Ending::Leave { from } => Deed::Request(Request::Leave(slots[from as usize])),
        Ending::Enter {
            function,
            from,
            count,
        } => Deed::Request(Request::Enter {
            function,
            from,
            count,
        }),
        Ending::Lock {
            kind,
            success,
            from,
            function,
            result,
        } => Deed::Request(Request::Lock {
            kind,
            success,
            place: place_of(slots[from as usize]),
            function,
            result,
        }),
        Ending::Ask { function, result } => Deed::Request(Request::Ask { function, result }),
    }
}
