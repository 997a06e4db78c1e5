//! A frame in code.
ghost use Rattle.std.specs.Prelude.{◌≡◌, ◌<◌, length, slice_set};
ghost use Rattle.tsa_exec_frames.specs.Frames.{beginning as spec_beginning, IsInside};

use tsa_base::Value;
use tsa_lower_pools::Code;
use tsa_place::Places;

/// What is executed: the code of a unit, and its places.
#[derive(Clone, Copy)]
pub struct Executable<'a> {
    pub code: &'a Code,
    pub places: &'a Places,
}

/// At which point of the unit a frame is, and at which instruction it goes on.
#[derive(Clone, Copy)]
pub struct Position {
    pub point: u32,
    pub instr: u32,
}

/// A frame in code: where it goes on, and its locals. What is worked out stands in the slots of its thread.
#[derive(Drop)]
pub struct CodeFrame {
    pub at: Position,
    pub locals: Vec<Value>,
}

/// The beginning of a point.
pub(crate) fn beginning(code: &Code, point: u32) -> Position
    requires { point < length code.now.points.items }
    ensures is { result ≡ spec_beginning code.now point }
    ensures inside { IsInside code.now result }
{
    Position {
        point,
        instr: code.point(point).entry,
    }
}

/// A local is set where there is one of that number.
pub(crate) fn set_local(locals: &mut Vec<Value>, number: u32, value: Value)
    ensures { locals.new.items ≡ slice_set locals.old.items number value }
{
    if (number as usize) < locals.len() {
        locals[number as usize] = value;
    }
}
