//! The call of a point is answered, or a switch is done with its value: the frame goes on in the same turn, or by code.
ghost use Rattle.std.specs.Prelude.{◌≡◌, ◌≤◌, List, length, drop};
ghost use Rattle.tsa_base.specs.declared.value.Value.{Value};
ghost use Rattle.tsa_core.specs.Programs.{Program};
ghost use Rattle.tsa_lower_code.specs.Codes.{act_in, going};
ghost use Rattle.tsa_lower_pools.specs.Needs.{ending_needs};
ghost use Rattle.tsa_lower_pools.specs.Units.{CodeStands};
ghost use Rattle.tsa_mean.specs.Frames.{frame_by_case, frame_with_answer};
ghost use Rattle.tsa_mean.specs.States.{Frame};
ghost use Rattle.tsa_mean.specs.Steps.{int_in as spec_int_in};
ghost use Rattle.tsa_exec_frames.specs.Answering.{value_set, value_to_set, way_gone, way_to_go};
ghost use Rattle.tsa_exec_frames.specs.Frames.{IsInside, Pauses, Stands};

use crate::frame::{CodeFrame, Executable, beginning, set_local};
use crate::halts::{Halt, run};
use crate::turns::either;
use tsa_base::Value;
use tsa_exec_values::{int_in, is_true};
use tsa_lower_code::Ending;
use tsa_lower_pools::{AnswerUse, Code};

/// What a local is set to by an end, else 0.
fn value_at(ending: Ending, slots: &[Value]) -> Value
    requires { ending_needs ending ≤ length slots.now }
    ensures { result ≡ value_set (act_in ending slots.now) }
{
    match ending {
        Ending::Set { from, .. } => slots[from as usize],
        _ => Value::Int(0),
    }
}

/// Which way a test goes by an end, else that of 0.
fn way_at(ending: Ending, slots: &[Value]) -> bool
    requires { ending_needs ending ≤ length slots.now }
    ensures { result ≡ way_gone (act_in ending slots.now) }
{
    match ending {
        Ending::Branch { from } => is_true(slots[from as usize]),
        _ => false,
    }
}

/// What a local is set to by code, and 0 where that reads or traps.
fn value_by(unit: &Executable<'_>, from: u32, locals: &[Value], slots: &mut [Value]) -> Value
    requires slots { length slots.old ≡ unit.now.code.now.slots }
    requires inside { from ≤ length unit.now.code.now.instrs.items }
    ensures value { result ≡ value_to_set (going unit.now.places.now locals.now 0 (drop from unit.now.code.now.instrs.items) slots.old) }
    ensures long { length slots.new ≡ length slots.old }
{
    match run(unit, from, locals, slots).halt {
        Halt::End(ending) => value_at(ending, slots),
        _ => Value::Int(0),
    }
}

/// Which way a test goes by code, and that of 0 where that reads or traps.
fn way_by(unit: &Executable<'_>, from: u32, locals: &[Value], slots: &mut [Value]) -> bool
    requires slots { length slots.old ≡ unit.now.code.now.slots }
    requires inside { from ≤ length unit.now.code.now.instrs.items }
    ensures way { result ≡ way_to_go (going unit.now.places.now locals.now 0 (drop from unit.now.code.now.instrs.items) slots.old) }
    ensures long { length slots.new ≡ length slots.old }
{
    match run(unit, from, locals, slots).halt {
        Halt::End(ending) => way_at(ending, slots),
        _ => false,
    }
}

/// A frame goes on with the answer of its call, as the machine's frame does.
pub fn answer(unit: &Executable<'_>, frame: &mut CodeFrame, slots: &mut [Value], value: Value)
    requires slots { length slots.old ≡ unit.now.code.now.slots }
    requires inside { IsInside unit.now.code.now frame.old.at }
    ensures stands { (u : Program) (top : Frame) → u.layout ≡ unit.now.places.now → CodeStands u unit.now.code.now
        → Pauses unit.now.code.now frame.old.at frame.old.locals.items top
        → Stands u unit.now.code.now frame.new.at frame.new.locals.items slots.new (frame_with_answer u top value) }
    ensures long { length slots.new ≡ length slots.old }
    ensures locals { length frame.new.locals.items ≡ length frame.old.locals.items }
    ensures inside { IsInside unit.now.code.now frame.new.at }
{
    let here = unit.code.point(frame.at.point);
    slots[0] = value;
    match here.answer_use {
        AnswerUse::Pass => frame.at = beginning(unit.code, here.next),
        AnswerUse::Set { number } => {
            let set = value_by(unit, here.behind_call, &frame.locals, slots);
            set_local(&mut frame.locals, number, set);
            frame.at = beginning(unit.code, here.next);
        }
        AnswerUse::Test => {
            let way = way_by(unit, here.behind_call, &frame.locals, slots);
            frame.at = beginning(unit.code, either(way, here.yes, here.no));
        }
        AnswerUse::Resume => frame.at.instr = here.behind_call,
    }
}

/// A switch goes to the case of its value, and without one to what is left, as the machine's frame does.
pub fn choose(code: &Code, frame: &mut CodeFrame, value: Value)
    requires { IsInside code.now frame.old.at }
    ensures stands { (u : Program) (top : Frame) (slots : List Value) → CodeStands u code.now → code.now.slots ≤ length slots
        → Pauses code.now frame.old.at frame.old.locals.items top
        → Stands u code.now frame.new.at frame.new.locals.items slots (frame_by_case u top (spec_int_in value)) }
    ensures locals { frame.new.locals ≡ frame.old.locals }
    ensures inside { IsInside code.now frame.new.at }
{
    frame.at = beginning(code, code.case(frame.at.point, int_in(value)));
}
