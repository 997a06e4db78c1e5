//! One instruction, over the slots of a thread.
ghost use Rattle.std.specs.Prelude.{◌≡◌, ◌<◌, List, length, ◌∷◌};
ghost use Rattle.tsa_exec_values.specs.Answers.{as_out};
ghost use Rattle.tsa_lower_code.specs.Codes.{going, slot};
ghost use Rattle.tsa_lower_code.specs.declared.instr.Instr.{Instr};
ghost use Rattle.tsa_lower_going.specs.Going.{element_at, going_of, member_at, target_of};
ghost use Rattle.tsa_lower_pools.specs.Needs.{IsFit};
ghost use Rattle.tsa_mean.specs.Working.{local_at};
ghost use Rattle.tsa_exec_frames.specs.Running.{after_step, kept, load_of, place_or_trap, step_of, KeepsSlots, StepFits};

use crate::halts::Halt;
use tsa_base::Value;
use tsa_exec_values::{convert, index_in, is_true, join, of_truth, pointed_place, prefix};
use tsa_lower_code::Instr;
use tsa_place::Places;
use tsa_sched::TrapKind;

/// What comes of one instruction: the next one follows, or one behind some that are passed, or none.
#[derive(Clone, Copy)]
pub(crate) enum Step {
    Next,
    Skip(u32),
    Halt(Halt),
}

/// A local of a frame; one that isn't there is 0.
fn local(locals: &[Value], number: u32) -> Value
    ensures { result ≡ local_at locals.now number }
{
    match locals.get(number as usize) {
        Some(value) => *value,
        None => Value::Int(0),
    }
}

/// A pointer to a place, and a trap where there is none.
fn to_place(place: Option<u32>, kind: TrapKind) -> Result<Value, TrapKind>
    ensures { result ≡ place_or_trap place kind }
{
    match place {
        Some(place) => Ok(Value::Pointer(Some(place))),
        None => Err(kind),
    }
}

/// The place of a member (C11 6.5.2.3); a pointer that is null has none.
fn member(places: &Places, base: Value, number: u32) -> Result<Value, TrapKind>
    ensures { going_of (as_out result) ≡ member_at places.now number base }
{
    match pointed_place(base) {
        Some(place) => to_place(places.member(place, number), TrapKind::NullPointer),
        None => Err(TrapKind::NullPointer),
    }
}

/// The place of an element (C11 6.5.2.1), with an index below the array's length.
fn element(places: &Places, base: Value, index: Value) -> Result<Value, TrapKind>
    ensures { going_of (as_out result) ≡ element_at places.now base index }
{
    match (pointed_place(base), index_in(index)) {
        (Some(place), Some(at)) => to_place(places.element(place, at), TrapKind::OutOfRange),
        _ => Err(TrapKind::OutOfRange),
    }
}

/// A pointer that is followed (C11 6.5.3.2p4), which traps where it is null.
fn target(pointer: Value) -> Result<Value, TrapKind>
    ensures { going_of (as_out result) ≡ target_of pointer }
{
    to_place(pointed_place(pointer), TrapKind::NullPointer)
}

/// A value is put into a slot, or the thread traps.
fn keep(given: Result<Value, TrapKind>, to: u32, slots: &mut [Value]) -> Step
    requires { to < length slots.old }
    ensures goes { result ≡ step_of given }
    ensures keeps { slots.new ≡ kept given to slots.old }
{
    match given {
        Ok(value) => {
            slots[to as usize] = value;
            Step::Next
        }
        Err(kind) => Step::Halt(Halt::Stop(kind)),
    }
}

/// A cell is read into a slot.
fn load(from: u32, to: u32, slots: &[Value]) -> Step
    requires { from < length slots.now }
    ensures { result ≡ load_of (slot slots.now from) to }
{
    match pointed_place(slots[from as usize]) {
        Some(place) => Step::Halt(Halt::Read { place, to }),
        None => Step::Halt(Halt::Stop(TrapKind::NullPointer)),
    }
}

/// One instruction.
pub(crate) fn execute(instr: Instr, places: &Places, locals: &[Value], slots: &mut [Value]) -> Step
    requires { IsFit (length slots.old) instr }
    ensures goes { (rest : List Instr) → after_step places.now locals.now result rest slots.new ≡ going places.now locals.now 0 (instr ∷ rest) slots.old }
    ensures fits { StepFits (length slots.old) result }
    ensures keeps { KeepsSlots result slots.old slots.new }
{
    match instr {
        Instr::Constant { to, value } => keep(Ok(value), to, slots),
        Instr::Local { to, number } => keep(Ok(local(locals, number)), to, slots),
        Instr::Answer { to } => keep(Ok(slots[0]), to, slots),
        Instr::Member { at, number } => keep(member(places, slots[at as usize], number), at, slots),
        Instr::Element { at } => {
            let place = element(places, slots[at as usize], slots[at as usize + 1]);
            keep(place, at, slots)
        }
        Instr::Follow { at } => keep(target(slots[at as usize]), at, slots),
        Instr::Load { from, to } => load(from, to, slots),
        Instr::Convert { at, kind } => keep(convert(kind, slots[at as usize]), at, slots),
        Instr::Prefix { at, op } => keep(prefix(op, slots[at as usize]), at, slots),
        Instr::Join {
            left,
            right,
            to,
            op,
        } => {
            let value = join(op, slots[left as usize], slots[right as usize]);
            keep(value, to, slots)
        }
        Instr::Skip { at, on, by } => {
            if is_true(slots[at as usize]) == on {
                slots[at as usize] = of_truth(on);
                Step::Skip(by)
            } else {
                Step::Next
            }
        }
        Instr::Truth { at } => keep(Ok(of_truth(is_true(slots[at as usize]))), at, slots),
        Instr::Stop { kind } => Step::Halt(Halt::Stop(kind)),
        Instr::End { ending } => Step::Halt(Halt::End(ending)),
    }
}
