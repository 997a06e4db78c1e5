//! A turn of a frame in code, as far as it is the frame's own.
ghost use Rattle.std.specs.Prelude.{◌≡◌, ℕ, ℤ, ◌≤◌, List, length, drop, slice_index_or, slice_set, None, if◌then◌else◌};
ghost use Rattle.tsa_base.specs.declared.value.Value.{Value};
ghost use Rattle.tsa_base.specs.declared.value.Value.TheVariants.{Pointer};
ghost use Rattle.tsa_core.specs.Programs.{Program};
ghost use Rattle.tsa_lower_code.specs.Codes.{act_in, going};
ghost use Rattle.tsa_lower_pools.specs.Needs.{ending_needs};
ghost use Rattle.tsa_lower_pools.specs.Units.{CodeStands};
ghost use Rattle.tsa_mean.specs.Acts.{act_of};
ghost use Rattle.tsa_mean.specs.States.{Frame, State};
ghost use Rattle.tsa_exec_frames.specs.Deeds.{locals_after, store_after};
ghost use Rattle.tsa_exec_frames.specs.Frames.{IsInside, Stands};
ghost use Rattle.tsa_exec_frames.specs.Turning.{position_after, touched, turn_of, ArrivesFrom, TurnAnswers, TurnFits};

use crate::deed::{Deed, Request, deed_at, place_of};
use crate::frame::{CodeFrame, Executable, beginning, set_local};
use crate::halts::{Halt, run};
use tsa_base::Value;
use tsa_lower_code::Ending;
use tsa_lower_pools::Code;
use tsa_sched::{EventKind, TrapKind};

/// What came of code: a cell was read, the thread traps, or the point ends.
#[derive(Clone, Copy)]
enum Arrival {
    Read { place: u32, value: Value },
    Stop(TrapKind),
    End(Ending),
}

/// What came of a turn: an event of the frame's own, a trap, or what is asked of the thread's other frames, of locks, or of the environment.
#[derive(Clone, Copy)]
pub enum FrameTurn {
    Event(EventKind),
    Trap(TrapKind),
    Request(Request),
}

/// A cell, and whether it is written or read.
#[derive(Clone, Copy)]
pub struct Touch {
    pub place: u32,
    pub is_write: bool,
}

/// What the cell at a place holds; where there is none, null.
fn cell(store: &[Value], place: u32) -> Value
    ensures { result ≡ slice_index_or store.now place (Pointer None) }
{
    match store.get(place as usize) {
        Some(value) => *value,
        None => Value::Pointer(None),
    }
}

/// A cell is set, where there is one at the place.
fn set_cell(store: &mut [Value], place: u32, value: Value)
    ensures { store.new ≡ slice_set store.old place value }
{
    if (place as usize) < store.len() {
        store[place as usize] = value;
    }
}

/// One of two by a truth.
pub(crate) fn either(truth: bool, yes: u32, no: u32) -> u32
    ensures { result ≡ (if truth then yes else no) }
{
    if truth { yes } else { no }
}

/// Goes on to the first read, which is made, or to a trap or an end.
fn advance(
    unit: &Executable<'_>,
    frame: &mut CodeFrame,
    slots: &mut [Value],
    store: &[Value],
) -> Arrival
    requires slots { length slots.old ≡ unit.now.code.now.slots }
    requires inside { IsInside unit.now.code.now frame.old.at }
    ensures arrives { ArrivesFrom unit.now.places.now frame.old.locals.items unit.now.code.now store.now result frame.new.at slots.new
        (going unit.now.places.now frame.old.locals.items 0 (drop frame.old.at.instr unit.now.code.now.instrs.items) slots.old) }
    ensures long { length slots.new ≡ length slots.old }
    ensures point { frame.new.at.point ≡ frame.old.at.point }
    ensures locals { frame.new.locals ≡ frame.old.locals }
    ensures inside { IsInside unit.now.code.now frame.new.at }
{
    let halted = run(unit, frame.at.instr, &frame.locals, slots);
    match halted.halt {
        Halt::Read { place, to } => {
            let value = cell(store, place);
            slots[to as usize] = value;
            frame.at.instr = halted.instr + 1;
            Arrival::Read { place, value }
        }
        Halt::Stop(kind) => Arrival::Stop(kind),
        Halt::End(ending) => {
            frame.at.instr = halted.instr;
            Arrival::End(ending)
        }
    }
}

/// What a frame does at the end of its point.
fn finish(code: &Code, frame: &mut CodeFrame, deed: Deed, store: &mut [Value]) -> FrameTurn
    requires { IsInside code.now frame.old.at }
    ensures turn { result ≡ turn_of deed }
    ensures at { frame.new.at ≡ position_after code.now deed frame.old.at }
    ensures locals { frame.new.locals.items ≡ locals_after deed frame.old.locals.items }
    ensures store { store.new ≡ store_after deed store.old }
    ensures inside { IsInside code.now frame.new.at }
{
    let here = code.point(frame.at.point);
    match deed {
        Deed::Step => {
            frame.at = beginning(code, here.next);
            FrameTurn::Event(EventKind::Stepped)
        }
        Deed::Set { number, value } => {
            set_local(&mut frame.locals, number, value);
            frame.at = beginning(code, here.next);
            FrameTurn::Event(EventKind::Stepped)
        }
        Deed::Write { place, value } => {
            set_cell(store, place, value);
            frame.at = beginning(code, here.next);
            FrameTurn::Event(EventKind::Write { place, value })
        }
        Deed::Branch { taken } => {
            frame.at = beginning(code, either(taken, here.yes, here.no));
            FrameTurn::Event(EventKind::Branched { taken })
        }
        Deed::Request(request) => FrameTurn::Request(request),
    }
}

/// One turn of a frame: the machine's turn, for each frame of the machine that it stands for.
pub fn turn(
    unit: &Executable<'_>,
    frame: &mut CodeFrame,
    slots: &mut [Value],
    store: &mut [Value],
) -> FrameTurn
    requires slots { length slots.old ≡ unit.now.code.now.slots }
    requires inside { IsInside unit.now.code.now frame.old.at }
    ensures answers { (u : Program) (s : State) (t : ℕ) (z : ℤ) (top : Frame) (below : List Frame) → u.layout ≡ unit.now.places.now
        → CodeStands u unit.now.code.now → s.store ≡ store.old → Stands u unit.now.code.now frame.old.at frame.old.locals.items slots.old top
        → TurnAnswers u unit.now.code.now s t z top below result frame.new.at frame.new.locals.items slots.new store.new }
    ensures fits { TurnFits (length slots.new) result }
    ensures long { length slots.new ≡ length slots.old }
    ensures locals { length frame.new.locals.items ≡ length frame.old.locals.items }
    ensures inside { IsInside unit.now.code.now frame.new.at }
{
    match advance(unit, frame, slots, store) {
        Arrival::Read { place, value } => FrameTurn::Event(EventKind::Read { place, value }),
        Arrival::Stop(kind) => FrameTurn::Trap(kind),
        Arrival::End(ending) => finish(unit.code, frame, deed_at(ending, slots), store),
    }
}

/// The cell that is written at an end.
fn written(ending: Ending, slots: &[Value]) -> Option<Touch>
    requires { ending_needs ending ≤ length slots.now }
    ensures { result ≡ touched (act_in ending slots.now) }
{
    match ending {
        Ending::Write { at } => Some(Touch {
            place: place_of(slots[at as usize + 1]),
            is_write: true,
        }),
        _ => None,
    }
}

/// Which cell the next turn of a frame reads or writes. The frame stands for the same frames of the machine as before.
pub fn touches(unit: &Executable<'_>, frame: &mut CodeFrame, slots: &mut [Value]) -> Option<Touch>
    requires slots { length slots.old ≡ unit.now.code.now.slots }
    requires inside { IsInside unit.now.code.now frame.old.at }
    ensures touches { (u : Program) (top : Frame) → u.layout ≡ unit.now.places.now
        → Stands u unit.now.code.now frame.old.at frame.old.locals.items slots.old top
        → (result ≡ touched (act_of u top)) × Stands u unit.now.code.now frame.new.at frame.new.locals.items slots.new top }
    ensures long { length slots.new ≡ length slots.old }
    ensures locals { frame.new.locals ≡ frame.old.locals }
    ensures inside { IsInside unit.now.code.now frame.new.at }
{
    let halted = run(unit, frame.at.instr, &frame.locals, slots);
    frame.at.instr = halted.instr;
    match halted.halt {
        Halt::Read { place, .. } => Some(Touch {
            place,
            is_write: false,
        }),
        Halt::Stop(_) => None,
        Halt::End(ending) => written(ending, slots),
    }
}
