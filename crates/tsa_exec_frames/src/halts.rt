//! Instructions, one after the other, to the first that reads a cell, traps, or ends the point.
ghost use Rattle.std.specs.Prelude.{◌≡◌, ◌≤◌, length};
ghost use Rattle.tsa_exec_frames.specs.Running.{HaltsAs};

use crate::frame::Executable;
use crate::instrs::{Step, execute};
use tsa_base::Value;
use tsa_lower_code::Ending;
use tsa_sched::TrapKind;

/// Why code goes no further: it reads a cell into a slot, traps, or comes to the end of its point.
#[derive(Clone, Copy)]
pub enum Halt {
    Read { place: u32, to: u32 },
    Stop(TrapKind),
    End(Ending),
}

/// At which instruction code goes no further, and why.
#[derive(Clone, Copy)]
pub struct Halted {
    pub instr: u32,
    pub halt: Halt,
}

/// From an instruction on, to the first that reads a cell, traps, or ends the point.
pub fn run(unit: &Executable<'_>, from: u32, locals: &[Value], slots: &mut [Value]) -> Halted
    requires slots { length slots.old ≡ unit.now.code.now.slots }
    requires inside { from ≤ length unit.now.code.now.instrs.items }
    ensures halts { HaltsAs unit.now.places.now locals.now unit.now.code.now.instrs.items from slots.old result slots.new }
    ensures long { length slots.new ≡ length slots.old }
{
    let mut at = from as usize;
    'instrs: loop {
        if at >= unit.code.instrs.len() {
            return Halted {
                instr: unit.code.instrs.len() as u32,
                halt: Halt::End(Ending::Step),
            };
        }
        match execute(unit.code.instr(at), unit.places, locals, slots) {
            Step::Next => at += 1,
            Step::Skip(by) => at = at + 1 + by as usize,
            Step::Halt(halt) => {
                return Halted {
                    instr: at as u32,
                    halt,
                };
            }
        }
    }
}
