//! Single instructions, put behind those that are there.
ghost use Rattle.std.specs.Prelude.{◌≡◌, ◌+◌, ◌<◌, ◌++◌, ◌∷◌, [], None, length, take, drop, IfOk, OnOk};
ghost use Rattle.tsa_base.specs.declared.value.Value.TheVariants.{Pointer};
ghost use Rattle.tsa_lower_code.specs.Codes.{answer_code, known_place_code, no_place};
ghost use Rattle.tsa_lower_code.specs.declared.instr.Instr.TheVariants.{Constant, Skip, Truth};

use tsa_base::{NoMemory, Value};
use tsa_lower_code::Instr;
use tsa_sched::TrapKind;

/// One instruction more.
pub(crate) fn put(out: &mut Vec<Instr>, instr: Instr) -> Result<(), NoMemory>
    ensures { OnOk result (out.new.items ≡ out.old.items ++ instr ∷ []) }
{
    Ok(out.push(instr)?)
}

/// The slot behind one.
pub(crate) fn next(slot: u32) -> Result<u32, NoMemory>
    ensures { IfOk result (λ n. n ≡ slot + 1) }
{
    slot.checked_add(1).ok_or(NoMemory)
}

/// A number that an instruction can have.
pub(crate) fn narrow(number: usize) -> Result<u32, NoMemory>
    ensures { IfOk result (λ n. n ≡ number) }
{
    u32::try_from(number).map_err(|_| NoMemory)
}

/// The trap of what has no place and no value.
pub(crate) fn put_nothing(out: &mut Vec<Instr>) -> Result<(), NoMemory>
    ensures { OnOk result (out.new.items ≡ out.old.items ++ no_place) }
{
    put(
        out,
        Instr::Stop {
            kind: TrapKind::NullPointer,
        },
    )
}

/// The null pointer.
pub(crate) fn put_null(out: &mut Vec<Instr>, slot: u32) -> Result<(), NoMemory>
    ensures { OnOk result (out.new.items ≡ out.old.items ++ Constant slot (Pointer None) ∷ []) }
{
    put(
        out,
        Instr::Constant {
            to: slot,
            value: Value::Pointer(None),
        },
    )
}

/// A place that is known, or isn't.
pub(crate) fn put_known(out: &mut Vec<Instr>, place: Option<u32>, slot: u32) -> Result<(), NoMemory>
    ensures { OnOk result (out.new.items ≡ out.old.items ++ known_place_code place slot) }
{
    match place {
        Some(place) => put(
            out,
            Instr::Constant {
                to: slot,
                value: Value::Pointer(Some(place)),
            },
        ),
        None => put_nothing(out),
    }
}

/// The answer of the point's call, where that is answered.
pub(crate) fn put_answer(out: &mut Vec<Instr>, is_answered: bool, slot: u32) -> Result<(), NoMemory>
    ensures { OnOk result (out.new.items ≡ out.old.items ++ answer_code is_answered slot) }
{
    if is_answered {
        put(out, Instr::Answer { to: slot })
    } else {
        put_nothing(out)
    }
}

/// The right side of an early operator ends: the instruction before it tells how long it is.
pub(crate) fn close(out: &mut Vec<Instr>, skip: usize, slot: u32, on: bool) -> Result<(), NoMemory>
    requires { skip < length out.old.items }
    ensures { OnOk result (out.new.items ≡ take skip out.old.items ++ (Skip slot on (length (drop (skip + 1) out.old.items) + 1) ∷ (drop (skip + 1) out.old.items ++ Truth slot ∷ []))) }
{
    let by = narrow(out.len() - skip)?;
    out[skip] = Instr::Skip { at: slot, on, by };
    put(out, Instr::Truth { at: slot })
}
