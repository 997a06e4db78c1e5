//! Schedules are read: which thread takes each turn, and what the environment answers.
ghost use Rattle.std.specs.Prelude.{◌≡◌, Some, None, if◌then◌else◌, option_map, IfOk, IsErrOf};
ghost use Rattle.tsa_sched.specs.Parts.{IsPart, reading, step, finish};
ghost use Rattle.tsa_sched.specs.Schedules.{SpellsSchedule, IsMalformed};

use crate::part::Part;
use crate::pick::Pick;
use std::alloc::Global;
use thiserror::Error;
use tsa_base::{NoMemory, TURN_LIMIT};

/// Why a text is no schedule: the first byte at which it ends the beginning of none, or its length where it breaks off; or want of memory.
#[derive(Clone, Copy, Debug, PartialEq, Eq, Error)]
pub enum ScheduleRefusal {
    #[error("schedule is malformed at byte {byte}")]
    Malformed { byte: u32 },
    #[error("no memory")]
    NoMemory,
}

impl From<NoMemory> for ScheduleRefusal {
    ghost use Rattle.tsa_sched.specs.declared.schedule.ScheduleRefusal.TheVariants.{NoMemory};
    ghost use Rattle.std.specs.Prelude.{◌≡◌};

    ghost from_gives = { λ _ e. e ≡ NoMemory };

    fn from(_: NoMemory) -> ScheduleRefusal {
        ScheduleRefusal::NoMemory
    }
}

/// A comma behind a pick, where a further one may come.
fn put_pick(picks: &mut Vec<Pick>, part: Part) -> Result<Option<Part>, NoMemory>
    requires { IsPart part }
    ensures { IfOk result (λ next. step (reading picks.old.items part) 44 ≡ option_map (reading picks.new.items) next) }
{
    let Some(pick) = part.pick() else {
        return Ok(None);
    };
    if picks.len() + 1 >= TURN_LIMIT as usize {
        return Ok(None);
    }
    picks.push(pick)?;
    Ok(Some(Part::Begun))
}

/// A further byte, where one may stand there.
fn put_byte(picks: &mut Vec<Pick>, part: Part, byte: u8) -> Result<Option<Part>, NoMemory>
    requires { IsPart part }
    ensures { IfOk result (λ next. step (reading picks.old.items part) byte ≡ option_map (reading picks.new.items) next) }
{
    if byte == b',' {
        return put_pick(picks, part);
    }
    Ok(part.grown(byte))
}

/// The text's end behind a part: whether a schedule may end there, the last pick of which is put behind the others.
fn put_end(picks: &mut Vec<Pick>, part: Part) -> Result<bool, NoMemory>
    requires { IsPart part }
    ensures { IfOk result (λ ends. finish (reading picks.old.items part) ≡ (if ends then Some picks.new.items else None)) }
{
    if let Part::Nothing = part {
        return Ok(true);
    }
    let Some(pick) = part.pick() else {
        return Ok(false);
    };
    picks.push(pick)?;
    Ok(true)
}

#[tactic(auto, using(crate::proofs::Standing::read_spells, crate::proofs::Breaking::breaks_at, crate::proofs::Breaking::breaks_off))]
/// The picks that a text spells: each is a thread in decimal, and behind a colon the answer of the environment, 0 where it is left out; at
/// most 100,000 of them are joined by commas.
pub fn read_schedule(alloc: Global, text: &[u8]) -> Result<Vec<Pick>, ScheduleRefusal>
    ensures picks { IfOk result (λ picks. SpellsSchedule text.now picks.items) }
    ensures malformed { (byte : _) → IsErrOf result (ScheduleRefusal.Malformed byte) → IsMalformed text.now byte }
{
    let mut picks = Vec::new(alloc);
    let mut part = Part::Nothing;
    let mut at = 0;
    'bytes: while at < text.len() {
        let Some(next) = put_byte(&mut picks, part, text[at])? else {
            let byte = at as u32;
            return Err(ScheduleRefusal::Malformed { byte });
        };
        part = next;
        at += 1;
    }
    if put_end(&mut picks, part)? {
        Ok(picks)
    } else {
        let byte = at as u32;
        Err(ScheduleRefusal::Malformed { byte })
    }
}
