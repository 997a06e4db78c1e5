//! What was done in a turn, as lines say it: a function for each row with parts.
ghost use Rattle.std.specs.Prelude.{◌≡◌, ◌++◌, OnOk, codes};
ghost use Rattle.tsa_sched.specs.declared.event.EventKind.TheVariants.{Read, Write, Took, Waits, Tried, Gave, NotHeld, Environment};
ghost use Rattle.tsa_sched.specs.declared.event.EventKind.TheVariants.{Called, Returned, Switched};
ghost use Rattle.tsa_trace.specs.EventLines.{action_text, mode_text, place_text, way_text, trap_text, value_text};

use crate::tracer::Tracer;
use crate::values::{mode_word, put_number, took_word, trap_word, way_word};
use tsa_base::{NoMemory, Value};
use tsa_sched::{EventKind, Mode, TrapKind};

/// How a lock was tried, and whether it was taken.
#[derive(Clone, Copy)]
struct Attempt {
    mode: Mode,
    took: bool,
}

/// Appends a word.
pub fn put_word(out: &mut Vec<u8>, word: &[u8]) -> Result<(), NoMemory>
    ensures { OnOk result (out.new.items ≡ out.old.items ++ word.now) }
{
    out.extend_from_slice(word)?;
    Ok(())
}

/// Appends which way a test went.
fn put_branched(out: &mut Vec<u8>, taken: bool) -> Result<(), NoMemory>
    ensures { OnOk result (out.new.items ≡ out.old.items ++ codes "branch " ++ way_text taken) }
{
    out.extend_from_slice(b"branch ")?;
    out.extend_from_slice(way_word(taken))?;
    Ok(())
}

/// Appends why a thread stopped for good.
fn put_trap(out: &mut Vec<u8>, kind: TrapKind) -> Result<(), NoMemory>
    ensures { OnOk result (out.new.items ≡ out.old.items ++ codes "trap " ++ trap_text kind) }
{
    out.extend_from_slice(b"trap ")?;
    out.extend_from_slice(trap_word(kind))?;
    Ok(())
}

impl Tracer<'_, '_> {
    /// Appends a cell and its value.
    fn put_cell(&self, out: &mut Vec<u8>, place: u32, value: Value) -> Result<(), NoMemory>
        ensures { OnOk result (out.new.items ≡ out.old.items ++ place_text self.now place ++ codes " = " ++ value_text self.now value) }
    {
        self.put_place(out, place)?;
        out.extend_from_slice(b" = ")?;
        self.put_value(out, value)
    }

    /// Appends a lock and a mode.
    fn put_lock(&self, out: &mut Vec<u8>, lock: u32, mode: Mode) -> Result<(), NoMemory>
        ensures { OnOk result (out.new.items ≡ out.old.items ++ place_text self.now lock ++ codes " " ++ mode_text mode) }
    {
        self.put_place(out, lock)?;
        out.extend_from_slice(b" ")?;
        out.extend_from_slice(mode_word(mode))?;
        Ok(())
    }

    /// Appends that a cell was read.
    #[tactic(auto, unfolding(crate::specs::EventLines::action_text))]
    fn put_read(&self, out: &mut Vec<u8>, place: u32, value: Value) -> Result<(), NoMemory>
        ensures { OnOk result (out.new.items ≡ out.old.items ++ action_text self.now (Read place value)) }
    {
        out.extend_from_slice(b"read ")?;
        self.put_cell(out, place, value)
    }

    /// Appends that a cell was written.
    #[tactic(auto, unfolding(crate::specs::EventLines::action_text))]
    fn put_write(&self, out: &mut Vec<u8>, place: u32, value: Value) -> Result<(), NoMemory>
        ensures { OnOk result (out.new.items ≡ out.old.items ++ action_text self.now (Write place value)) }
    {
        out.extend_from_slice(b"write ")?;
        self.put_cell(out, place, value)
    }

    /// Appends that a lock was taken.
    #[tactic(auto, unfolding(crate::specs::EventLines::action_text))]
    fn put_took(&self, out: &mut Vec<u8>, lock: u32, mode: Mode) -> Result<(), NoMemory>
        ensures { OnOk result (out.new.items ≡ out.old.items ++ action_text self.now (Took lock mode)) }
    {
        out.extend_from_slice(b"lock ")?;
        self.put_lock(out, lock, mode)
    }

    /// Appends that a lock can't be taken yet, with a thread that holds it.
    #[tactic(auto, unfolding(crate::specs::EventLines::action_text))]
    fn put_waits(&self, out: &mut Vec<u8>, lock: u32, holder: u32) -> Result<(), NoMemory>
        ensures { OnOk result (out.new.items ≡ out.old.items ++ action_text self.now (Waits lock holder)) }
    {
        out.extend_from_slice(b"waits ")?;
        self.put_place(out, lock)?;
        out.extend_from_slice(b" t")?;
        put_number(out, holder)
    }

    /// Appends that a lock was tried, and whether it was taken.
    #[tactic(auto, unfolding(crate::specs::EventLines::action_text))]
    fn put_tried(&self, out: &mut Vec<u8>, lock: u32, tried: Attempt) -> Result<(), NoMemory>
        ensures { OnOk result (out.new.items ≡ out.old.items ++ action_text self.now (Tried lock tried.mode tried.took)) }
    {
        out.extend_from_slice(b"try ")?;
        self.put_lock(out, lock, tried.mode)?;
        out.extend_from_slice(took_word(tried.took))?;
        Ok(())
    }

    /// Appends that a lock was given back.
    #[tactic(auto, unfolding(crate::specs::EventLines::action_text))]
    fn put_gave(&self, out: &mut Vec<u8>, lock: u32, mode: Mode) -> Result<(), NoMemory>
        ensures { OnOk result (out.new.items ≡ out.old.items ++ action_text self.now (Gave lock mode)) }
    {
        out.extend_from_slice(b"unlock ")?;
        self.put_lock(out, lock, mode)
    }

    /// Appends that a lock was to be given back that isn't held.
    #[tactic(auto, unfolding(crate::specs::EventLines::action_text))]
    fn put_not_held(&self, out: &mut Vec<u8>, lock: u32) -> Result<(), NoMemory>
        ensures { OnOk result (out.new.items ≡ out.old.items ++ action_text self.now (NotHeld lock)) }
    {
        out.extend_from_slice(b"unlock ")?;
        self.put_place(out, lock)?;
        out.extend_from_slice(b" none")?;
        Ok(())
    }

    /// Appends what the environment was asked, and what it answered.
    #[tactic(auto, unfolding(crate::specs::EventLines::action_text))]
    fn put_environment(
        &self,
        out: &mut Vec<u8>,
        callee: u32,
        answer: Option<Value>,
    ) -> Result<(), NoMemory>
        ensures { OnOk result (out.new.items ≡ out.old.items ++ action_text self.now (Environment callee answer)) }
    {
        out.extend_from_slice(b"env ")?;
        self.put_name(out, callee)?;
        self.put_answer(out, answer)
    }

    /// Appends that a function was entered.
    #[tactic(auto, unfolding(crate::specs::EventLines::action_text))]
    fn put_called(&self, out: &mut Vec<u8>, callee: u32) -> Result<(), NoMemory>
        ensures { OnOk result (out.new.items ≡ out.old.items ++ action_text self.now (Called callee)) }
    {
        out.extend_from_slice(b"call ")?;
        self.put_name(out, callee)
    }

    /// Appends that a function was left.
    #[tactic(auto, unfolding(crate::specs::EventLines::action_text))]
    fn put_returned(&self, out: &mut Vec<u8>, callee: u32) -> Result<(), NoMemory>
        ensures { OnOk result (out.new.items ≡ out.old.items ++ action_text self.now (Returned callee)) }
    {
        out.extend_from_slice(b"return ")?;
        self.put_name(out, callee)
    }

    /// Appends what a switch chose by.
    #[tactic(auto, unfolding(crate::specs::EventLines::action_text))]
    fn put_switched(&self, out: &mut Vec<u8>, value: Value) -> Result<(), NoMemory>
        ensures { OnOk result (out.new.items ≡ out.old.items ++ action_text self.now (Switched value)) }
    {
        out.extend_from_slice(b"switch ")?;
        self.put_value(out, value)
    }

    /// Appends what was done.
    #[tactic(auto, unfolding(crate::specs::EventLines::action_text))]
    pub(crate) fn put_action(&self, out: &mut Vec<u8>, kind: EventKind) -> Result<(), NoMemory>
        ensures { OnOk result (out.new.items ≡ out.old.items ++ action_text self.now kind) }
    {
        match kind {
            EventKind::Read { place, value } => self.put_read(out, place, value),
            EventKind::Write { place, value } => self.put_write(out, place, value),
            EventKind::Took { lock, mode } => self.put_took(out, lock, mode),
            EventKind::Waits { lock, holder } => self.put_waits(out, lock, holder),
            EventKind::Tried { lock, mode, took } => {
                self.put_tried(out, lock, Attempt { mode, took })
            }
            EventKind::Gave { lock, mode } => self.put_gave(out, lock, mode),
            EventKind::NotHeld { lock } => self.put_not_held(out, lock),
            EventKind::Environment { callee, answer } => {
                self.put_environment(out, callee, answer)
            }
            EventKind::Called { callee } => self.put_called(out, callee),
            EventKind::Returned { callee } => self.put_returned(out, callee),
            EventKind::Branched { taken } => put_branched(out, taken),
            EventKind::Switched { value } => self.put_switched(out, value),
            EventKind::Stepped => put_word(out, b"step"),
            EventKind::Trap { kind } => put_trap(out, kind),
            EventKind::AlreadyEnded => put_word(out, b"ended"),
            EventKind::AlreadyTrapped => put_word(out, b"trapped"),
            EventKind::NoThread => put_word(out, b"unknown"),
        }
    }
}
