//! Reads the input of a command, and writes its answer.
ghost use Rattle.std.specs.Prelude.{◌≡◌, ◌≤◌, length, IfOk, IsErrOf, OnErr};
ghost use Rattle.std.specs.Io.KnownBytes.{Appends, Keeps};
ghost use Rattle.tsa_base.specs.Causes.{Rose};
ghost use Rattle.tsa_base.specs.Transfer.{AppendsFront};
ghost use Rattle.tsa_base.specs.declared.limits.TheConstants.{INPUT_LIMIT};
ghost use Rattle.tsa_tool.specs.Answer.{report_of};
ghost use Rattle.tsa_tool.specs.Checks.{fit_in};
ghost use Rattle.tsa_tool.specs.Reports.{IsAnswerTo, IsHeldOf, IsReport, OfUnit, Reads};
ghost use Rattle.tsa_tool.specs.Runs.{Gives, OfInput, ReadsItsInput, WritesFront};

use crate::answer::{Answer, Status, check, print, refuse, refuse_length, refuse_words};
use crate::check::{ToolRefusal, read_ready};
use crate::command::Command;
use bumpalo::Bump;
use std::alloc::Global;
use tsa_base::{NoMemory, PushTrouble, ReadTrouble, Sink, Source, read_all, write_all};
use tsa_tool_held::{WriteRefusal, write_held};

/// Why there is no answer, or only a first part of one.
#[derive(Clone, Copy)]
pub enum Trouble {
    SourceFailed,
    SinkFailed,
    NoMemory,
}

impl From<NoMemory> for Trouble {
    ghost use Rattle.tsa_tool.specs.declared.exchange.Trouble.TheVariants.{NoMemory};

    ghost from_gives = { λ _ trouble. trouble ≡ NoMemory };

    fn from(_: NoMemory) -> Self {
        Trouble::NoMemory
    }
}

// Writes an answer, whose status is given.
fn write<O: Sink>(answer: &Answer, out: &mut O) -> Result<Status, Trouble>
    ensures status { IfOk result (λ status. status ≡ (report_of answer.now).status) }
    ensures all { IfOk result (λ status. Appends (O.taken out.old) (O.taken out.new) (report_of answer.now).text) }
    ensures front { OnErr result (AppendsFront (O.taken out.old) (O.taken out.new) (report_of answer.now).text) }
    ensures fault { IsErrOf result Trouble.SinkFailed → Rose (O.faults out.old) (O.faults out.new) }
    ensures source { IsErrOf result Trouble.SourceFailed → ⊥ }
{
    match write_all(out, &answer.text) {
        Ok(()) => Ok(answer.status),
        Err(PushTrouble::Failed) => Err(Trouble::SinkFailed),
        Err(PushTrouble::NoMemory) => Err(Trouble::NoMemory),
    }
}

// Writes the held sets of the unit of an input, or the first refusal.
fn show_held<O: Sink>(alloc: Global, bytes: &[u8], out: &mut O) -> Result<Status, Trouble>
    requires { length bytes.now ≤ INPUT_LIMIT }
    ensures given { IfOk result (Gives (OfUnit bytes.now (IsHeldOf bytes.now) (fit_in bytes.now)) (O.taken out.old) (O.taken out.new)) }
    ensures front { OnErr result (WritesFront (OfUnit bytes.now (IsHeldOf bytes.now) (fit_in bytes.now)) (O.taken out.old)
        (O.taken out.new)) }
    ensures fault { IsErrOf result Trouble.SinkFailed → Rose (O.faults out.old) (O.faults out.new) }
    ensures source { IsErrOf result Trouble.SourceFailed → ⊥ }
{
    let bump = Bump::new(alloc);
    match read_ready(alloc, &bump, bytes) {
        Ok(ready) => match write_held(alloc, &ready, bytes, out) {
            Ok(()) => Ok(Status::Shown),
            Err(WriteRefusal::SinkFailed) => Err(Trouble::SinkFailed),
            Err(WriteRefusal::NoMemory) => Err(Trouble::NoMemory),
        },
        Err(ToolRefusal::Refused(refusal)) => write(&refuse(alloc, bytes, refusal)?, out),
        Err(ToolRefusal::NoMemory) => Err(Trouble::NoMemory),
    }
}

// Writes what a command answers to an input that is short enough.
fn respond<O: Sink>(
    alloc: Global,
    command: Command,
    bytes: &[u8],
    out: &mut O,
) -> Result<Status, Trouble>
    requires { length bytes.now ≤ INPUT_LIMIT }
    ensures given { IfOk result (Gives (IsAnswerTo command bytes.now) (O.taken out.old) (O.taken out.new)) }
    ensures front { OnErr result (WritesFront (IsAnswerTo command bytes.now) (O.taken out.old) (O.taken out.new)) }
    ensures fault { IsErrOf result Trouble.SinkFailed → Rose (O.faults out.old) (O.faults out.new) }
    ensures source { IsErrOf result Trouble.SourceFailed → ⊥ }
{
    match command {
        Command::Check => write(&check(alloc, bytes)?, out),
        Command::Print => write(&print(alloc, bytes)?, out),
        Command::Held => show_held(alloc, bytes, out),
    }
}

/// Reads what the command reads, and writes its answer, whose status is given. `SourceFailed` comes only for a command that reads, and
/// where the source's count of faults rose.
pub fn ask<I: Source, O: Sink>(
    alloc: Global,
    command: Option<Command>,
    input: &mut I,
    out: &mut O,
) -> Result<Status, Trouble>
    ensures given { IfOk result (λ status. OfInput (I.left input.old) (λ bytes.
        Gives (IsReport command bytes) (O.taken out.old) (O.taken out.new) status × ReadsItsInput command bytes (I.left input.old) (I.left input.new))) }

    // The source failed: a command that reads, and nothing was written.
    ensures failed { IsErrOf result Trouble.SourceFailed → Rose (I.faults input.old) (I.faults input.new) }
    ensures reads { IsErrOf result Trouble.SourceFailed → Reads command }
    ensures silent { IsErrOf result Trouble.SourceFailed → Keeps (O.taken out.old) (O.taken out.new) }

    // The sink failed, or there was no memory: a first part of the report was written.
    ensures fault { IsErrOf result Trouble.SinkFailed → Rose (O.faults out.old) (O.faults out.new) }
    ensures front { IsErrOf result Trouble.SinkFailed
        → OfInput (I.left input.old) (λ bytes. WritesFront (IsReport command bytes) (O.taken out.old) (O.taken out.new)) }
    ensures memory { IsErrOf result Trouble.NoMemory
        → OfInput (I.left input.old) (λ bytes. WritesFront (IsReport command bytes) (O.taken out.old) (O.taken out.new)) }
{
    let Some(command) = command else {
        return write(&refuse_words(alloc)?, out);
    };
    match read_all(alloc, input) {
        Ok(bytes) => respond(alloc, command, &bytes, out),
        Err(ReadTrouble::TooLong) => write(&refuse_length(alloc)?, out),
        Err(ReadTrouble::ReadFault) => Err(Trouble::SourceFailed),
        Err(ReadTrouble::NoMemory) => Err(Trouble::NoMemory),
    }
}
