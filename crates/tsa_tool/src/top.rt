//! The top call.
ghost use Rattle.std.specs.Prelude.{◌≡◌, ◌≤◌, Some, map, string_bytes};
ghost use Rattle.std.specs.Io.KnownBytes.{Keeps};
ghost use Rattle.tsa_base.specs.Causes.{Rose};
ghost use Rattle.tsa_tool.specs.Commands.{command_of};
ghost use Rattle.tsa_tool.specs.Reports.{IsReport, Reads};
ghost use Rattle.tsa_tool.specs.Runs.{OfInput, IsAnswer, Answers, ReadsItsInput, WritesFront};
ghost use Rattle.tsa_tool.specs.Units.{SpellsSoundUnit};
ghost use Rattle.tsa_tool.specs.declared.command.Command.TheVariants.{Check};

use crate::command::command_from;
use crate::exchange::{Trouble, ask};
use std::alloc::Global;
use tsa_base::{Sink, Source};

const SOURCE_FAILED: u8 = 4;

const SINK_FAILED: u8 = 5;

const NO_MEMORY: u8 = 6;

/// Runs the command that the words ask for on the input, writes its answer, and gives the program's exit status: that
/// of the answer, or 4 where the source failed, 5 where the sink failed, and 6 for want of memory. The words don't
/// include the program's name.
pub fn tool<I: Source, O: Sink>(alloc: Global, words: &[String], input: &mut I, out: &mut O) -> u8
    ensures answer { IsAnswer result → OfInput (I.left input.old) (λ bytes.
        Answers (command_of (map string_bytes words.now)) bytes (O.taken out.old) (O.taken out.new) result) }
    ensures consumed { IsAnswer result → OfInput (I.left input.old) (λ bytes.
        ReadsItsInput (command_of (map string_bytes words.now)) bytes (I.left input.old) (I.left input.new)) }

    // The unit of an input that is accepted is sound.
    ensures sound { result ≡ 0 → command_of (map string_bytes words.now) ≡ Some Check → OfInput (I.left input.old) SpellsSoundUnit }

    // The source failed: a command that reads, and nothing was written.
    ensures reads { result ≡ 4 → Reads (command_of (map string_bytes words.now)) }
    ensures read_fault { result ≡ 4 → Rose (I.faults input.old) (I.faults input.new) }
    ensures silent { result ≡ 4 → Keeps (O.taken out.old) (O.taken out.new) }

    // The sink failed, or there was no memory: a first part of the report was written.
    ensures write_fault { result ≡ 5 → Rose (O.faults out.old) (O.faults out.new) }
    ensures write_front { result ≡ 5 → OfInput (I.left input.old) (λ bytes.
        WritesFront (IsReport (command_of (map string_bytes words.now)) bytes) (O.taken out.old) (O.taken out.new)) }
    ensures memory { result ≡ 6 → OfInput (I.left input.old) (λ bytes.
        WritesFront (IsReport (command_of (map string_bytes words.now)) bytes) (O.taken out.old) (O.taken out.new)) }
    ensures statuses { result ≤ 7 }
{
    match ask(alloc, command_from(words), input, out) {
        Ok(status) => status.number(),
        Err(Trouble::SourceFailed) => SOURCE_FAILED,
        Err(Trouble::SinkFailed) => SINK_FAILED,
        Err(Trouble::NoMemory) => NO_MEMORY,
    }
}
