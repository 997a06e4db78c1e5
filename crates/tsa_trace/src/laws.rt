//! Laws of lines.
ghost use Rattle.tsa_trace.specs.Examples.{EventLinesAreAsWritten, RaceLinesAreAsWritten};

/// The lines of events say what the table of their texts says, kind by kind.
#[tactic(auto, using(crate::proofs::Examples::event_lines_are_as_written))]
pub fn event_lines_are_as_written()
    ensures { EventLinesAreAsWritten }
{}

/// The lines of races name the cell, and the point and the access of each side.
#[tactic(auto, using(crate::proofs::Examples::race_lines_are_as_written))]
pub fn race_lines_are_as_written()
    ensures { RaceLinesAreAsWritten }
{}
