//! One unit given to the analyser, and what it answers beside what is written.

use crate::fault::Fault;
use crate::text::{Text, end_of};
use std::alloc::Global;
use std::fmt::Write;
use tsa_base::{HonestSink, HonestSource};
use tsa_tool::tool;

/// What is wanted of an answer.
#[derive(Clone, Copy)]
pub enum Wanted {
    /// This status and the text that is written; of some, that the text, given as a unit, is its own answer.
    Exactly { status: u8, twice: bool },
    /// That the unit is judged, whatever is warned of.
    Judged,
}

impl Wanted {
    // The status, where one is wanted.
    fn status(self) -> u8 {
        match self {
            Wanted::Exactly { status, .. } => status,
            Wanted::Judged => 0,
        }
    }

    // Whether the answer is to be given as a unit.
    fn is_twice(self) -> bool {
        match self {
            Wanted::Exactly { twice, .. } => twice,
            Wanted::Judged => false,
        }
    }

    // Whether a status and a text are what is wanted, where a text is written.
    fn takes(self, given: u8, taken: &[u8], written: &[u8]) -> bool {
        match self {
            Wanted::Exactly { status, .. } => given == status && taken == written,
            Wanted::Judged => given <= 1,
        }
    }
}

/// What is wanted of each unit of a block, and what it shows.
#[derive(Clone, Copy)]
pub struct Case<'c, 't> {
    pub place: &'c str,
    pub sentence: &'c str,
    pub words: &'c [String],
    pub wanted: Wanted,
    pub answer: &'c [&'t str],
}

/// How many units are answered as written, how many are not, and a text that says which.
#[derive(Drop)]
pub struct Tally {
    pub alloc: Global,
    pub right: u32,
    pub wrong: u32,
    pub report: String,
}

impl Tally {
    /// Nothing is counted yet.
    pub fn new(alloc: Global) -> Tally {
        Tally {
            alloc,
            right: 0,
            wrong: 0,
            report: String::new(alloc),
        }
    }

    /// Judges a unit, or what it is up to each of its cuts.
    pub fn judge(&mut self, case: Case<'_, '_>, unit: &Text) -> Result<(), Fault> {
        if unit.cuts.is_empty() {
            return self.judge_whole(case, &unit.bytes);
        }
        for cut in &unit.cuts {
            self.judge_whole(case, unit.bytes.get(..*cut).unwrap_or(&[]))?;
        }
        Ok(())
    }

    // Judges a text by its answer, and the answer by itself where the case says so.
    fn judge_whole(&mut self, case: Case<'_, '_>, unit: &[u8]) -> Result<(), Fault> {
        let end = end_of(self.alloc, unit)?;
        let answer = answer_of(self.alloc, case.answer, end.as_str())?;
        self.compare(case, unit, &answer)?;
        if case.wanted.is_twice() {
            self.compare(case, &answer, &answer)?;
        }
        Ok(())
    }

    // Counts the text as right where its status and its answer are those that are wanted, and else tells both.
    fn compare(&mut self, case: Case<'_, '_>, unit: &[u8], wanted: &[u8]) -> Result<(), Fault> {
        let mut source = HonestSource::new(self.alloc, unit)?;
        let mut sink = HonestSink::new(self.alloc);
        let status = tool(self.alloc, case.words, &mut source, &mut sink);
        if case.wanted.takes(status, sink.taken(), wanted) {
            self.right = self.right.saturating_add(1);
            return Ok(());
        }
        self.wrong = self.wrong.saturating_add(1);
        writeln!(self.report, "{}: {}", case.place, case.sentence)?;
        self.tell("wanted", case.wanted.status(), wanted)?;
        self.tell("given", status, sink.taken())
    }

    // Adds a status and an answer to what is told.
    fn tell(&mut self, what: &str, status: u8, answer: &[u8]) -> Result<(), Fault> {
        let text = std::str::from_utf8(answer).unwrap_or("bytes that are no text");
        Ok(writeln!(self.report, "{what} {status}:\n{text}")?)
    }
}

// The lines of an answer to a unit that ends at a place, with a line end after each.
fn answer_of(alloc: Global, lines: &[&str], end: &str) -> Result<Vec<u8>, Fault> {
    let mut answer = Text::new(alloc);
    for line in lines {
        answer.add_line(line, Some(end))?;
    }
    if answer.has_lines {
        answer.bytes.push(b'\n')?;
    }
    Ok(answer.bytes)
}
