//! The bytes that the lines of a case stand for.

use crate::fault::Fault;
use crate::notation::{Part, parts_of};
use std::alloc::Global;

/// Lines joined by line ends, and where they are cut.
#[derive(Drop)]
pub struct Text {
    alloc: Global,
    pub bytes: Vec<u8>,
    pub cuts: Vec<usize>,
    /// There is a line, which may be empty.
    pub has_lines: bool,
}

impl Text {
    /// No line yet.
    pub fn new(alloc: Global) -> Text {
        Text {
            alloc,
            bytes: Vec::new(alloc),
            cuts: Vec::new(alloc),
            has_lines: false,
        }
    }

    /// Adds the line end that stands before each line but the first.
    fn begin_line(&mut self) -> Result<(), Fault> {
        if self.has_lines {
            self.bytes.push(b'\n')?;
        }
        self.has_lines = true;
        Ok(())
    }

    /// Adds the lines of another text, which is not cut.
    pub fn add_text(&mut self, other: &Text) -> Result<(), Fault> {
        self.begin_line()?;
        self.bytes.extend_from_slice(&other.bytes)?;
        if !other.cuts.is_empty() {
            return Err(Fault::Misplaced);
        }
        Ok(())
    }

    /// Adds a line of a unit, or one of an answer to a unit that ends at a place.
    pub fn add_line(&mut self, line: &str, end: Option<&str>) -> Result<(), Fault> {
        self.begin_line()?;
        let parts = parts_of(self.alloc, line)?;
        let mut opened = None;
        for (at, part) in parts.iter().enumerate() {
            match (*part, opened) {
                (Part::Opening(times), None) => opened = Some((times, at)),
                (Part::Closing, Some((times, from))) => {
                    self.repeat(times, parts.get(from..at).unwrap_or(&[]))?;
                    opened = None;
                }
                (Part::Opening(_), Some(_)) | (Part::Closing, None) => {
                    return Err(Fault::Repetition);
                }
                (part, None) => self.add_part(part, 0, end)?,
                (_, Some(_)) => {}
            }
        }
        if opened.is_some() {
            return Err(Fault::Repetition);
        }
        Ok(())
    }

    // Adds the parts after the first, which opens the repetition, so many times.
    fn repeat(&mut self, times: u32, parts: &[Part<'_>]) -> Result<(), Fault> {
        for count in 0..times {
            for part in parts.iter().skip(1) {
                self.add_part(*part, count, None)?;
            }
        }
        Ok(())
    }

    // Adds one part, which stood so many times before: in an answer `end` is the place where the unit ends.
    fn add_part(&mut self, part: Part<'_>, count: u32, end: Option<&str>) -> Result<(), Fault> {
        match (part, end) {
            (Part::Text(text), _) => self.bytes.extend_from_slice(text.as_bytes())?,
            (Part::Byte(byte), _) => self.bytes.push(byte)?,
            (Part::Counter, _) => self.add_number(count)?,
            (Part::Next, _) => self.add_number(count.saturating_add(1))?,
            (Part::Cut, None) => self.cuts.push(self.bytes.len())?,
            (Part::End, Some(end)) => self.bytes.extend_from_slice(end.as_bytes())?,
            _ => return Err(Fault::Misplaced),
        }
        Ok(())
    }

    // Adds the digits of a number.
    fn add_number(&mut self, number: u32) -> Result<(), Fault> {
        let digits = number.to_string(self.alloc)?;
        Ok(self.bytes.extend_from_slice(digits.as_bytes())?)
    }
}

/// The place after the last byte: the line and the column, from 1, with a colon between.
pub fn end_of(alloc: Global, text: &[u8]) -> Result<String, Fault> {
    let mut line = 1u32;
    let mut column = 1u32;
    for byte in text {
        if *byte == b'\n' {
            line = line.saturating_add(1);
            column = 1;
        } else {
            column = column.saturating_add(1);
        }
    }
    Ok(format!(in alloc; "{line}:{column}")?)
}
