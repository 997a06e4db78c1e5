//! The lines of a block: a unit, or several with the same front, and the answer that is wanted.

use crate::case::Wanted;
use crate::fault::Fault;
use crate::text::Text;
use std::alloc::Global;

/// What several units begin with, and its name.
#[derive(Drop)]
pub struct Front {
    pub name: String,
    pub text: Text,
}

/// What the lines of a block said so far.
#[derive(Drop)]
pub struct Block<'t> {
    /// The name of the front that the block says, where it is no case.
    pub front: Option<&'t str>,
    pub unit: Text,
    /// Last lines, each of which makes a unit with the lines before.
    pub lasts: Vec<&'t str>,
    pub wanted: Option<Wanted>,
    pub answer: Vec<&'t str>,
}

impl<'t> Block<'t> {
    /// No line yet.
    pub fn new(alloc: Global) -> Block<'t> {
        Block {
            front: None,
            unit: Text::new(alloc),
            lasts: Vec::new(alloc),
            wanted: None,
            answer: Vec::new(alloc),
        }
    }

    /// Takes the line after a mark.
    pub fn take(&mut self, mark: u8, line: &'t str, fronts: &[Front]) -> Result<(), Fault> {
        match mark {
            b':' => self.front = Some(line),
            b'@' => self.unit.add_text(front_of(fronts, line)?)?,
            b'|' => self.unit.add_line(line, None)?,
            b'*' => self.lasts.push(line)?,
            b'=' => self.set_wanted(line)?,
            b'>' => self.answer.push(line)?,
            _ => return Err(Fault::Mark),
        }
        Ok(())
    }

    // Sets what is wanted, which a block says once.
    fn set_wanted(&mut self, line: &str) -> Result<(), Fault> {
        if self.wanted.is_some() {
            return Err(Fault::Second);
        }
        self.wanted = Some(wanted_in(line).ok_or(Fault::Status)?);
        Ok(())
    }

    /// There is a unit.
    pub fn has_unit(&self) -> bool {
        self.unit.has_lines || !self.lasts.is_empty()
    }

    /// The block says nothing beyond a sentence and words.
    pub fn is_empty(&self) -> bool {
        self.front.is_none() && !self.has_unit() && self.wanted.is_none() && self.answer.is_empty()
    }
}

// The text of the front of a name.
fn front_of<'f>(fronts: &'f [Front], name: &str) -> Result<&'f Text, Fault> {
    for front in fronts {
        if front.name.as_str() == name {
            return Ok(&front.text);
        }
    }
    Err(Fault::Front)
}

// A number, a number and the word `twice`, or the word `judged`.
fn wanted_in(line: &str) -> Option<Wanted> {
    if line == "judged" {
        return Some(Wanted::Judged);
    }
    let (digits, twice) = match line.strip_suffix(" twice") {
        Some(digits) => (digits, true),
        None => (line, false),
    };
    let status = digits.parse::<u8>().ok()?;
    Some(Wanted::Exactly { status, twice })
}
