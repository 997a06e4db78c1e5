//! A file of blocks: each is judged at the blank line after it, or at the end of the file.

use crate::block::{Block, Front};
use crate::case::{Case, Tally, Wanted};
use crate::fault::Fault;
use crate::text::Text;
use std::alloc::Global;

/// A file that is read: what holds for the blocks that follow, and the lines of the block so far.
#[derive(Drop)]
pub struct File<'t> {
    name: &'t str,
    pub line: u32,
    sentence: &'t str,
    words: &'t str,
    block: Block<'t>,
}

impl<'t> File<'t> {
    /// The file of a name, before its first line.
    pub fn new(alloc: Global, name: &'t str) -> File<'t> {
        File {
            name,
            line: 0,
            sentence: "",
            words: "",
            block: Block::new(alloc),
        }
    }

    /// Takes the lines of the file.
    pub fn take_all(
        &mut self,
        text: &'t str,
        fronts: &mut Vec<Front>,
        tally: &mut Tally,
    ) -> Result<(), Fault> {
        for line in text.lines() {
            self.line = self.line.saturating_add(1);
            self.take(line, fronts, tally)?;
        }
        self.close(fronts, tally)
    }

    // Takes a line.
    fn take(
        &mut self,
        line: &'t str,
        fronts: &mut Vec<Front>,
        tally: &mut Tally,
    ) -> Result<(), Fault> {
        if line.is_empty() {
            return self.close(fronts, tally);
        }
        match split_mark(line).ok_or(Fault::Mark)? {
            (b'#', rest) => self.sentence = rest,
            (b'$', rest) => self.words = rest,
            (mark, rest) => self.block.take(mark, rest, fronts)?,
        }
        Ok(())
    }

    // Ends the block: it says a front, is judged, or says nothing.
    fn close(&mut self, fronts: &mut Vec<Front>, tally: &mut Tally) -> Result<(), Fault> {
        let block = std::mem::replace(&mut self.block, Block::new(tally.alloc));
        if block.is_empty() {
            return Ok(());
        }
        match (block.front, block.wanted) {
            (Some(name), None) => add_front(tally.alloc, fronts, name, block.unit),
            (None, Some(wanted)) if block.has_unit() => self.judge(&block, wanted, tally),
            _ => Err(Fault::Part),
        }
    }

    // Judges the units of a block.
    fn judge(&self, block: &Block<'t>, wanted: Wanted, tally: &mut Tally) -> Result<(), Fault> {
        let alloc = tally.alloc;
        let words = words_of(alloc, self.words)?;
        let place = format!(in alloc; "{}:{}", self.name, self.line)?;
        let case = Case {
            place: place.as_str(),
            sentence: self.sentence,
            words: &words,
            wanted,
            answer: &block.answer,
        };
        if block.lasts.is_empty() {
            return tally.judge(case, &block.unit);
        }
        for last in &block.lasts {
            let mut unit = Text::new(alloc);
            if block.unit.has_lines {
                unit.add_text(&block.unit)?;
            }
            unit.add_line(last, None)?;
            tally.judge(case, &unit)?;
        }
        Ok(())
    }
}

// The mark that a line begins with, and what stands after the blank after it.
fn split_mark(line: &str) -> Option<(u8, &str)> {
    let (mark, rest) = line.split_at_checked(1)?;
    let mark = *mark.as_bytes().first()?;
    if rest.is_empty() {
        return Some((mark, rest));
    }
    Some((mark, rest.strip_prefix(' ')?))
}

// Keeps a front for the blocks that follow.
fn add_front(alloc: Global, fronts: &mut Vec<Front>, name: &str, text: Text) -> Result<(), Fault> {
    let name = String::from_str(alloc, name)?;
    fronts.push(Front { name, text })?;
    Ok(())
}

// The words of a command, which blanks separate.
fn words_of(alloc: Global, line: &str) -> Result<Vec<String>, Fault> {
    let mut words = Vec::new(alloc);
    for word in line.split_whitespace() {
        words.push(String::from_str(alloc, word)?)?;
    }
    Ok(words)
}
