//! Places in a text, by line and column.
ghost use Rattle.std.specs.Prelude.{◌≤◌, ◌<◌, IfOk, length};
ghost use Rattle.std.specs.List.Sorted.{IsNonDecreasing, IsPartitionPoint};
ghost use Rattle.tsa_base.specs.Places.{AreStarts};

use crate::NoMemory;
use itoa::Buffer;
use std::alloc::Global;
use std::marker::Model;

/// A line and a column, both counted from 1. A column counts bytes.
#[derive(Clone, Copy, Debug, PartialEq, Eq)]
pub struct Place {
    pub line: usize,
    pub column: usize,
}

impl Place {
    ghost use Rattle.std.specs.Prelude.{◌≡◌, ◌++◌, length, take, OnOk, OnErr};
    ghost use Rattle.tsa_base.specs.Places.{place_text};

    /// Appends `L:C: `, both numbers in decimal. A refused call leaves the text as it was.
    pub fn append_to(self, text: &mut Vec<u8>) -> Result<(), NoMemory>
        ensures gives { OnOk result (text.new.items ≡ text.old.items ++ place_text self) }
        ensures kept { OnErr result (text.new.items ≡ text.old.items) }
    {
        let before = text.len();
        let put = self.append_pieces(text);
        if put.is_err() {
            text.truncate(before);
        }
        put
    }

    // The same, where a refusal may leave a first part of it after what the text had.
    #[tactic(auto, unfolding(crate::specs::Places::place_text))]
    fn append_pieces(self, text: &mut Vec<u8>) -> Result<(), NoMemory>
        ensures gives { OnOk result (text.new.items ≡ text.old.items ++ place_text self) }
        ensures front { OnErr result (take (length text.old.items) text.new.items ≡ text.old.items) }
    {
        let mut digits = Buffer::new();
        text.extend_from_slice(digits.format(self.line).as_bytes())?;
        text.extend_from_slice(b":")?;
        text.extend_from_slice(digits.format(self.column).as_bytes())?;
        text.extend_from_slice(b": ")?;
        Ok(())
    }
}

/// A text with the places of the bytes that begin its lines, in order. It borrows the text, and its table has a number
/// for each line. Contracts see the text's bytes.
#[derive(Drop)]
pub struct LineStarts<'t> {
    bytes: &'t [u8],
    starts: Vec<usize>,
}

impl<'t> Model for LineStarts<'t> {
    ghost use Rattle.std.specs.Prelude.{ℕ, List, length};
    ghost use Rattle.tsa_base.specs.Places.{AreStarts};

    ghost Value = { List ℕ };

    ghost view = { λ t. t.bytes.now };

    ghost invariant = { λ t. AreStarts t.bytes.now (length t.bytes.now) t.starts.items };
}

impl<'t> LineStarts<'t> {
    ghost use Rattle.std.specs.Prelude.{◌≡◌, IfOk};
    ghost use Rattle.tsa_base.specs.Places.{place_at};

    /// Makes the table in one pass over the text.
    pub fn new(alloc: Global, bytes: &'t [u8]) -> Result<LineStarts<'t>, NoMemory>
        ensures { IfOk result (λ table. table ≡ bytes.now) }
    {
        let starts = line_starts(alloc, bytes)?;
        Ok(LineStarts { bytes, starts })
    }

    /// The place of a byte, counted from 0, by binary search in the table. Past the end it is the place of the end.
    pub fn place(&self, at: u32) -> Place
        ensures { result ≡ place_at self.now at }
    {
        let at = (at as usize).min(self.bytes.len());
        let line = begun(&self.starts, at);
        let column = at - self.starts[line - 1] + 1;
        Place { line, column }
    }
}

// How many lines begin at a byte or before it.
fn begun(starts: &[usize], at: usize) -> usize
    requires { IsNonDecreasing starts.now }
    ensures within { result ≤ length starts.now }
    ensures begun { IsPartitionPoint (λ s. s ≤ at) (λ s. at < s) starts.now result }
{
    starts.partition_point(|s| *s <= at)
}

// Where each line begins, the first line at 0.
fn line_starts(alloc: Global, bytes: &[u8]) -> Result<Vec<usize>, NoMemory>
    ensures { IfOk result (λ starts. AreStarts bytes.now (length bytes.now) starts.items) }
{
    let mut starts = Vec::new(alloc);
    starts.push(0)?;
    'bytes: for (at, c) in bytes.iter().enumerate() {
        if *c == b'\n' {
            starts.push(at + 1)?;
        }
    }
    Ok(starts)
}
