//! A line of a case in its parts: bytes as they stand, and escapes.

use crate::fault::Fault;
use std::alloc::Global;

/// A part of a line.
#[derive(Clone, Copy)]
pub enum Part<'a> {
    /// Bytes as they stand.
    Text(&'a str),
    /// A byte that an escape names.
    Byte(u8),
    /// The parts from here to the closing one stand so many times.
    Opening(u32),
    /// The end of what stands so many times.
    Closing,
    /// How often what is repeated stood before.
    Counter,
    /// One more than that.
    Next,
    /// The unit is cut here.
    Cut,
    /// The place after the last byte of the unit.
    End,
}

/// The parts of a line, in order.
pub fn parts_of<'a>(alloc: Global, line: &'a str) -> Result<Vec<Part<'a>>, Fault> {
    let mut parts = Vec::new(alloc);
    let mut is_text = true;
    for piece in line.split('\\') {
        is_text = if is_text {
            parts.push(Part::Text(piece))?;
            false
        } else {
            push_escape(&mut parts, piece)?
        };
    }
    if is_text {
        return Err(Fault::Escape);
    }
    Ok(parts)
}

// Adds what a backslash and the piece after it say, and tells whether that was a backslash itself, so that the next piece
// is text.
fn push_escape<'a>(parts: &mut Vec<Part<'a>>, piece: &'a str) -> Result<bool, Fault> {
    if piece.is_empty() {
        parts.push(Part::Byte(b'\\'))?;
        return Ok(true);
    }
    let Some((part, rest)) = escape_in(piece) else {
        return Err(Fault::Escape);
    };
    parts.push(part)?;
    parts.push(Part::Text(rest))?;
    Ok(false)
}

// The escape that a piece begins with, and the rest.
fn escape_in(piece: &str) -> Option<(Part<'_>, &str)> {
    let (letter, rest) = piece.split_at_checked(1)?;
    match letter.as_bytes() {
        b"n" => Some((Part::Byte(b'\n'), rest)),
        b"t" => Some((Part::Byte(b'\t'), rest)),
        b"x" => byte_in(rest),
        b"{" => opening_in(rest),
        b"}" => Some((Part::Closing, rest)),
        b"#" => Some((Part::Counter, rest)),
        b"+" => Some((Part::Next, rest)),
        b"|" => Some((Part::Cut, rest)),
        b"e" => Some((Part::End, rest)),
        _ => None,
    }
}

// The byte that two hexadecimal digits name, and the rest.
fn byte_in(piece: &str) -> Option<(Part<'_>, &str)> {
    let (digits, rest) = piece.split_at_checked(2)?;
    let byte = u8::from_str_radix(digits, 16).ok()?;
    Some((Part::Byte(byte), rest))
}

// A number of times before a colon, and the rest.
fn opening_in(piece: &str) -> Option<(Part<'_>, &str)> {
    let (digits, rest) = piece.split_once(':')?;
    let times = digits.parse::<u32>().ok()?;
    Some((Part::Opening(times), rest))
}
