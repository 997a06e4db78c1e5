//! Reads a source to its end.
ghost use Rattle.std.specs.Prelude.{◌≡◌, ◌+◌, ◌≤◌, ◌↔◌, IfOk, OnOk, IsErrOf, vec_len};
ghost use Rattle.std.specs.Io.KnownBytes.{Consumes, IsAtEnd};
ghost use Rattle.tsa_base.specs.Causes.{Rose};
ghost use Rattle.tsa_base.specs.Transfer.{Takes};

use crate::{INPUT_LIMIT, Source};
use std::alloc::Global;
use thiserror::Error;

/// Why an input was not read to its end.
#[derive(Clone, Copy, Debug, PartialEq, Eq, Error)]
pub enum ReadTrouble {
    #[error("the source failed")]
    ReadFault,
    #[error("the input is too long")]
    TooLong,
    #[error("no memory")]
    NoMemory,
}

const PIECE: usize = 4096;

/// Reads the source to its end, or up to one byte more than an input may have. `ReadFault` comes only where the
/// source's count of faults rose. After a refusal the bytes that were pulled are gone.
pub fn read_all<I: Source>(alloc: Global, source: &mut I) -> Result<Vec<u8>, ReadTrouble>
    ensures all { IfOk result (λ bytes. Consumes (I.left source.old) (I.left source.new) bytes.items) }
    ensures end { OnOk result (IsAtEnd (I.left source.new)) }
    ensures within { IfOk result (λ bytes. vec_len bytes ≤ INPUT_LIMIT) }

    // `TooLong` comes exactly where one byte more than the limit was pulled, and then no more is.
    ensures pulled { Takes (I.left source.old) (I.left source.new)
        (λ n. (n ≤ INPUT_LIMIT + 1) × (IsErrOf result ReadTrouble.TooLong ↔ (n ≡ INPUT_LIMIT + 1))) }
    ensures fault { IsErrOf result ReadTrouble.ReadFault → Rose (I.faults source.old) (I.faults source.new) }
    ensures later { I.faults source.old ≤ I.faults source.new }
{
    let mut bytes = Vec::new(alloc);
    let mut piece = [0; PIECE];
    'pieces: loop {
        let room = PIECE.min(INPUT_LIMIT + 1 - bytes.len());
        let Ok(count) = source.pull(&mut piece[..room]) else {
            return Err(ReadTrouble::ReadFault);
        };
        if count == 0 {
            return Ok(bytes);
        }
        if bytes.len() + count > INPUT_LIMIT {
            return Err(ReadTrouble::TooLong);
        }
        if bytes.extend_from_slice(&piece[..count]).is_err() {
            return Err(ReadTrouble::NoMemory);
        }
    }
}
