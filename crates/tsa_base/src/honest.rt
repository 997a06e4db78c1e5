//! A source and a sink in memory that never fail.
ghost use Rattle.std.specs.Prelude.{◌≡◌, ◌<◌, ◌≤◌, ◌++◌, List, ℕ, [], IfOk, IsOk, IsErrOf, OnErr, drop, length, min, vec_len, Err, Some};
ghost use Rattle.std.specs.Io.{ReadsAtMost, WritesAtMost};
ghost use Rattle.std.specs.Io.KnownBytes.{ReadConsumes, WriteAppends};

use crate::memory::copy_front;
use crate::{Failed, NoMemory, PushTrouble, Sink, Source};
use std::alloc::Global;
use std::marker::Model;

/// Bytes in memory, given without a fault. Contracts see the bytes that are left.
#[derive(Drop)]
pub struct HonestSource {
    bytes: Vec<u8>,
    at: usize,
}

impl Model for HonestSource {
    ghost Value = { List ℕ };

    ghost view = { λ s. drop s.at s.bytes.items };

    ghost invariant = { λ s. s.at ≤ vec_len s.bytes };
}

impl HonestSource {
    /// A source of these bytes.
    pub fn new(alloc: Global, bytes: &[u8]) -> Result<HonestSource, NoMemory>
        ensures { IfOk result (λ source. source ≡ bytes.now) }
    {
        Ok(HonestSource {
            bytes: bytes.to_vec(alloc)?,
            at: 0,
        })
    }
}

impl Source for HonestSource {
    ghost left = { λ s. Some s };

    ghost faults = { λ s. 0 };

    /// Gives all that the bytes left and the buffer allow.
    fn pull(&mut self, into: &mut [u8]) -> Result<usize, Failed>
        ensures bound { ReadsAtMost result into.new }
        ensures bytes { ReadConsumes (Some self.old) (Some self.new) result into.new }
        ensures ok { IsOk result }
        ensures width { IfOk result (λ n. n ≡ min (length into.old) (length self.old)) }
    {
        let count = into.len().min(self.bytes.len() - self.at);
        copy_front(&self.bytes, self.at, count, into);
        self.at += count;
        Ok(count)
    }
}

/// Bytes in memory, taken without a fault. Contracts see the bytes that were taken.
#[derive(Drop)]
pub struct HonestSink {
    bytes: Vec<u8>,
}

impl Model for HonestSink {
    ghost Value = { List ℕ };

    ghost view = { λ s. s.bytes.items };
}

impl HonestSink {
    /// A sink that holds nothing yet.
    pub fn new(alloc: Global) -> HonestSink
        ensures { result ≡ [] }
    {
        HonestSink {
            bytes: Vec::new(alloc),
        }
    }

    /// All bytes that were taken.
    pub fn taken(&self) -> &[u8]
        ensures { result.now ≡ self.now }
    {
        &self.bytes
    }
}

impl Sink for HonestSink {
    ghost taken = { λ s. Some s };

    ghost faults = { λ s. 0 };

    /// Takes the whole piece. Its only refusal is want of memory.
    fn push(&mut self, piece: &[u8]) -> Result<usize, PushTrouble>
        requires { 0 < length piece.now }
        ensures some { IfOk result (λ n. 0 < n) }
        ensures bound { WritesAtMost result piece.now }
        ensures bytes { WriteAppends (Some self.old) (Some self.new) result piece.now }
        ensures whole { IfOk result (λ n. n ≡ length piece.now) }
        ensures memory { OnErr result (result ≡ Err PushTrouble.NoMemory) }
    {
        if self.bytes.extend_from_slice(piece).is_err() {
            return Err(PushTrouble::NoMemory);
        }
        Ok(piece.len())
    }
}
