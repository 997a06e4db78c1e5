//! A source and a sink in memory, whose faults are listed beforehand.
ghost use Rattle.std.specs.Prelude.{◌≡◌, ◌≤◌, ◌↔◌, ◌<◌, ◌+◌, ◌++◌, [], min, take, IfOk, OnErr, IsErr, IsErrOf, IsTrue, Contains, drop};
ghost use Rattle.std.specs.Prelude.{length, vec_len, Some};
ghost use Rattle.std.specs.Io.{ReadsAtMost, WritesAtMost};
ghost use Rattle.std.specs.Io.KnownBytes.{ReadConsumes, WriteAppends};
ghost use Rattle.tsa_base.specs.Causes.{Rose};
ghost use Rattle.tsa_base.specs.Script.{SourceScript, SinkScript, pulled, pull_failed, pushed, push_failed, push_unstored};

use crate::{Failed, NoMemory, PushTrouble, Sink, Source};
use std::alloc::Global;
use std::marker::Model;

/// Bytes in memory, given in pieces of at most a width, with faults at listed pulls. Contracts see everything that its
/// calls need.
#[derive(Drop)]
pub struct MemorySource {
    bytes: Vec<u8>,
    at: usize,
    width: usize,
    failing: Vec<u32>,
    pulls: u64,
    faults: u64,
}

impl Model for MemorySource {
    ghost Value = { SourceScript };

    ghost view = { λ s. record {
      left = drop s.at s.bytes.items;
      width = s.width;
      failing = s.failing.items;
      pulls = s.pulls;
      faults = s.faults;
    } };

    ghost invariant = { λ s. (s.at ≤ vec_len s.bytes) × (1 ≤ s.width) };
}

impl MemorySource {
    /// A source of these bytes. The pulls of these numbers, counted from 0, fail.
    pub fn new(
        alloc: Global,
        bytes: &[u8],
        width: usize,
        failing: &[u32],
    ) -> Result<MemorySource, NoMemory>
        requires { 1 ≤ width }
        ensures { IfOk result (λ source. source ≡ record {
          left = bytes.now;
          width = width;
          failing = failing.now;
          pulls = 0;
          faults = 0;
        }) }
    {
        Ok(MemorySource {
            bytes: bytes.to_vec(alloc)?,
            at: 0,
            width,
            failing: failing.to_vec(alloc)?,
            pulls: 0,
            faults: 0,
        })
    }
}

impl Source for MemorySource {
    ghost left = { λ s. Some s.left };

    ghost faults = { λ s. s.faults };

    /// Fails at exactly the listed pulls, and else gives all that the width, the bytes left and the buffer allow.
    fn pull(&mut self, into: &mut [u8]) -> Result<usize, Failed>
        ensures bound { ReadsAtMost result into.new }
        ensures bytes { ReadConsumes (Some self.old.left) (Some self.new.left) result into.new }
        ensures later { self.old.faults ≤ self.new.faults }
        ensures cause { OnErr result (Rose self.old.faults self.new.faults) }

        // What it does exactly.
        ensures listed { IsErr result ↔ Contains self.old.failing self.old.pulls }
        ensures failed { OnErr result (self.new ≡ pull_failed self.old) }
        ensures given { IfOk result (λ n. self.new ≡ pulled self.old n) }
        ensures width { IfOk result (λ n. n ≡ min self.old.width (min (length self.old.left) (length into.old))) }
    {
        let number = self.pulls;
        self.pulls = number.saturating_add(1);
        if is_listed(&self.failing, number) {
            self.faults = self.faults.saturating_add(1);
            return Err(Failed);
        }
        let count = self.width.min(self.bytes.len() - self.at).min(into.len());
        copy_front(&self.bytes, self.at, count, into);
        self.at += count;
        Ok(count)
    }
}

/// What was pushed, in memory. It takes pieces of at most a width, with faults at listed pushes. Contracts see
/// everything that its calls need.
#[derive(Drop)]
pub struct MemorySink {
    bytes: Vec<u8>,
    width: usize,
    failing: Vec<u32>,
    pushes: u64,
    faults: u64,
}

impl Model for MemorySink {
    ghost Value = { SinkScript };

    ghost view = { λ s. record {
      taken = s.bytes.items;
      width = s.width;
      failing = s.failing.items;
      pushes = s.pushes;
      faults = s.faults;
    } };

    ghost invariant = { λ s. 1 ≤ s.width };
}

impl MemorySink {
    /// A sink that holds nothing yet. The pushes of these numbers, counted from 0, fail.
    pub fn new(alloc: Global, width: usize, failing: &[u32]) -> Result<MemorySink, NoMemory>
        requires { 1 ≤ width }
        ensures { IfOk result (λ sink. sink ≡ record {
          taken = [];
          width = width;
          failing = failing.now;
          pushes = 0;
          faults = 0;
        }) }
    {
        Ok(MemorySink {
            bytes: Vec::new(alloc),
            width,
            failing: failing.to_vec(alloc)?,
            pushes: 0,
            faults: 0,
        })
    }

    /// All bytes that were taken.
    pub fn taken(&self) -> &[u8]
        ensures { result.now ≡ self.now.taken }
    {
        &self.bytes
    }
}

impl Sink for MemorySink {
    ghost taken = { λ s. Some s.taken };

    ghost faults = { λ s. s.faults };

    /// Fails at exactly the listed pushes, and else takes all that the width and the piece allow.
    fn push(&mut self, piece: &[u8]) -> Result<usize, PushTrouble>
        requires { 0 < length piece.now }
        ensures some { IfOk result (λ n. 0 < n) }
        ensures bound { WritesAtMost result piece.now }
        ensures bytes { WriteAppends (Some self.old.taken) (Some self.new.taken) result piece.now }
        ensures later { self.old.faults ≤ self.new.faults }
        ensures cause { IsErrOf result PushTrouble.Failed → Rose self.old.faults self.new.faults }

        // What it does exactly.
        ensures listed { IsErrOf result PushTrouble.Failed ↔ Contains self.old.failing self.old.pushes }
        ensures failed { IsErrOf result PushTrouble.Failed → self.new ≡ push_failed self.old }
        ensures unstored { IsErrOf result PushTrouble.NoMemory → self.new ≡ push_unstored self.old }
        ensures given { IfOk result (λ n. self.new ≡ pushed self.old piece.now n) }
        ensures width { IfOk result (λ n. n ≡ min self.old.width (length piece.now)) }
    {
        let number = self.pushes;
        self.pushes = number.saturating_add(1);
        if is_listed(&self.failing, number) {
            self.faults = self.faults.saturating_add(1);
            return Err(PushTrouble::Failed);
        }
        let count = self.width.min(piece.len());
        if self.bytes.extend_from_slice(&piece[..count]).is_err() {
            return Err(PushTrouble::NoMemory);
        }
        Ok(count)
    }
}

// Copies so many bytes from a place on to the front of a buffer.
pub(crate) fn copy_front(bytes: &[u8], at: usize, count: usize, into: &mut [u8])
    requires there { at + count ≤ length bytes.now }
    requires room { count ≤ length into.old }
    ensures len { length into.new ≡ length into.old }
    ensures given { drop at bytes.now ≡ take count into.new ++ drop (at + count) bytes.now }
{
    into[..count].copy_from_slice(&bytes[at..at + count]);
}

// The number is one of these.
fn is_listed(numbers: &[u32], number: u64) -> bool
    ensures { IsTrue result ↔ Contains numbers.now number }
{
    numbers.iter().any(|n| u64::from(*n) == number)
}
