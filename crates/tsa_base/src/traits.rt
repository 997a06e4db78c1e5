//! Where bytes come from, where they go, and what refuses them.
ghost use Rattle.std.specs.Prelude.{◌≡◌, ◌<◌, ◌≤◌, List, ℕ, length, IfOk, OnErr, IsErrOf};
ghost use Rattle.std.specs.Io.{ReadsAtMost, WritesAtMost};
ghost use Rattle.std.specs.Io.KnownBytes.{ReadConsumes, WriteAppends};
ghost use Rattle.std.specs.declared.option.Option.{Option};
ghost use Rattle.tsa_base.specs.Causes.{Rose};

use std::alloc::{AllocError, AllocFailed};

/// The outside refused a pull.
#[derive(Clone, Copy, Debug, PartialEq, Eq)]
pub struct Failed;

/// Want of memory.
#[derive(Clone, Copy, Debug, PartialEq, Eq)]
pub struct NoMemory;

/// Why a push took nothing.
#[derive(Clone, Copy, Debug, PartialEq, Eq)]
pub enum PushTrouble {
    /// The outside refused it.
    Failed,
    /// There was no memory for it.
    NoMemory,
}

impl From<AllocError> for NoMemory {
    fn from(_: AllocError) -> Self {
        NoMemory
    }
}

impl<T: Drop> From<AllocFailed<T>> for NoMemory {
    fn from(_: AllocFailed<T>) -> Self {
        NoMemory
    }
}

/// Bytes that come piece by piece.
pub trait Source {
    /// The bytes that are left, where the source tells them.
    ghost left: { Self → Option (List ℕ) };

    /// How often a pull was refused. The count never falls, and stands still at the greatest `u64`.
    ghost faults: { Self → ℕ };

    /// Gives the next bytes, at most as many as the buffer has room for, and answers how many. None for a buffer that
    /// isn't empty is the end of the input. `Failed` comes only where the count of faults rose, and nothing is taken
    /// then; of the buffer nothing is said beyond the bytes that were given.
    fn pull(&mut self, into: &mut [u8]) -> Result<usize, Failed>
        ensures bound { ReadsAtMost result into.new }
        ensures bytes { ReadConsumes (left self.old) (left self.new) result into.new }
        ensures later { faults self.old ≤ faults self.new }
        ensures cause { OnErr result (Rose (faults self.old) (faults self.new)) };
}

/// Where bytes go.
pub trait Sink {
    /// The bytes that were taken, where the sink tells them.
    ghost taken: { Self → Option (List ℕ) };

    /// How often a push was refused by the outside. The count never falls, and stands still at the greatest `u64`.
    ghost faults: { Self → ℕ };

    /// Takes the first bytes of the piece, at least one, and answers how many. After a refusal nothing more was taken.
    /// `Failed` comes only where the count of faults rose; `NoMemory` is the sink's own want of memory.
    fn push(&mut self, piece: &[u8]) -> Result<usize, PushTrouble>
        requires { 0 < length piece.now }
        ensures some { IfOk result (λ n. 0 < n) }
        ensures bound { WritesAtMost result piece.now }
        ensures bytes { WriteAppends (taken self.old) (taken self.new) result piece.now }
        ensures later { faults self.old ≤ faults self.new }
        ensures cause { IsErrOf result PushTrouble.Failed → Rose (faults self.old) (faults self.new) };
}
