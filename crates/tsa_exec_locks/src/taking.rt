//! A lock of a table is taken and given back in a mode; one beyond the table is free and stays so.
ghost use Rattle.std.specs.Prelude.{◌<◌};
ghost use Rattle.tsa_exec_locks.specs.Changes.{GivesBackOfAll, GivesOfAll, HasRoom, OneMoreAtMost, TakesOfAll};
ghost use Rattle.tsa_locks.specs.Locks.{Exclusive};
ghost use Rattle.tsa_locks.specs.Tables.{locks_of};

use tsa_locks::{Giving, LockTable, Taking};
use tsa_sched::Mode;

/// A lock by its place, and whether the thread that has it alone may take it again.
#[derive(Clone, Copy, Debug, PartialEq, Eq)]
pub struct LockPlace {
    pub place: u32,
    pub is_reentrant: bool,
}

/// Takes a lock of the table alone.
fn take_alone(locks: &mut LockTable, lock: LockPlace, thread: u32) -> Taking
    requires lock { lock.place < locks_of locks.old }
    requires thread { thread < locks.old.threads }
    requires room { HasRoom locks.old lock.place thread }
    ensures takes { TakesOfAll lock.is_reentrant Exclusive lock.place thread result locks.old locks.new }
    ensures holds { OneMoreAtMost locks.old locks.new }
{
    if lock.is_reentrant {
        locks.take_again(lock.place, thread)
    } else {
        locks.take(lock.place, thread)
    }
}

/// Takes a lock in a mode.
pub(crate) fn take(locks: &mut LockTable, mode: Mode, lock: LockPlace, thread: u32) -> Taking
    requires thread { thread < locks.old.threads }
    requires room { HasRoom locks.old lock.place thread }
    ensures takes { TakesOfAll lock.is_reentrant mode lock.place thread result locks.old locks.new }
    ensures holds { OneMoreAtMost locks.old locks.new }
{
    if !locks.has(lock.place) {
        return Taking::Done;
    }
    match mode {
        Mode::Exclusive => take_alone(locks, lock, thread),
        Mode::Shared => locks.take_shared(lock.place, thread),
    }
}

/// One hold less of a lock of the table in a mode, where the thread has one.
fn give_in(locks: &mut LockTable, mode: Mode, place: u32, thread: u32) -> Giving
    requires lock { place < locks_of locks.old }
    requires thread { thread < locks.old.threads }
    ensures gives { GivesOfAll mode place thread result locks.old locks.new }
    ensures holds { OneMoreAtMost locks.old locks.new }
{
    match mode {
        Mode::Exclusive => locks.give(place, thread),
        Mode::Shared => locks.give_shared(place, thread),
    }
}

/// One hold less of a lock, in a mode or in whichever the thread has it; and which it was.
pub(crate) fn give(
    locks: &mut LockTable,
    mode: Option<Mode>,
    place: u32,
    thread: u32,
) -> Option<Mode>
    requires thread { thread < locks.old.threads }
    ensures gives { GivesBackOfAll mode place thread result locks.old locks.new }
    ensures holds { OneMoreAtMost locks.old locks.new }
{
    if !locks.has(place) {
        return None;
    }
    match mode {
        None => locks.give_any(place, thread),
        Some(mode) => match give_in(locks, mode, place, thread) {
            Giving::Done => Some(mode),
            Giving::NotHeld => None,
        },
    }
}
