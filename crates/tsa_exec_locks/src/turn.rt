//! A turn with a lock: what is told of it, and what the lock function answers.
ghost use Rattle.std.specs.Prelude.{◌≡◌, ◌<◌, Some};
ghost use Rattle.tsa_exec_locks.specs.Changes.{HasRoom, OneMoreAtMost};
ghost use Rattle.tsa_exec_locks.specs.Turns.{answer_told, IsTurnOf};
ghost use Rattle.tsa_exec_locks.specs.declared.act.LockAct.TheVariants as doing;
ghost use Rattle.tsa_sched.specs.declared.event.EventKind.TheVariants as telling;

use crate::act::LockAct;
use crate::taking::{LockPlace, give, take};
use tsa_locks::{LockTable, Taking};
use tsa_sched::{EventKind, Mode};

/// What came of a turn with a lock: what is told of it, and the truth that the lock function answers, where the turn doesn't wait.
#[derive(Clone, Copy, Debug, PartialEq, Eq)]
pub struct LockTurn {
    pub event: EventKind,
    pub answer: Option<bool>,
}

/// Takes a lock, or waits.
fn taking_turn(locks: &mut LockTable, mode: Mode, lock: LockPlace, thread: u32) -> LockTurn
    requires thread { thread < locks.old.threads }
    requires room { HasRoom locks.old lock.place thread }
    ensures turn { IsTurnOf (doing.Take mode) lock thread result locks.old locks.new }
    ensures answer { result.answer ≡ answer_told (doing.Take mode) result.event }
    ensures holds { OneMoreAtMost locks.old locks.new }
{
    match take(locks, mode, lock, thread) {
        Taking::Done => LockTurn {
            event: EventKind::Took {
                lock: lock.place,
                mode,
            },
            answer: Some(false),
        },
        Taking::Waits(holder) => LockTurn {
            event: EventKind::Waits {
                lock: lock.place,
                holder,
            },
            answer: None,
        },
    }
}

/// What came of a try to take the lock at a place: whether it took, and the answer that says so.
fn tried_turn(mode: Mode, place: u32, took: bool, answer: bool) -> LockTurn
    ensures { result ≡ record { event = telling.Tried place mode took; answer = Some answer } }
{
    LockTurn {
        event: EventKind::Tried {
            lock: place,
            mode,
            took,
        },
        answer: Some(answer),
    }
}

/// Gives a lock back, where the thread holds it.
fn giving_turn(locks: &mut LockTable, mode: Option<Mode>, lock: LockPlace, thread: u32) -> LockTurn
    requires thread { thread < locks.old.threads }
    ensures turn { IsTurnOf (doing.Give mode) lock thread result locks.old locks.new }
    ensures answer { result.answer ≡ answer_told (doing.Give mode) result.event }
    ensures holds { OneMoreAtMost locks.old locks.new }
{
    match give(locks, mode, lock.place, thread) {
        Some(mode) => LockTurn {
            event: EventKind::Gave {
                lock: lock.place,
                mode,
            },
            answer: Some(false),
        },
        None => LockTurn {
            event: EventKind::NotHeld { lock: lock.place },
            answer: Some(false),
        },
    }
}

/// A thread's turn with a lock: what the machine does, tells and answers where the thread does this act next.
pub fn lock_turn(locks: &mut LockTable, act: LockAct, lock: LockPlace, thread: u32) -> LockTurn
    requires thread { thread < locks.old.threads }
    requires room { HasRoom locks.old lock.place thread }
    ensures turn { IsTurnOf act lock thread result locks.old locks.new }
    ensures answer { result.answer ≡ answer_told act result.event }
    ensures holds { OneMoreAtMost locks.old locks.new }
{
    match act {
        LockAct::Take(mode) => taking_turn(locks, mode, lock, thread),
        LockAct::Try(mode, success) => match take(locks, mode, lock, thread) {
            Taking::Done => tried_turn(mode, lock.place, true, success),
            Taking::Waits(_) => tried_turn(mode, lock.place, false, !success),
        },
        LockAct::Give(mode) => giving_turn(locks, mode, lock, thread),
    }
}
