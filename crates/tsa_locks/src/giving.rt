//! Locks are given back, one hold at a time.
ghost use Rattle.std.specs.Prelude.{◌<◌};
ghost use Rattle.tsa_locks.specs.Tables.{locks_of, GiveAnyAnswers, GiveAnswers, GiveSharedAnswers};

use crate::table::{Giving, LockTable};
use tsa_sched::Mode;

impl LockTable {
    /// One hold less of a lock that the thread has alone.
    pub fn give(&mut self, lock: u32, thread: u32) -> Giving
        requires lock { lock < locks_of self.old }
        requires thread { thread < self.old.threads }
        ensures { GiveAnswers self.old lock thread result self.new }
    {
        let depth = self.depth(lock, thread);
        if depth == 0 {
            return Giving::NotHeld;
        }
        if depth == 1 {
            self.clear_owner(lock);
        } else {
            self.set_owner(lock, thread, depth - 1);
        }
        Giving::Done
    }

    /// One hold less of a lock that the thread shares.
    pub fn give_shared(&mut self, lock: u32, thread: u32) -> Giving
        requires lock { lock < locks_of self.old }
        requires thread { thread < self.old.threads }
        ensures { GiveSharedAnswers self.old lock thread result self.new }
    {
        let count = self.count(lock, thread);
        if count == 0 {
            return Giving::NotHeld;
        }
        self.set_count(lock, thread, count - 1);
        Giving::Done
    }

    /// One hold less of a lock: of one that the thread has alone, else of one that it shares; and which it was.
    pub fn give_any(&mut self, lock: u32, thread: u32) -> Option<Mode>
        requires lock { lock < locks_of self.old }
        requires thread { thread < self.old.threads }
        ensures { GiveAnyAnswers self.old lock thread result self.new }
    {
        if self.depth(lock, thread) > 0 {
            let _given = self.give(lock, thread);
            return Some(Mode::Exclusive);
        }
        match self.give_shared(lock, thread) {
            Giving::Done => Some(Mode::Shared),
            Giving::NotHeld => None,
        }
    }
}
