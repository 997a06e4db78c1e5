//! Locks are taken: alone, again, or together with others; and what waits says for whom.
ghost use Rattle.std.specs.Prelude.{◌^◌, ◌-◌, ◌<◌};
ghost use Rattle.tsa_locks.specs.Tables.{count_of, depth_of, locks_of, ShareAnswers, TakeAgainAnswers, TakeAnswers, TryAgainAnswers, TryAnswers, TryShareAnswers};

use crate::table::{LockTable, Taking};

impl LockTable {
    /// Takes a lock alone, where nobody has it.
    pub fn take(&mut self, lock: u32, thread: u32) -> Taking
        requires lock { lock < locks_of self.old }
        requires thread { thread < self.old.threads }
        ensures { TakeAnswers self.old lock thread result self.new }
    {
        match self.holder(lock) {
            Some(holder) => Taking::Waits(holder),
            None => {
                self.set_owner(lock, thread, 1);
                Taking::Done
            }
        }
    }

    /// Takes a lock alone, where nobody has it but the thread itself, alone.
    pub fn take_again(&mut self, lock: u32, thread: u32) -> Taking
        requires lock { lock < locks_of self.old }
        requires thread { thread < self.old.threads }
        requires room { depth_of self.old lock thread < 2 ^ 32 - 1 }
        ensures { TakeAgainAnswers self.old lock thread result self.new }
    {
        let depth = self.depth(lock, thread);
        if depth == 0 {
            return self.take(lock, thread);
        }
        self.set_owner(lock, thread, depth + 1);
        Taking::Done
    }

    /// Takes a lock together with others, where nobody has it alone.
    pub fn take_shared(&mut self, lock: u32, thread: u32) -> Taking
        requires lock { lock < locks_of self.old }
        requires thread { thread < self.old.threads }
        requires room { count_of self.old lock thread < 2 ^ 32 - 1 }
        ensures { ShareAnswers self.old lock thread result self.new }
    {
        match self.owner(lock) {
            Some(owner) => Taking::Waits(owner),
            None => {
                let count = self.count(lock, thread);
                self.set_count(lock, thread, count + 1);
                Taking::Done
            }
        }
    }

    /// Takes a lock alone, and answers whether it did.
    pub fn try_take(&mut self, lock: u32, thread: u32) -> bool
        requires lock { lock < locks_of self.old }
        requires thread { thread < self.old.threads }
        ensures { TryAnswers self.old lock thread result self.new }
    {
        match self.take(lock, thread) {
            Taking::Done => true,
            Taking::Waits(_) => false,
        }
    }

    /// Takes a lock alone, where nobody has it but the thread itself, alone, and answers whether it did.
    pub fn try_take_again(&mut self, lock: u32, thread: u32) -> bool
        requires lock { lock < locks_of self.old }
        requires thread { thread < self.old.threads }
        requires room { depth_of self.old lock thread < 2 ^ 32 - 1 }
        ensures { TryAgainAnswers self.old lock thread result self.new }
    {
        match self.take_again(lock, thread) {
            Taking::Done => true,
            Taking::Waits(_) => false,
        }
    }

    /// Takes a lock together with others, and answers whether it did.
    pub fn try_take_shared(&mut self, lock: u32, thread: u32) -> bool
        requires lock { lock < locks_of self.old }
        requires thread { thread < self.old.threads }
        requires room { count_of self.old lock thread < 2 ^ 32 - 1 }
        ensures { TryShareAnswers self.old lock thread result self.new }
    {
        match self.take_shared(lock, thread) {
            Taking::Done => true,
            Taking::Waits(_) => false,
        }
    }
}
