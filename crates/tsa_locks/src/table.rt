//! A table of locks: for each lock its owner, and for each thread how often it shares the lock. No call but `new` takes memory.
ghost use Rattle.std.specs.Prelude.{◌≡◌, ℕ, ◌*◌, ◌+◌, ◌<◌, nat_lt, length, Some, None, IsSome, get_or, IfOk};
ghost use Rattle.tsa_locks.specs.declared.table.Owner.{Owner};

use std::alloc::Global;
use tsa_base::NoMemory;

/// What comes of a taking: it is done, or it waits for a thread.
#[derive(Clone, Copy, Debug, PartialEq, Eq)]
pub enum Taking {
    Done,
    Waits(u32),
}

/// What comes of a giving.
#[derive(Clone, Copy, Debug, PartialEq, Eq)]
pub enum Giving {
    Done,
    NotHeld,
}

/// Who has a lock alone, and how often it took that.
#[derive(Clone, Copy, Debug, PartialEq, Eq)]
pub struct Owner {
    pub thread: u32,
    pub depth: u32,
}

/// Locks by their numbers, and the holds of so many threads. A lock that somebody owns nobody shares.
#[derive(Drop)]
pub struct LockTable {
    threads: u32,
    owners: Vec<Option<Owner>>,
    counts: Vec<u32>,
    ghost long: { length counts.items ≡ length owners.items * threads },
    ghost known: { (lock : ℕ) (o : Owner) → get_or owners.items lock None ≡ Some o → (o.thread < threads) × (0 < o.depth) },
    ghost apart: { (lock thread : ℕ) → lock < length owners.items → thread < threads → IsSome (get_or owners.items lock None)
        → get_or counts.items (lock * threads + thread) 0 ≡ 0 },
}

impl LockTable {
    ghost use Rattle.tsa_locks.specs.Tables.{count_of, depth_of, locks_of, owner_of, owner_in, IsFree, IsHolder, SetsCount, SetsOwner};

    /// So many locks for so many threads, all of which are free: 4 bytes for each lock and thread, and 12 for each lock.
    pub fn new(alloc: Global, locks: u32, threads: u32) -> Result<LockTable, NoMemory>
        ensures locks { IfOk result (λ table. locks_of table ≡ locks) }
        ensures threads { IfOk result (λ table. table.threads ≡ threads) }
        ensures free { IfOk result (λ table. (lock : ℕ) → lock < locks → IsFree table lock) }
    {
        let owners = vec![in alloc; None; locks as usize]?;
        let counts = vec![in alloc; 0; locks as usize * threads as usize]?;
        Ok(LockTable {
            threads,
            owners,
            counts,
        })
    }

    /// Whether a lock is in the table.
    pub fn has(&self, lock: u32) -> bool
        ensures { result ≡ nat_lt lock (locks_of self.now) }
    {
        (lock as usize) < self.owners.len()
    }

    /// How often a thread shares a lock.
    pub fn count(&self, lock: u32, thread: u32) -> u32
        requires lock { lock < locks_of self.now }
        requires thread { thread < self.now.threads }
        ensures { result ≡ count_of self.now lock thread }
    {
        self.counts[lock as usize * self.threads as usize + thread as usize]
    }

    /// The thread that has a lock alone.
    pub fn owner(&self, lock: u32) -> Option<u32>
        requires { lock < locks_of self.now }
        ensures { result ≡ owner_of self.now lock }
    {
        self.owners[lock as usize].map(|owner| owner.thread)
    }

    /// How often a thread has a lock alone.
    pub fn depth(&self, lock: u32, thread: u32) -> u32
        requires lock { lock < locks_of self.now }
        ensures { result ≡ depth_of self.now lock thread }
    {
        match self.owners[lock as usize] {
            Some(owner) if owner.thread == thread => owner.depth,
            _ => 0,
        }
    }

    /// Who has a lock alone, else the first thread that shares it.
    pub(crate) fn holder(&self, lock: u32) -> Option<u32>
        requires { lock < locks_of self.now }
        ensures some { (h : ℕ) → result ≡ Some h → IsHolder self.now lock h }
        ensures none { result ≡ None → IsFree self.now lock }
    {
        if let Some(owner) = self.owners[lock as usize] {
            return Some(owner.thread);
        }
        'threads: for thread in 0..self.threads {
            if self.count(lock, thread) > 0 {
                return Some(thread);
            }
        }
        None
    }

    /// A lock that nobody shares gets an owner, who took it so often.
    pub(crate) fn set_owner(&mut self, lock: u32, thread: u32, depth: u32)
        requires lock { lock < locks_of self.old }
        requires thread { thread < self.old.threads }
        requires depth { 0 < depth }
        requires unshared { (t : ℕ) → t < self.old.threads → count_of self.old lock t ≡ 0 }
        ensures { SetsOwner self.old self.new lock (Some (record { thread = thread; depth = depth })) }
    {
        self.owners[lock as usize] = Some(Owner { thread, depth });
    }

    /// A lock loses its owner, or has none.
    pub(crate) fn clear_owner(&mut self, lock: u32)
        requires { lock < locks_of self.old }
        ensures { SetsOwner self.old self.new lock None }
    {
        self.owners[lock as usize] = None;
    }

    /// A thread shares a lock without an owner so often.
    pub(crate) fn set_count(&mut self, lock: u32, thread: u32, count: u32)
        requires lock { lock < locks_of self.old }
        requires thread { thread < self.old.threads }
        requires free { owner_in self.old lock ≡ None }
        ensures { SetsCount self.old self.new lock thread count }
    {
        self.counts[lock as usize * self.threads as usize + thread as usize] = count;
    }
}
