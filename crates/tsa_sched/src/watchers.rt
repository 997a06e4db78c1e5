//! The watchers of the program.
ghost use Rattle.std.specs.Prelude.{◌≡◌, ◌++◌, ◌∷◌, [], ◌≤◌, nat_lt, length, take, flat_map, if◌then◌else◌, codes, OnOk};
ghost use Rattle.std.specs.Fmt.{decimal};
ghost use Rattle.tsa_sched.specs.Watchers.{counted as spec_counted, counts_next, counts_text, last_next, last_text, without_first};

use crate::event::{Event, EventKind};
use crate::watcher::Watcher;
use itoa::Buffer;
use std::alloc::Global;
use tsa_base::NoMemory;

/// One more where something is so; a count stays at the greatest number.
fn counted(is_one: bool, count: u64) -> u64
    ensures { result ≡ spec_counted is_one count }
{
    if is_one {
        count.saturating_add(1)
    } else {
        count
    }
}

/// Appends a number in decimal.
fn put_number(text: &mut Vec<u8>, number: u64) -> Result<(), NoMemory>
    ensures { OnOk result (text.new.items ≡ text.old.items ++ decimal number) }
{
    let mut digits = Buffer::new();
    text.extend_from_slice(digits.format(number).as_bytes())?;
    Ok(())
}

/// Counts reads, writes, waits and violations.
#[derive(Drop)]
pub struct EventCounts {
    reads: u64,
    writes: u64,
    waits: u64,
    violations: u64,
}

impl EventCounts {
    /// In front of the first event.
    pub fn new() -> EventCounts
        ensures { (result.reads ≡ 0) × (result.writes ≡ 0) × (result.waits ≡ 0) × (result.violations ≡ 0) }
    {
        EventCounts {
            reads: 0,
            writes: 0,
            waits: 0,
            violations: 0,
        }
    }
}

impl Watcher for EventCounts {
    ghost state = { λ w. w.reads ∷ w.writes ∷ w.waits ∷ w.violations ∷ [] };

    ghost next = { λ _ s e. counts_next s e };

    ghost text = { λ _ s. counts_text s };

    /// Counts an event by what it is.
    fn see(&mut self, event: &Event) {
        self.reads = counted(matches!(event.kind, EventKind::Read { .. }), self.reads);
        self.writes = counted(matches!(event.kind, EventKind::Write { .. }), self.writes);
        self.waits = counted(matches!(event.kind, EventKind::Waits { .. }), self.waits);
        self.violations = counted(event.violation, self.violations);
    }

    /// Tells the counts, in one line.
    fn report(&self, alloc: Global) -> Result<Vec<u8>, NoMemory> {
        let mut text = Vec::new(alloc);
        text.extend_from_slice(b"reads ")?;
        put_number(&mut text, self.reads)?;
        text.extend_from_slice(b" writes ")?;
        put_number(&mut text, self.writes)?;
        text.extend_from_slice(b" waits ")?;
        put_number(&mut text, self.waits)?;
        text.extend_from_slice(b" violations ")?;
        put_number(&mut text, self.violations)?;
        text.extend_from_slice(b"\n")?;
        Ok(text)
    }
}

/// Keeps the threads of the last four events.
#[derive(Drop)]
pub struct LastEvents {
    threads: [u32; 4],
    count: u8,
    ghost few: { count ≤ 4 },
}

impl LastEvents {
    /// In front of the first event.
    pub fn new() -> LastEvents
        ensures { result.count ≡ 0 }
    {
        LastEvents {
            threads: [0; 4],
            count: 0,
        }
    }

    /// Keeps a thread in the place of the oldest one, where four are kept.
    fn keep(&mut self, thread: u32)
        ensures { take self.new.count self.new.threads
            ≡ (if nat_lt (length (take self.old.count self.old.threads)) 4 then take self.old.count self.old.threads
            else without_first (take self.old.count self.old.threads)) ++ thread ∷ [] }
    {
        if self.count < 4 {
            self.threads[self.count as usize] = thread;
            self.count += 1;
        } else {
            let [_, second, third, fourth] = self.threads;
            self.threads = [second, third, fourth, thread];
        }
    }
}

impl Watcher for LastEvents {
    ghost state = { λ w. take w.count w.threads };

    ghost next = { λ _ s e. last_next s e };

    ghost text = { λ _ s. last_text s };

    /// Keeps the thread of an event.
    fn see(&mut self, event: &Event) {
        self.keep(event.thread);
    }

    /// Tells the threads, in one line.
    fn report(&self, alloc: Global) -> Result<Vec<u8>, NoMemory> {
        let mut text = Vec::new(alloc);
        text.extend_from_slice(b"last threads")?;
        put_threads(&mut text, &self.threads[..self.count as usize])?;
        text.extend_from_slice(b"\n")?;
        Ok(text)
    }
}

/// Appends threads, each behind a blank.
fn put_threads(text: &mut Vec<u8>, threads: &[u32]) -> Result<(), NoMemory>
    ensures { OnOk result (text.new.items ≡ text.old.items ++ flat_map (λ t. codes " " ++ decimal t) threads.now) }
{
    'each: for thread in threads {
        text.extend_from_slice(b" ")?;
        put_number(text, u64::from(*thread))?;
    }
    Ok(())
}
