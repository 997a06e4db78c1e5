//! A chooser and a watcher of this crate's own, beside those that are there.
ghost use Rattle.std.specs.Prelude.{◌-◌, [], ◌∷◌, codes, length, pos, slice_index_or};

use crate::texts::{put, put_number};
use std::alloc::Global;
use std::test::Fail;
use tsa_base::NoMemory;
use tsa_sched::{
    Chooser, Event, EventCounts, EventKind, LastEvents, Pick, RoundRobin, Scatter, Steady, Watcher,
};

// Picks the last thread that is able; the environment answers 7.
#[derive(Drop)]
struct Newest {}

impl Chooser for Newest {
    ghost state = { λ _. [] };

    ghost choice = { λ _ s able. record { thread = slice_index_or able (length able - 1) 0; answer = pos 7 } };

    ghost after = { λ _ s able. [] };

    // Picks the last one.
    fn pick(&mut self, able: &[u32]) -> Pick {
        Pick {
            thread: able[able.len() - 1],
            answer: 7,
        }
    }
}

// Keeps the thread of the last event.
#[derive(Drop)]
struct LastThread {
    thread: u32,
}

impl Watcher for LastThread {
    ghost state = { λ w. w.thread ∷ [] };

    ghost next = { λ _ s e. e.thread ∷ [] };

    ghost text = { λ _ s. codes "watched" };

    // Keeps its thread.
    fn see(&mut self, event: &Event) {
        self.thread = event.thread;
    }

    // Says that it watched.
    fn report(&self, alloc: Global) -> Result<Vec<u8>, NoMemory> {
        let mut text = Vec::new(alloc);
        text.extend_from_slice(b"watched")?;
        Ok(text)
    }
}

// Adds four picks among three threads.
fn put_picks(out: &mut Vec<u8>, chooser: &mut dyn Chooser) -> Result<(), Fail> {
    for _ in 0..4u32 {
        let pick = chooser.pick(&[3, 5, 8]);
        put_number(out, pick.thread)?;
        put_number(out, pick.answer.unsigned_abs())?;
    }
    put(out, b"\n")
}

// An event of a thread that is a violation.
fn event(thread: u32) -> Event {
    Event {
        thread,
        site: None,
        kind: EventKind::Waits { lock: 0, holder: 1 },
        violation: true,
    }
}

// Adds what a watcher reports of five events.
fn put_report(out: &mut Vec<u8>, watcher: &mut dyn Watcher) -> Result<(), Fail> {
    for thread in 0..5u32 {
        watcher.see(&event(thread));
    }
    let report = watcher.report(*out.allocator())?;
    put(out, &report)
}

// What the choosers pick, and what the watchers report.
fn put_all(out: &mut Vec<u8>) -> Result<(), Fail> {
    put_picks(out, &mut RoundRobin::new())?;
    put_picks(out, &mut Steady::new())?;
    put_picks(out, &mut Scatter::new(1))?;
    put_picks(out, &mut Newest {})?;
    put_report(out, &mut EventCounts::new())?;
    put_report(out, &mut LastEvents::new())?;
    put_report(out, &mut LastThread { thread: 0 })
}

#[test]
fn objects_of_ones_own_stand_beside_those_that_are_there(rt: HostRuntime) -> Result<(), Fail> {
    let mut out = Vec::new(rt.alloc());
    put_all(&mut out)?;
    let expected = b"3 0 5 0 8 0 3 0 
3 0 3 0 3 0 3 0 
5 0 8 1 5 0 5 1 
8 7 8 7 8 7 8 7 
reads 0 writes 0 waits 5 violations 5
last threads 1 2 3 4
watched";
    assert_eq!(rt; out.as_slice(), expected.as_slice());
    Ok(())
}
