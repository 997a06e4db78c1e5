//! The calls of a table of locks: what waits, and for whom, and what isn't held, in each mode and two deep.
ghost use Rattle.std.specs.Prelude.{◌≡◌};
ghost use Rattle.tsa_locks.specs.Tables.{locks_of};

use crate::texts::put;
use std::alloc::Global;
use std::test::Fail;
use tsa_locks::{Giving, LockTable, Taking};
use tsa_sched::Mode;

// A call on the one lock of a table.
#[derive(Clone, Copy)]
enum Call {
    Take,
    TakeAgain,
    TakeShared,
    TryTake,
    TryTakeAgain,
    TryTakeShared,
    Give,
    GiveShared,
    GiveAny,
}

const THREADS: u32 = 3;

// A number of one digit.
fn put_digit(out: &mut Vec<u8>, number: u32) -> Result<(), Fail> {
    let digits = number.to_string(*out.allocator())?;
    put(out, digits.as_bytes())
}

// What comes of a taking: `d`, or `w` and the thread that is in the way.
fn put_taking(out: &mut Vec<u8>, taking: Taking) -> Result<(), Fail> {
    match taking {
        Taking::Done => put(out, b"d"),
        Taking::Waits(holder) => {
            put(out, b"w")?;
            put_digit(out, holder)
        }
    }
}

// What comes of a giving: `d`, or `n` where it isn't held.
fn put_giving(out: &mut Vec<u8>, giving: Giving) -> Result<(), Fail> {
    match giving {
        Giving::Done => put(out, b"d"),
        Giving::NotHeld => put(out, b"n"),
    }
}

// Whether a try took: `t` or `f`.
fn put_tried(out: &mut Vec<u8>, took: bool) -> Result<(), Fail> {
    put(out, if took { b"t" } else { b"f" })
}

// The mode that was given back: `e`, `s`, or `n` where neither is held.
fn put_mode(out: &mut Vec<u8>, mode: Option<Mode>) -> Result<(), Fail> {
    match mode {
        Some(Mode::Exclusive) => put(out, b"e"),
        Some(Mode::Shared) => put(out, b"s"),
        None => put(out, b"n"),
    }
}

// A table of one lock for three threads.
#[derive(Drop)]
struct OneLock {
    table: LockTable,
    ghost locks: { locks_of table ≡ 1 },
    ghost threads: { table.threads ≡ 3 },
}

impl OneLock {
    // A free one.
    fn new(alloc: Global) -> Result<OneLock, Fail> {
        let table = LockTable::new(alloc, 1, THREADS)?;
        Ok(OneLock { table })
    }

    // What a call answers to a thread; one after 2^32 - 1 holds isn't made.
    fn put_call(&mut self, out: &mut Vec<u8>, thread: u32, call: Call) -> Result<(), Fail> {
        let table = &mut self.table;
        if thread >= THREADS
            || table.depth(0, thread) == u32::MAX
            || table.count(0, thread) == u32::MAX
        {
            return Ok(());
        }
        match call {
            Call::Take => put_taking(out, table.take(0, thread)),
            Call::TakeAgain => put_taking(out, table.take_again(0, thread)),
            Call::TakeShared => put_taking(out, table.take_shared(0, thread)),
            Call::TryTake => put_tried(out, table.try_take(0, thread)),
            Call::TryTakeAgain => put_tried(out, table.try_take_again(0, thread)),
            Call::TryTakeShared => put_tried(out, table.try_take_shared(0, thread)),
            Call::Give => put_giving(out, table.give(0, thread)),
            Call::GiveShared => put_giving(out, table.give_shared(0, thread)),
            Call::GiveAny => put_mode(out, table.give_any(0, thread)),
        }
    }

    // The owner with how often it has the lock, or `-`, and how often each thread shares it.
    fn put(&self, out: &mut Vec<u8>) -> Result<(), Fail> {
        put(out, b" ")?;
        match self.table.owner(0) {
            Some(owner) => {
                put_digit(out, owner)?;
                put(out, b"*")?;
                put_digit(out, self.table.depth(0, owner))?;
            }
            None => put(out, b"-")?,
        }
        for thread in 0..THREADS {
            put(out, b" ")?;
            put_digit(out, self.table.count(0, thread))?;
        }
        put(out, b"\n")
    }
}

// What a free lock's calls answer one after the other, and how the lock stands behind them.
fn put_calls(out: &mut Vec<u8>, alloc: Global, calls: &[(u32, Call)]) -> Result<(), Fail> {
    let mut lock = OneLock::new(alloc)?;
    for (thread, call) in calls {
        lock.put_call(out, *thread, *call)?;
    }
    lock.put(out)
}

// Takings wait for the owner, also the owner's own; only who has the lock alone gives it back.
fn put_exclusive(out: &mut Vec<u8>, alloc: Global) -> Result<(), Fail> {
    use Call::{Give, GiveShared, Take, TakeShared};
    let owned = [
        (0, Take),
        (1, Take),
        (0, Take),
        (1, TakeShared),
        (0, TakeShared),
    ];
    put_calls(out, alloc, &owned)?;
    let given = [
        (0, Take),
        (1, Give),
        (0, GiveShared),
        (0, Give),
        (0, Give),
        (1, Take),
    ];
    put_calls(out, alloc, &given)
}

// Readers are let in together; who takes the lock alone waits for the first of them, also a reader itself.
fn put_shared(out: &mut Vec<u8>, alloc: Global) -> Result<(), Fail> {
    use Call::{Give, GiveShared, Take, TakeShared};
    let shared = [
        (1, TakeShared),
        (2, TakeShared),
        (1, TakeShared),
        (0, Take),
        (2, Take),
    ];
    put_calls(out, alloc, &shared)?;
    let given = [
        (1, TakeShared),
        (2, TakeShared),
        (0, GiveShared),
        (1, Give),
        (1, GiveShared),
        (1, GiveShared),
        (0, Take),
        (2, GiveShared),
        (0, Take),
    ];
    put_calls(out, alloc, &given)
}

// An owner takes a reentrant lock again, and others wait until all of it is given back; a reader doesn't take it alone.
fn put_again(out: &mut Vec<u8>, alloc: Global) -> Result<(), Fail> {
    use Call::{Give, TakeAgain, TakeShared};
    let twice = [
        (0, TakeAgain),
        (0, TakeAgain),
        (1, TakeAgain),
        (1, TakeShared),
        (0, TakeShared),
    ];
    put_calls(out, alloc, &twice)?;
    let given = [
        (0, TakeAgain),
        (0, TakeAgain),
        (0, Give),
        (1, TakeAgain),
        (0, Give),
        (0, Give),
        (1, TakeAgain),
    ];
    put_calls(out, alloc, &given)?;
    put_calls(out, alloc, &[(0, TakeShared), (0, TakeAgain)])
}

// A try takes where a taking wouldn't wait.
fn put_tries(out: &mut Vec<u8>, alloc: Global) -> Result<(), Fail> {
    use Call::{TryTake, TryTakeAgain, TryTakeShared};
    put_calls(
        out,
        alloc,
        &[(0, TryTake), (0, TryTake), (1, TryTake), (1, TryTakeShared)],
    )?;
    put_calls(
        out,
        alloc,
        &[(0, TryTakeAgain), (0, TryTakeAgain), (1, TryTakeAgain)],
    )?;
    put_calls(
        out,
        alloc,
        &[
            (0, TryTakeShared),
            (1, TryTakeShared),
            (0, TryTake),
            (1, TryTakeAgain),
        ],
    )
}

// A release that names no mode gives back what the thread has alone, else what it shares.
fn put_any(out: &mut Vec<u8>, alloc: Global) -> Result<(), Fail> {
    use Call::{GiveAny, TakeAgain, TakeShared};
    put_calls(
        out,
        alloc,
        &[
            (0, GiveAny),
            (0, TakeAgain),
            (0, TakeAgain),
            (1, GiveAny),
            (0, GiveAny),
        ],
    )?;
    put_calls(
        out,
        alloc,
        &[(0, TakeShared), (0, TakeShared), (1, GiveAny), (0, GiveAny)],
    )
}

#[test]
fn a_table_tells_who_waits_and_what_is_not_held(rt: HostRuntime) -> Result<(), Fail> {
    let mut out = Vec::new(rt.alloc());
    put_exclusive(&mut out, rt.alloc())?;
    put_shared(&mut out, rt.alloc())?;
    put_again(&mut out, rt.alloc())?;
    put_tries(&mut out, rt.alloc())?;
    put_any(&mut out, rt.alloc())?;
    let expected = b"dw0w0w0w0 0*1 0 0 0
dnndnd 1*1 0 0 0
dddw1w1 - 0 2 1
ddnndnw2dd 0*1 0 0 0
ddw0w0w0 0*2 0 0 0
dddw0dnd 1*1 0 0 0
dw0 - 1 0 0
tfff 0*1 0 0 0
ttf 0*2 0 0 0
ttff - 1 1 0
nddne 0*1 0 0 0
ddns - 1 0 0
";
    assert_eq!(rt; out.as_slice(), expected.as_slice());
    Ok(())
}
