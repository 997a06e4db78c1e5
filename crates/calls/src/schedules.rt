//! The picks that texts spell, or the byte at which they break.

use crate::texts::{put, put_number};
use std::alloc::Global;
use std::test::Fail;
use tsa_sched::{Pick, ScheduleRefusal, read_schedule};

// A pick: the thread, and the answer of the environment.
fn put_pick(out: &mut Vec<u8>, pick: Pick) -> Result<(), Fail> {
    put_number(out, pick.thread)?;
    put(out, if pick.answer < 0 { b": -" } else { b": " })?;
    put_number(out, pick.answer.unsigned_abs())
}

// Some picks.
fn put_picks(out: &mut Vec<u8>, picks: &[Pick]) -> Result<(), Fail> {
    for pick in picks {
        put_pick(out, *pick)?;
    }
    Ok(())
}

// What a text spells.
fn put_schedule(out: &mut Vec<u8>, text: &[u8]) -> Result<(), Fail> {
    match read_schedule(*out.allocator(), text) {
        Ok(picks) => put_picks(out, &picks)?,
        Err(ScheduleRefusal::Malformed { byte }) => {
            put(out, b"breaks at ")?;
            put_number(out, byte)?;
        }
        Err(ScheduleRefusal::NoMemory) => return Err(Fail::new("no memory")),
    }
    put(out, b"\n")
}

// What some texts spell.
fn schedules_of(alloc: Global, texts: &[&[u8]]) -> Result<Vec<u8>, Fail> {
    let mut out = Vec::new(alloc);
    for text in texts {
        put_schedule(&mut out, text)?;
    }
    Ok(out)
}

#[test]
fn texts_spell_picks_or_break_at_a_byte(rt: HostRuntime) -> Result<(), Fail> {
    let good: [&[u8]; 4] = [
        b"",
        b"0",
        b"0,1:1,2:-5",
        b"4294967295:2147483647,1:-2147483648",
    ];
    let bad: [&[u8]; 8] = [
        b"x",
        b"0,,1",
        b"0,",
        b"01",
        b"5:",
        b"0:-0",
        b"4294967296",
        b"1:2147483648",
    ];
    let picks = schedules_of(rt.alloc(), &good)?;
    let expected = b"
0 : 0 
0 : 0 1 : 1 2 : -5 
4294967295 : 2147483647 1 : -2147483648 
";
    assert_eq!(rt; picks.as_slice(), expected.as_slice());
    let breaks = schedules_of(rt.alloc(), &bad)?;
    let expected = b"breaks at 0 
breaks at 2 
breaks at 2 
breaks at 1 
breaks at 2 
breaks at 3 
breaks at 9 
breaks at 11 
";
    assert_eq!(rt; breaks.as_slice(), expected.as_slice());
    Ok(())
}
