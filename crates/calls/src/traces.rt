//! The lines of events, of each kind one at least, and of a race.
ghost use Rattle.std.specs.Prelude.{◌≡◌, Ok};
ghost use Rattle.tsa_place_model.specs.Units.{placed_in};
ghost use Rattle.tsa_tree.specs.units.Shapes.{HaveTheirPoints, item_shapes};

use crate::texts::{put, tokens_of};
use bumpalo::Bump;
use std::alloc::Global;
use std::test::Fail;
use tsa_base::{NoMemory, Value};
use tsa_place::Places;
use tsa_sched::{Event, EventKind, Mode, Site, Touch, TrapKind};
use tsa_trace::{Side, Tracer, event_line, race_line};
use tsa_tree::Parsed;
use tsa_types::{Typed, type_check};
use tsa_unit::parse;

// Functions 0, 1 and 2; the lock stands at place 0 and its member at 1, the first cell's members at 3 and 4, the second one's at 6 and 7.
// The points of the last function are the value of its `switch`, a `;`, a test, a call and the end.
const UNIT: &[u8] = b"struct CAPABILITY(\"mutex\") lock { int s; };
void acq(struct lock *m) ACQUIRE(m);
int ask(void);
struct lock mu;
struct cell { unsigned n; struct lock *l; };
struct cell c[2];
void w(int i) {
  switch (i) { case -1: ; }
  if (i) acq(&mu);
}
";

// A point of the last function.
fn at(point: u32) -> Site {
    Site { function: 2, point }
}

// What a thread did at a point.
fn done(thread: u32, point: u32, kind: EventKind) -> Event {
    Event {
        thread,
        site: Some(at(point)),
        kind,
        violation: false,
    }
}

// The same where it is a violation.
fn violating(thread: u32, point: u32, kind: EventKind) -> Event {
    Event {
        thread,
        site: Some(at(point)),
        kind,
        violation: true,
    }
}

// What is told of a thread that made no turn.
fn without(thread: u32, kind: EventKind) -> Event {
    Event {
        thread,
        site: None,
        kind,
        violation: false,
    }
}

// Adds the line of an event, and one more to the turns.
fn put_event(
    out: &mut Vec<u8>,
    tracer: &Tracer<'_, '_>,
    turn: &mut u32,
    event: Event,
) -> Result<(), Fail> {
    let line = event_line(*out.allocator(), tracer, *turn, &event)?;
    put(out, &line)?;
    *turn = turn.saturating_add(1);
    put(out, b"\n")
}

// Adds the lines of events.
fn put_events(
    out: &mut Vec<u8>,
    tracer: &Tracer<'_, '_>,
    turn: &mut u32,
    events: &[Event],
) -> Result<(), Fail> {
    for event in events {
        put_event(out, tracer, turn, *event)?;
    }
    Ok(())
}

// Reads and writes of cells.
fn put_cells(out: &mut Vec<u8>, tracer: &Tracer<'_, '_>, turn: &mut u32) -> Result<(), Fail> {
    let least = EventKind::Read {
        place: 1,
        value: Value::Int(i32::MIN),
    };
    let number = EventKind::Read {
        place: 6,
        value: Value::Unsigned(7),
    };
    let nowhere = EventKind::Read {
        place: 4,
        value: Value::Pointer(None),
    };
    let somewhere = EventKind::Write {
        place: 4,
        value: Value::Pointer(Some(0)),
    };
    let events = [
        done(0, 0, least),
        done(0, 0, number),
        done(0, 0, nowhere),
        violating(1, 0, somewhere),
    ];
    put_events(out, tracer, turn, &events)
}

// What comes of takings and tries.
fn put_takings(out: &mut Vec<u8>, tracer: &Tracer<'_, '_>, turn: &mut u32) -> Result<(), Fail> {
    let alone = EventKind::Took {
        lock: 0,
        mode: Mode::Exclusive,
    };
    let shared = EventKind::Took {
        lock: 0,
        mode: Mode::Shared,
    };
    let tried = EventKind::Tried {
        lock: 0,
        mode: Mode::Exclusive,
        took: true,
    };
    let failed = EventKind::Tried {
        lock: 0,
        mode: Mode::Shared,
        took: false,
    };
    let waits = EventKind::Waits { lock: 0, holder: 0 };
    let events = [
        done(0, 3, alone),
        done(0, 3, shared),
        done(1, 3, waits),
        done(0, 3, tried),
        done(1, 3, failed),
    ];
    put_events(out, tracer, turn, &events)
}

// What comes of givings.
fn put_givings(out: &mut Vec<u8>, tracer: &Tracer<'_, '_>, turn: &mut u32) -> Result<(), Fail> {
    let alone = EventKind::Gave {
        lock: 0,
        mode: Mode::Exclusive,
    };
    let shared = EventKind::Gave {
        lock: 0,
        mode: Mode::Shared,
    };
    let events = [
        done(0, 3, alone),
        done(0, 3, shared),
        violating(0, 3, EventKind::NotHeld { lock: 0 }),
    ];
    put_events(out, tracer, turn, &events)
}

// Calls, and what the environment answers.
fn put_functions(out: &mut Vec<u8>, tracer: &Tracer<'_, '_>, turn: &mut u32) -> Result<(), Fail> {
    let asked = EventKind::Environment {
        callee: 1,
        answer: Some(Value::Int(-5)),
    };
    let told = EventKind::Environment {
        callee: 1,
        answer: None,
    };
    let events = [
        done(0, 2, asked),
        done(0, 2, told),
        done(0, 3, EventKind::Called { callee: 2 }),
        done(0, 4, EventKind::Returned { callee: 2 }),
    ];
    put_events(out, tracer, turn, &events)
}

// Branches, switches and steps.
fn put_steps(out: &mut Vec<u8>, tracer: &Tracer<'_, '_>, turn: &mut u32) -> Result<(), Fail> {
    let chosen = EventKind::Switched {
        value: Value::Int(-1),
    };
    let events = [
        done(0, 2, EventKind::Branched { taken: true }),
        done(0, 2, EventKind::Branched { taken: false }),
        done(0, 0, chosen),
        done(0, 1, EventKind::Stepped),
    ];
    put_events(out, tracer, turn, &events)
}

// The trap of a kind.
fn trapped(kind: TrapKind) -> Event {
    done(63, 1, EventKind::Trap { kind })
}

// Traps, and threads that make no turn.
fn put_ends(out: &mut Vec<u8>, tracer: &Tracer<'_, '_>, turn: &mut u32) -> Result<(), Fail> {
    let events = [
        trapped(TrapKind::Overflow),
        trapped(TrapKind::Division),
        trapped(TrapKind::NullPointer),
        trapped(TrapKind::OutOfRange),
        trapped(TrapKind::Depth),
        without(0, EventKind::AlreadyEnded),
        without(63, EventKind::AlreadyTrapped),
        without(u32::MAX, EventKind::NoThread),
    ];
    put_events(out, tracer, turn, &events)
}

// A side of a race on the first cell's number.
fn side(thread: u32, point: u32, is_write: bool) -> Side {
    Side {
        thread,
        touch: Touch {
            place: 3,
            is_write,
            site: at(point),
        },
    }
}

// The lines of events of all kinds, turn by turn, and of a race.
fn put_all(out: &mut Vec<u8>, tracer: &Tracer<'_, '_>) -> Result<(), Fail> {
    let mut turn = 0;
    put_cells(out, tracer, &mut turn)?;
    put_takings(out, tracer, &mut turn)?;
    put_givings(out, tracer, &mut turn)?;
    put_functions(out, tracer, &mut turn)?;
    put_steps(out, tracer, &mut turn)?;
    put_ends(out, tracer, &mut turn)?;
    let line = race_line(
        *out.allocator(),
        tracer,
        &side(0, 0, false),
        &side(1, 1, true),
    )?;
    put(out, &line)
}

/// What is shown of a value that is lent.
pub trait Lent {
    /// Adds it.
    fn put(&self, out: &mut Vec<u8>) -> Result<(), Fail>;
}

// Lends a value, of whatever type, so that none of the others has to hold what it lends.
fn lend<T: Lent + Drop>(out: &mut Vec<u8>, value: Result<T, NoMemory>) -> Result<(), Fail> {
    value?.put(out)
}

impl Lent for Tracer<'_, '_> {
    fn put(&self, out: &mut Vec<u8>) -> Result<(), Fail> {
        put_all(out, self)
    }
}

// The lines of a typed unit with its places.
fn put_typed(
    out: &mut Vec<u8>,
    source: &[u8],
    typed: &Typed<'_>,
    places: &Places,
) -> Result<(), Fail>
    requires points { HaveTheirPoints typed.now.unit.now.items.now }
    requires placed { placed_in (item_shapes typed.now.unit.now.items.now) ≡ Ok places.now }
{
    lend(out, Tracer::new(*out.allocator(), typed, places, source))
}

// The lines of a unit with its places.
fn put_placed(
    out: &mut Vec<u8>,
    source: &[u8],
    parsed: Parsed<'_>,
    places: &Places,
) -> Result<(), Fail>
    requires points { HaveTheirPoints parsed.unit.now.items.now }
    requires placed { placed_in (item_shapes parsed.unit.now.items.now) ≡ Ok places.now }
{
    match type_check(*out.allocator(), parsed) {
        Ok(typed) => put_typed(out, source, &typed, places),
        Err(_) => put(out, b"not typed"),
    }
}

// The lines of a unit.
fn put_parsed(out: &mut Vec<u8>, source: &[u8], parsed: Parsed<'_>) -> Result<(), Fail>
    requires points { HaveTheirPoints parsed.unit.now.items.now }
{
    match Places::new(*out.allocator(), parsed.unit()) {
        Ok(places) => put_placed(out, source, parsed, &places),
        Err(_) => put(out, b"too many"),
    }
}

// The lines of the unit of a text.
fn lines_of(alloc: Global, source: &[u8]) -> Result<Vec<u8>, Fail> {
    let mut out = Vec::new(alloc);
    let tokens = tokens_of(alloc, source)?;
    let bump = Bump::new(alloc);
    put_parsed(&mut out, source, parse(alloc, &bump, &tokens)?)?;
    Ok(out)
}

#[test]
fn events_and_races_have_their_lines(rt: HostRuntime) -> Result<(), Fail> {
    let out = lines_of(rt.alloc(), UNIT)?;
    let expected = b"0 t0 8:11 read mu.s = -2147483648
1 t0 8:11 read c[1].n = 7
2 t0 8:11 read c[0].l = null
3 t1 8:11 write c[0].l = &mu !
4 t0 9:10 lock mu exclusive
5 t0 9:10 lock mu shared
6 t1 9:10 waits mu t0
7 t0 9:10 try mu exclusive took
8 t1 9:10 try mu shared not
9 t0 9:10 unlock mu exclusive
10 t0 9:10 unlock mu shared
11 t0 9:10 unlock mu none !
12 t0 9:7 env ask = -5
13 t0 9:7 env ask
14 t0 9:10 call w
15 t0 10:1 return w
16 t0 9:7 branch true
17 t0 9:7 branch false
18 t0 8:11 switch -1
19 t0 8:25 step
20 t63 8:25 trap overflow
21 t63 8:25 trap division
22 t63 8:25 trap null
23 t63 8:25 trap index
24 t63 8:25 trap depth
25 t0 ended
26 t63 trapped
27 t4294967295 unknown
race c[0].n: t0 8:11 read, t1 8:25 write";
    assert_eq!(rt; out.as_slice(), expected.as_slice());
    Ok(())
}
