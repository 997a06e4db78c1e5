//! The places of a unit: their texts, what they are, their guards and what they hold at the start.
ghost use Rattle.std.specs.Prelude.{◌<◌, length};

use crate::texts::{put, put_number};
use crate::units::{Row, Shown, others};
use std::alloc::Global;
use std::test::Fail;
use tsa_base::Value;
use tsa_place::Places;
use tsa_place_model::{Guard, PlaceKind};

// A word, where something is so.
fn put_if(out: &mut Vec<u8>, so: bool, word: &[u8]) -> Result<(), Fail> {
    if so { put(out, word) } else { Ok(()) }
}

// What a place is.
fn put_kind(out: &mut Vec<u8>, places: &Places, place: u32) -> Result<(), Fail>
    requires { place < length places.now.places }
{
    match places.kind(place) {
        PlaceKind::Cell => put(out, b" cell")?,
        PlaceKind::Structure => put(out, b" object")?,
    }
    put_if(out, places.is_lock(place), b" lock")?;
    put_if(out, places.is_const(place), b" const")?;
    put_if(out, places.addressable(place), b" addressable")
}

// The text of a place.
fn put_text(out: &mut Vec<u8>, alloc: Global, places: &Places, place: u32) -> Result<(), Fail> {
    let text = places.text(alloc, place)?;
    put(out, &text)
}

// What a place's guards are.
fn put_guards(out: &mut Vec<u8>, alloc: Global, places: &Places, place: u32) -> Result<(), Fail> {
    let guards = places.guards(alloc, place)?;
    for guard in &guards {
        put(out, b" by ")?;
        match guard {
            Guard::Lock(lock) => put_text(out, alloc, places, *lock)?,
            Guard::Nothing => put(out, b"nothing")?,
        }
    }
    Ok(())
}

// What a cell holds at the start.
pub fn put_value(
    out: &mut Vec<u8>,
    alloc: Global,
    places: &Places,
    value: Value,
) -> Result<(), Fail> {
    match value {
        Value::Int(number) => {
            put_if(out, number < 0, b" minus")?;
            put(out, b" int ")?;
            put_number(out, number.unsigned_abs())
        }
        Value::Unsigned(number) => {
            put(out, b" unsigned ")?;
            put_number(out, number)
        }
        Value::Pointer(None) => put(out, b" null "),
        Value::Pointer(Some(place)) => {
            put(out, b" to ")?;
            put_text(out, alloc, places, place)
        }
    }
}

// All of a place.
fn put_place(out: &mut Vec<u8>, alloc: Global, places: &Places, place: u32) -> Result<(), Fail>
    requires { place < length places.now.places }
{
    put_text(out, alloc, places, place)?;
    put_kind(out, places, place)?;
    put_guards(out, alloc, places, place)?;
    if places.kind(place) == PlaceKind::Cell {
        put_value(out, alloc, places, places.initial(place))?;
    }
    put(out, b"; ")
}

/// Some places.
pub fn put_places(out: &mut Vec<u8>, places: &Places) -> Result<(), Fail> {
    let alloc = *out.allocator();
    'each: for place in 0..places.count() {
        put_place(out, alloc, places, place)?;
    }
    Ok(())
}

// Units with their places.
const PLACES: [Row; 3] = [
    (
        b"struct CAPABILITY(\"m\") l { int s; }; struct a { struct l mu; int balance GUARDED_BY(mu); }; struct a bank[2];",
        b"bank[0] object addressable; bank[0].mu object lock addressable; bank[0].mu.s cell int 0 ; bank[0].balance cell by bank[0].mu int 0 ; bank[1] object addressable; bank[1].mu object lock addressable; bank[1].mu.s cell int 0 ; bank[1].balance cell by bank[1].mu int 0 ; ",
    ),
    (
        b"struct CAPABILITY(\"m\") l { int s; }; struct l m; struct a { struct l *const p; int n GUARDED_BY(p); }; struct a v = { &m, -3 }, w;",
        b"m object lock addressable; m.s cell int 0 ; v object addressable; v.p cell const to m; v.n cell by m minus int 3 ; w object addressable; w.p cell const null ; w.n cell by nothing int 0 ; ",
    ),
    (b"int a[65536], b;", b"too many"),
];

#[test]
fn places_are_as_their_declarations_have_them(rt: HostRuntime) -> Result<(), Fail> {
    let others = others(rt.alloc(), Shown::Places, &PLACES)?;
    assert_eq!(rt; others.as_slice(), b"".as_slice());
    Ok(())
}
