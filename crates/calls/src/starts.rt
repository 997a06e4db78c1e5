//! How threads begin by the words of a run: which function each calls and with which arguments, or which word says no start.
ghost use Rattle.std.specs.Prelude.{◌≡◌, Ok};
ghost use Rattle.tsa_place_model.specs.Units.{placed_in};
ghost use Rattle.tsa_tree.specs.units.Shapes.{item_shapes};

use crate::texts::{put, put_number, tokens_of};
use bumpalo::Bump;
use std::alloc::Global;
use std::test::Fail;
use tsa_base::{NoMemory, Value};
use tsa_mean::ThreadStart;
use tsa_place::Places;
use tsa_profile::{Fit, fit};
use tsa_tool_starts::{StartRefusal, Starter};
use tsa_tree::Parsed;
use tsa_types::{Typed, type_check};
use tsa_unit::parse;

// Functions 0 to 6; `m` stands at place 0, and the accounts at places 2 and 6.
const UNIT: &[u8] = b"struct CAPABILITY(\"m\") lock { int s; };
struct account { struct lock mu; int balance GUARDED_BY(mu); };
struct lock m;
struct account bank[2];
void acq(struct lock *l) ACQUIRE(l);
void rel(struct lock *l) RELEASE(l);
void f(void) { ; }
void w(struct account *a) { ; }
int transfer(struct account *from, struct account *to, int n) { return n; }
void r(void) REQUIRES(m) { ; }
void d(void) RELEASE(m) { rel(&m); }
";

// A value: a number, `null`, or `&` and a place.
fn put_value(out: &mut Vec<u8>, value: Value) -> Result<(), Fail> {
    match value {
        Value::Int(number) => {
            put(out, if number < 0 { b"-" } else { b"" })?;
            put_number(out, number.unsigned_abs())
        }
        Value::Unsigned(number) => put_number(out, number),
        Value::Pointer(Some(place)) => {
            put(out, b"&")?;
            put_number(out, place)
        }
        Value::Pointer(None) => put(out, b"null "),
    }
}

// A function with its arguments.
fn put_start(out: &mut Vec<u8>, start: &ThreadStart) -> Result<(), Fail> {
    put_number(out, start.function)?;
    put(out, b"( ")?;
    for value in &start.args {
        put_value(out, *value)?;
    }
    put(out, b") ")
}

// What some words say.
fn put_starts(
    out: &mut Vec<u8>,
    starts: Result<Vec<ThreadStart>, StartRefusal>,
) -> Result<(), Fail> {
    match starts {
        Ok(starts) => {
            for start in &starts {
                put_start(out, start)?;
            }
        }
        Err(StartRefusal::Word { number }) => {
            put(out, b"refused ")?;
            put_number(out, u32::try_from(number)?)?;
        }
        Err(StartRefusal::NoMemory) => return Err(Fail::new("no memory")),
    }
    put(out, b"\n")
}

// Some words, as texts.
fn words_of(alloc: Global, words: &[&str]) -> Result<Vec<String>, Fail> {
    let mut texts = Vec::new(alloc);
    for word in words {
        texts.push(String::from_str(alloc, word)?)?;
    }
    Ok(texts)
}

// Adds what some words say.
fn put_words(out: &mut Vec<u8>, starter: &Starter<'_, '_>, words: &[&str]) -> Result<(), Fail> {
    let words = words_of(*out.allocator(), words)?;
    put_starts(out, starter.starts(&words))
}

// Adds what good words and others say.
fn put_all(out: &mut Vec<u8>, starter: &Starter<'_, '_>) -> Result<(), Fail> {
    put_words(out, starter, &[])?;
    put_words(out, starter, &["f", "f()", "((f))"])?;
    put_words(out, starter, &["transfer(&bank[0],&bank[1],10)", "w(NULL)"])?;
    put_words(
        out,
        starter,
        &[
            " w ( /* at */ &bank[2 - 1] ) // all",
            "transfer(0, NULL, -1)",
        ],
    )?;
    put_words(out, starter, &["f", "nope"])?;
    put_words(out, starter, &["r"])?;
    put_words(out, starter, &["f", "f", "d", "acq(&m)"])?;
    put_words(out, starter, &["w"])?;
    put_words(out, starter, &["f(1)"])?;
    put_words(out, starter, &["w(&m)"])?;
    put_words(out, starter, &["f f"])?;
    put_words(out, starter, &["f", "`"])?;
    put_words(out, starter, &[""])
}

// What is shown of a value that is lent.
trait Lent {
    // Adds it.
    fn put(&self, out: &mut Vec<u8>) -> Result<(), Fail>;
}

// Lends a value, of whatever type, so that none of the others has to hold what it lends.
fn lend<T: Lent + Drop>(out: &mut Vec<u8>, value: Result<T, NoMemory>) -> Result<(), Fail> {
    value?.put(out)
}

impl Lent for Starter<'_, '_> {
    fn put(&self, out: &mut Vec<u8>) -> Result<(), Fail> {
        put_all(out, self)
    }
}

// The same of a unit in the profile with its places.
fn put_fit(out: &mut Vec<u8>, fit: &Fit<'_>, places: &Places) -> Result<(), Fail>
    requires placed { placed_in (item_shapes fit.now.typed.unit.now.items.now) ≡ Ok places.now }
{
    lend(out, Starter::new(*out.allocator(), fit, places))
}

// The same of a typed unit.
fn put_typed(out: &mut Vec<u8>, typed: Typed<'_>, places: &Places) -> Result<(), Fail>
    requires placed { placed_in (item_shapes typed.unit.now.items.now) ≡ Ok places.now }
{
    match fit(*out.allocator(), typed, places) {
        Ok(fit) => put_fit(out, &fit, places),
        Err(_) => put(out, b"not in the profile"),
    }
}

// The same of a unit with its places.
fn put_placed(out: &mut Vec<u8>, parsed: Parsed<'_>, places: &Places) -> Result<(), Fail>
    requires placed { placed_in (item_shapes parsed.unit.now.items.now) ≡ Ok places.now }
{
    match type_check(*out.allocator(), parsed) {
        Ok(typed) => put_typed(out, typed, places),
        Err(_) => put(out, b"not typed"),
    }
}

// The same of a unit.
fn put_parsed(out: &mut Vec<u8>, parsed: Parsed<'_>) -> Result<(), Fail> {
    match Places::new(*out.allocator(), parsed.unit()) {
        Ok(places) => put_placed(out, parsed, &places),
        Err(_) => put(out, b"too many"),
    }
}

// The same of the unit of a text.
fn starts_in(alloc: Global, text: &[u8]) -> Result<Vec<u8>, Fail> {
    let mut out = Vec::new(alloc);
    let tokens = tokens_of(alloc, text)?;
    let bump = Bump::new(alloc);
    put_parsed(&mut out, parse(alloc, &bump, &tokens)?)?;
    Ok(out)
}

#[test]
fn words_say_how_threads_begin(rt: HostRuntime) -> Result<(), Fail> {
    let out = starts_in(rt.alloc(), UNIT)?;
    let expected = b"
2 ( ) 2 ( ) 2 ( ) 
4 ( &2 &6 10 ) 3 ( null ) 
3 ( &6 ) 4 ( null null -1 ) 
refused 1 
refused 0 
refused 2 
refused 0 
refused 0 
refused 0 
refused 0 
refused 1 
refused 0 
";
    assert_eq!(rt; out.as_slice(), expected.as_slice());
    Ok(())
}
