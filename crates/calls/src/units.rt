//! What is shown of texts, and of units: each step hands on what a call gives, so that few functions hold a unit.
ghost use Rattle.std.specs.Prelude.{◌≡◌, ◌≤◌, Ok, length};
ghost use Rattle.tsa_base.specs.declared.limits.TheConstants.{INPUT_LIMIT as LONGEST};
ghost use Rattle.tsa_place.specs.Answers.{Gives};
ghost use Rattle.tsa_place_model.specs.Units.{placed_in};
ghost use Rattle.tsa_tree.specs.tokens.Signs.{lexemes};
ghost use Rattle.tsa_tree.specs.tokens.Texts.{AreOfText};
ghost use Rattle.tsa_tree.specs.units.Shapes.{item_shapes};

use crate::bodies::put_bodies;
use crate::flows::{put_functions, put_told};
use crate::graphs::put_graph;
use crate::nodes::{put_attributes, put_expressions};
use crate::places::put_places;
use crate::profile::put_profile;
use crate::texts::{put, put_tokens, tokens_of};
use bumpalo::Bump;
use std::alloc::Global;
use std::test::Fail;
use tsa_base::{NoMemory, Token};
use tsa_flow::{Flowed, flow};
use tsa_place::{PlaceRefusal, Places};
use tsa_profile::{Fit, fit};
use tsa_tree::Parsed;
use tsa_types::{Typed, type_check};
use tsa_unit::parse;

/// What is shown of a text.
#[derive(Clone, Copy)]
pub enum Shown {
    /// Its tokens.
    Tokens,
    /// The expression and the unary expression that it begins with.
    Expressions,
    /// The attributes that it begins with at a depth.
    Attributes(u32),
    /// The bodies of the typed unit that it is.
    Bodies,
    /// The graph of the only function of the typed unit that it is.
    Graph,
    /// The places of the unit.
    Places,
    /// What the unit in the profile tells.
    Profile,
    /// What walks bring to the points of the unit's functions.
    Flows,
}

/// A text, and what is to be shown of it.
pub type Row = (&'static [u8], &'static [u8]);

/// What is shown of those texts of which something else is to be shown.
pub fn others(alloc: Global, shown: Shown, rows: &[Row]) -> Result<Vec<u8>, Fail> {
    let mut others = Vec::new(alloc);
    'each: for row in rows {
        put_other(&mut others, &show(alloc, shown, row.0)?, row.1)?;
    }
    Ok(others)
}

// Adds what is shown where something else is to be shown.
fn put_other(others: &mut Vec<u8>, given: &[u8], expected: &[u8]) -> Result<(), Fail> {
    if given == expected {
        return Ok(());
    }
    put(others, given)?;
    put(others, b"\n")
}

// What is shown of a text.
fn show(alloc: Global, shown: Shown, text: &[u8]) -> Result<Vec<u8>, Fail> {
    let mut out = Vec::new(alloc);
    put_text(&mut out, shown, text, &tokens_of(alloc, text)?)?;
    Ok(out)
}

// The same of its tokens.
fn put_text(out: &mut Vec<u8>, shown: Shown, text: &[u8], tokens: &[Token<'_>]) -> Result<(), Fail>
    requires few { length tokens.now ≤ LONGEST }
    requires text { AreOfText (lexemes tokens.now) }
{
    let bump = Bump::new(*out.allocator());
    match shown {
        Shown::Tokens => put_tokens(out, text, tokens),
        Shown::Expressions => put_expressions(out, text, &bump, tokens),
        Shown::Attributes(depth) => put_attributes(out, text, &bump, tokens, depth),
        _ => put_unit(out, shown, &bump, tokens),
    }
}

/// What is shown of a value that is lent.
pub trait Lent {
    /// Adds it.
    fn put(&self, out: &mut Vec<u8>, shown: Shown) -> Result<(), Fail>;
}

// Lends a value, of whatever type, so that none of the others has to hold what it lends.
fn lend<T: Lent + Drop>(
    out: &mut Vec<u8>,
    shown: Shown,
    value: Result<T, NoMemory>,
) -> Result<(), Fail> {
    value?.put(out, shown)
}

// The same of the unit that tokens are.
fn put_unit<'a>(
    out: &mut Vec<u8>,
    shown: Shown,
    bump: &'a Bump,
    tokens: &[Token<'_>],
) -> Result<(), Fail>
    requires text { AreOfText (lexemes tokens.now) }
{
    let alloc = *out.allocator();
    let parsed = parse(alloc, bump, tokens)?;
    lend(out, shown, Ok(parsed))
}

impl Lent for Parsed<'_> {
    fn put(&self, out: &mut Vec<u8>, shown: Shown) -> Result<(), Fail> {
        put_placed(out, shown, self)
    }
}

// The places of a unit.
fn places_of(alloc: Global, parsed: &Parsed<'_>) -> Result<Places, PlaceRefusal>
    ensures { Gives (placed_in (item_shapes parsed.now.unit.now.items.now)) result }
{
    Places::new(alloc, parsed.unit())
}

// The same of a unit whose places are asked for.
fn put_placed(out: &mut Vec<u8>, shown: Shown, parsed: &Parsed<'_>) -> Result<(), Fail> {
    match places_of(*out.allocator(), parsed) {
        Ok(places) => put_with(out, shown, parsed, &places),
        Err(_) => put(out, b"too many"),
    }
}

// The same of a unit and its places.
fn put_with(
    out: &mut Vec<u8>,
    shown: Shown,
    parsed: &Parsed<'_>,
    places: &Places,
) -> Result<(), Fail>
    requires placed { placed_in (item_shapes parsed.now.unit.now.items.now) ≡ Ok places.now }
{
    match shown {
        Shown::Places => put_places(out, places),
        _ => put_checked(out, shown, parsed, places),
    }
}

// The same of a unit that is to be typed.
fn put_checked(
    out: &mut Vec<u8>,
    shown: Shown,
    parsed: &Parsed<'_>,
    places: &Places,
) -> Result<(), Fail>
    requires placed { placed_in (item_shapes parsed.now.unit.now.items.now) ≡ Ok places.now }
{
    match type_check(*out.allocator(), *parsed) {
        Ok(typed) => put_typed(out, shown, typed, places),
        Err(_) => put(out, b"not typed"),
    }
}

// The same of a typed unit.
fn put_typed(out: &mut Vec<u8>, shown: Shown, typed: Typed<'_>, places: &Places) -> Result<(), Fail>
    requires placed { placed_in (item_shapes typed.unit.now.items.now) ≡ Ok places.now }
{
    match shown {
        Shown::Bodies => put_bodies(out, &typed),
        Shown::Graph => put_graph(out, &typed, places),
        _ => put_in_profile(out, shown, typed, places),
    }
}

// The same of a typed unit that may be in the profile.
fn put_in_profile(
    out: &mut Vec<u8>,
    shown: Shown,
    typed: Typed<'_>,
    places: &Places,
) -> Result<(), Fail>
    requires placed { placed_in (item_shapes typed.unit.now.items.now) ≡ Ok places.now }
{
    match fit(*out.allocator(), typed, places) {
        Ok(fit) => put_fit(out, shown, fit, places),
        Err(_) => put(out, b"not in the profile"),
    }
}

// The same of a unit in the profile: what it tells, or what its functions are one by one; then what is told of all functions.
fn put_fit(out: &mut Vec<u8>, shown: Shown, fit: Fit<'_>, places: &Places) -> Result<(), Fail>
    requires placed { placed_in (item_shapes fit.typed.unit.now.items.now) ≡ Ok places.now }
{
    let alloc = *out.allocator();
    put_one_by_one(out, shown, &fit, places)?;
    let flowed = flow(alloc, fit, places);
    lend(out, shown, flowed)
}

// What a unit in the profile tells, or what its functions are one by one.
fn put_one_by_one(
    out: &mut Vec<u8>,
    shown: Shown,
    fit: &Fit<'_>,
    places: &Places,
) -> Result<(), Fail>
    requires placed { placed_in (item_shapes fit.now.typed.unit.now.items.now) ≡ Ok places.now }
{
    match shown {
        Shown::Profile => put_profile(out, fit, places),
        _ => put_functions(out, fit, places),
    }
}

impl Lent for Flowed<'_> {
    fn put(&self, out: &mut Vec<u8>, shown: Shown) -> Result<(), Fail> {
        match shown {
            Shown::Flows => put_told(out, self.function(1)),
            _ => Ok(()),
        }
    }
}
