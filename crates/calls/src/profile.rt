//! What a unit in the profile tells: how many paths its functions have, and the values of arguments.
ghost use Rattle.std.specs.Prelude.{◌≡◌, Ok};
ghost use Rattle.tsa_place_model.specs.Units.{placed_in};
ghost use Rattle.tsa_tree.specs.units.Shapes.{item_shapes};

use crate::places::put_value;
use crate::texts::{put, put_number, tokens_of};
use crate::units::{Row, Shown, others};
use bumpalo::Bump;
use std::test::Fail;
use tsa_base::{NoMemory, Value};
use tsa_expr::{SyntaxRefusal, read_expr};
use tsa_place::Places;
use tsa_profile::Fit;
use tsa_tree::expr::Expr;

// How many paths a function has.
fn count(fit: &Fit<'_>, function: u32) -> Option<u32> {
    match fit.paths(function) {
        Some(table) => Some(table.len()),
        None => None,
    }
}

// How many paths the functions have.
fn counts_of(fit: &Fit<'_>) -> [Option<u32>; 4] {
    [count(fit, 0), count(fit, 1), count(fit, 2), count(fit, 3)]
}

// A number of paths.
fn put_count(out: &mut Vec<u8>, count: Option<u32>) -> Result<(), Fail> {
    match count {
        Some(count) => put_number(out, count),
        None => put(out, b"none "),
    }
}

// A value that was worked out.
fn put_worth(
    out: &mut Vec<u8>,
    places: &Places,
    value: Result<Option<Value>, NoMemory>,
) -> Result<(), Fail> {
    match value? {
        Some(value) => put_value(out, *out.allocator(), places, value),
        None => put(out, b" none "),
    }
}

// The value of an expression for a parameter of a function.
fn put_argument(
    out: &mut Vec<u8>,
    fit: &Fit<'_>,
    places: &Places,
    parameter: (u32, u32),
    expr: &Expr<'_>,
) -> Result<(), Fail>
    requires placed { placed_in (item_shapes fit.now.typed.unit.now.items.now) ≡ Ok places.now }
{
    let value = fit.argument(*out.allocator(), places, parameter.0, parameter.1, expr);
    put_worth(out, places, value)
}

// The values that an expression has for the parameters of lock and f, and for one that isn't there.
fn put_values(
    out: &mut Vec<u8>,
    fit: &Fit<'_>,
    places: &Places,
    found: Result<(Expr<'_>, u32), SyntaxRefusal>,
) -> Result<(), Fail>
    requires placed { placed_in (item_shapes fit.now.typed.unit.now.items.now) ≡ Ok places.now }
{
    let (expr, _) = found?;
    put_argument(out, fit, places, (0, 0), &expr)?;
    put_argument(out, fit, places, (2, 0), &expr)?;
    put_argument(out, fit, places, (2, 1), &expr)
}

// The same of the expression that a text is.
fn put_text(out: &mut Vec<u8>, fit: &Fit<'_>, places: &Places, text: &[u8]) -> Result<(), Fail>
    requires placed { placed_in (item_shapes fit.now.typed.unit.now.items.now) ≡ Ok places.now }
{
    let bump = Bump::new(*out.allocator());
    let tokens = tokens_of(*out.allocator(), text)?;
    put_values(out, fit, places, read_expr(&bump, &tokens, 0, 0))
}

// Some numbers of paths.
fn put_counts(out: &mut Vec<u8>, counts: &[Option<u32>]) -> Result<(), Fail> {
    'each: for count in counts {
        put_count(out, *count)?;
    }
    Ok(())
}

/// What a unit in the profile tells: of its functions, and of two expressions.
pub fn put_profile(out: &mut Vec<u8>, fit: &Fit<'_>, places: &Places) -> Result<(), Fail>
    requires placed { placed_in (item_shapes fit.now.typed.unit.now.items.now) ≡ Ok places.now }
{
    let counts = counts_of(fit);
    put_counts(out, &counts)?;
    put_text(out, fit, places, b"&a[1]")?;
    put_text(out, fit, places, b"-7")
}

// A unit in the profile: f has the path of its own attribute, and that of its calls and of its write.
const UNITS: [Row; 1] = [(
    b"struct CAPABILITY(\"m\") m { int s; };
struct m a[2];
void lock(struct m *x) ACQUIRE(x);
void unlock(struct m *x) RELEASE(x);
int g GUARDED_BY(a[1]);
struct m *q = &a[1];
int n = -7;
void f(int k) REQUIRES(a[0]) { lock(&a[1]); g = k; unlock(&a[1]); }
",
    b"none none 2 none  to a[1] none  none  none  minus int 7  none ",
)];

#[test]
fn paths_are_counted_and_arguments_have_their_values(rt: HostRuntime) -> Result<(), Fail> {
    let others = others(rt.alloc(), Shown::Profile, &UNITS)?;
    assert_eq!(rt; others.as_slice(), b"".as_slice());
    Ok(())
}
