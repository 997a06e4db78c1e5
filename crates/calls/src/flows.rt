//! What walks bring to the points of a function: the statuses of its first path, and whether edges agree; and the rules that fail there.
ghost use Rattle.std.specs.Prelude.{◌≡◌, Ok};
ghost use Rattle.tsa_place_model.specs.Units.{placed_in};
ghost use Rattle.tsa_tree.specs.units.Shapes.{item_shapes};

use crate::paths::Caller;
use crate::texts::{put, put_number};
use crate::units::{Row, Shown, others};
use std::alloc::Global;
use std::test::Fail;
use tsa_base::NoMemory;
use tsa_flow_function::{FunctionFlow, flow_of};
use tsa_path::{Named, PathTable};
use tsa_place::Places;
use tsa_profile::Fit;
use tsa_rules::Statuses;
use tsa_rules_table::Numbers;
use tsa_warn_function::{RuleFailure, warnings_of};
use tsa_warn_text::PathTexts;

// What the unit's functions see of it.
const NAMES: Caller = Caller {
    globals: &[
        Named {
            name: b"a",
            structure: Some(0),
        },
        Named {
            name: b"b",
            structure: Some(0),
        },
    ],
    locals: &[],
    members: &[],
};

// Statuses as a number, and whether edges agree.
fn put_seen(out: &mut Vec<u8>, set: Statuses, agree: bool) -> Result<(), Fail> {
    put_number(out, u32::try_from(set.bits).ok().ok_or(NoMemory)?)?;
    if agree {
        put(out, b"agree ")
    } else {
        put(out, b"differ ")
    }
}

// The statuses of the first path before a point, and whether edges into it agree.
fn put_point(out: &mut Vec<u8>, flow: &FunctionFlow<'_>, point: u32) -> Result<(), Fail> {
    put_seen(out, flow.statuses(point, 0), flow.agree(point, 0))
}

// The same of five points, behind the number of paths.
fn put_points(out: &mut Vec<u8>, flow: &FunctionFlow<'_>) -> Result<(), Fail> {
    put_number(out, flow.view().caps())?;
    'each: for point in 0..5 {
        put_point(out, flow, point)?;
    }
    Ok(())
}

// A rule that fails: the point, the number of the rule, and that of the path.
fn put_failure(out: &mut Vec<u8>, failure: RuleFailure) -> Result<(), Fail> {
    put_number(out, failure.point)?;
    put(out, b"TS")?;
    put_number(out, failure.rule.number())?;
    put_number(out, failure.cap)
}

// The rules that fail, in order.
fn put_failures(out: &mut Vec<u8>, found: Result<Vec<RuleFailure>, NoMemory>) -> Result<(), Fail> {
    let found = found?;
    'each: for failure in &found {
        put_failure(out, *failure)?;
    }
    Ok(())
}

// The texts of some paths.
fn texts_of(alloc: Global, table: &PathTable) -> Result<PathTexts, NoMemory> {
    let numbers = Numbers::copy_of(alloc, table)?;
    PathTexts::new(alloc, &NAMES, &numbers)
}

// The rules that fail at a function, by the texts of its paths.
fn put_warnings(
    out: &mut Vec<u8>,
    flow: &FunctionFlow<'_>,
    texts: Result<PathTexts, NoMemory>,
) -> Result<(), Fail> {
    put_failures(out, warnings_of(*out.allocator(), flow, &texts?))
}

// Both, of a function with some paths.
fn put_both(
    out: &mut Vec<u8>,
    flow: &FunctionFlow<'_>,
    paths: Option<&PathTable>,
) -> Result<(), Fail> {
    match paths {
        Some(table) => {
            put_points(out, flow)?;
            put_warnings(out, flow, texts_of(*out.allocator(), table))
        }
        None => put(out, b"no paths "),
    }
}

// What is shown of a function, or that it has nothing to show.
fn put_found(
    out: &mut Vec<u8>,
    flow: Result<Option<FunctionFlow<'_>>, NoMemory>,
    paths: Option<&PathTable>,
) -> Result<(), Fail> {
    match flow? {
        Some(flow) => put_both(out, &flow, paths),
        None => put(out, b"none "),
    }
}

// What is shown of a function of a number.
fn put_function(
    out: &mut Vec<u8>,
    fit: &Fit<'_>,
    places: &Places,
    function: u32,
) -> Result<(), Fail>
    requires placed { placed_in (item_shapes fit.now.typed.unit.now.items.now) ≡ Ok places.now }
{
    let alloc = *out.allocator();
    let paths = fit.paths(function);
    let flow = flow_of(alloc, fit, places, function);
    put_found(out, flow, paths)
}

/// What is shown of a function without a body, and of one with a body.
pub fn put_functions(out: &mut Vec<u8>, fit: &Fit<'_>, places: &Places) -> Result<(), Fail>
    requires placed { placed_in (item_shapes fit.now.typed.unit.now.items.now) ≡ Ok places.now }
{
    put_function(out, fit, places, 0)?;
    put_function(out, fit, places, 1)
}

/// The points of a function with a body, by what is told of all functions of the unit.
pub fn put_told(out: &mut Vec<u8>, flow: Option<&FunctionFlow<'_>>) -> Result<(), Fail> {
    match flow {
        Some(flow) => put_points(out, flow),
        None => put(out, b"none "),
    }
}

// A loop that takes a lock and doesn't give it back, what another lock guards, and a point behind its return. Free is 1 and owned alone is
// 4, so both are 5; no walk comes behind the return. Edges disagree at the test (TS10), the lock is taken again (TS06), the other one isn't
// owned where it guards what is written (TS02), and the return may own the first one (TS09).
const UNITS: [Row; 1] = [(
    b"struct CAPABILITY(\"m\") m { int s; };
struct m a;
struct m b;
int g GUARDED_BY(b);
void lock(struct m *x) ACQUIRE(x);
void f(int c) { while (c) lock(&a); g = 1; return; c = 1; }
",
    b"none 2 5 differ 5 agree 5 agree 5 agree 0 agree 0 TS10 0 1 TS6 0 2 TS2 1 3 TS9 0 2 5 differ 5 agree 5 agree 5 agree 0 agree ",
)];

#[test]
fn a_loop_brings_what_it_takes_back_to_its_test(rt: HostRuntime) -> Result<(), Fail> {
    let others = others(rt.alloc(), Shown::Flows, &UNITS)?;
    assert_eq!(rt; others.as_slice(), b"".as_slice());
    Ok(())
}
