//! The bodies of a typed unit, with the points and the locals that are found along its row.
use crate::texts::{put, put_number};
use crate::units::{Row, Shown, others};
use std::test::Fail;
use tsa_base::NoMemory;
use tsa_core_program::{BodyRange, Lists, Program};
use tsa_types::Typed;

// Whether a local never changes, or does.
fn put_local(out: &mut Vec<u8>, is_stable: bool) -> Result<(), Fail> {
    put(out, if is_stable { b"s" } else { b"c" })
}

// The nodes of its points.
fn put_points(out: &mut Vec<u8>, points: &[usize]) -> Result<(), Fail> {
    'each: for point in points {
        put_number(out, u32::try_from(*point)?)?;
    }
    Ok(())
}

// A body: its function, the nodes of its points, how many locals it declares, and whether its first two locals change.
fn put_body(out: &mut Vec<u8>, lists: &Lists, body: &BodyRange) -> Result<(), Fail> {
    put_number(out, body.function)?;
    put(out, b"(")?;
    put_points(out, lists.points(body))?;
    put(out, b") ")?;
    put_number(out, u32::try_from(lists.kinds(body).len())?)?;
    put_local(out, lists.is_stable(body, 0))?;
    put_local(out, lists.is_stable(body, 1))?;
    put(out, b" ")
}

// All bodies, in order.
fn put_lists(out: &mut Vec<u8>, lists: &Lists) -> Result<(), Fail> {
    'each: for body in lists.bodies() {
        put_body(out, lists, body)?;
    }
    Ok(())
}

// The same of what was found along a row.
fn put_program(out: &mut Vec<u8>, program: Result<Program<'_>, NoMemory>) -> Result<(), Fail> {
    put_lists(out, program?.lists())
}

/// The bodies of a typed unit.
pub fn put_bodies(out: &mut Vec<u8>, typed: &Typed<'_>) -> Result<(), Fail> {
    let program = Program::new(*out.allocator(), typed);
    put_program(out, program)
}

// A body stands behind the head of its function and has the parameters as its first locals, named or not; a local changes where it is
// assigned; and what is declared without a body has none.
const BODIES: [Row; 2] = [
    (
        b"int n; void f(int a, int b) { int c; a = n; } void g(void) {}",
        b"0 (4 6 9 ) 1 cs 1 (11 ) 0 cc ",
    ),
    (
        b"void g(void); unsigned f(int, unsigned w) { for (int i = 0; ; i += 1) g(); }",
        b"1 (3 6 7 10 13 ) 1 ss ",
    ),
];

#[test]
fn bodies_are_found_along_the_row(rt: HostRuntime) -> Result<(), Fail> {
    let others = others(rt.alloc(), Shown::Bodies, &BODIES)?;
    assert_eq!(rt; others.as_slice(), b"".as_slice());
    Ok(())
}
