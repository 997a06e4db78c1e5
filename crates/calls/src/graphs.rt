//! What the locals of a body are named, and its graph: its blocks in order.
ghost use Rattle.std.specs.Prelude.{◌≡◌, Ok};
ghost use Rattle.tsa_place_model.specs.Units.{placed_in};
ghost use Rattle.tsa_tree.specs.units.Shapes.{item_shapes};

use crate::texts::{put, put_number};
use crate::units::{Row, Shown, others};
use std::alloc::Global;
use std::test::Fail;
use tsa_base::NoMemory;
use tsa_graph::{Edge, Graph, GraphBlock};
use tsa_graph_edges::Outcome;
use tsa_path::Named;
use tsa_place::Places;
use tsa_rules_bodies::graph_of;
use tsa_tree::item::FnTree;
use tsa_tree::kind::Kind;
use tsa_types::Typed;
use tsa_types_scope::{Scope, outset};
use tsa_warn_text::body_names;

// How a point is left, by a letter.
fn put_outcome(out: &mut Vec<u8>, outcome: Outcome) -> Result<(), Fail> {
    match outcome {
        Outcome::Next => put(out, b"n"),
        Outcome::Yes => put(out, b"y"),
        Outcome::No => put(out, b"o"),
        Outcome::Chosen(z) => {
            put(out, b"c")?;
            put_number(out, z.unsigned_abs())
        }
        Outcome::Rest => put(out, b"r"),
    }
}

// An edge into a block.
fn put_edge(out: &mut Vec<u8>, edge: Edge) -> Result<(), Fail> {
    put_number(out, edge.from)?;
    put_outcome(out, edge.outcome)?;
    put(out, b" ")
}

// The edges into a block, its points, and the outcomes between them.
fn put_block(out: &mut Vec<u8>, block: &GraphBlock) -> Result<(), Fail> {
    put(out, b"(")?;
    for edge in &block.into {
        put_edge(out, *edge)?;
    }
    put(out, b"> ")?;
    for point in &block.points {
        put_number(out, *point)?;
    }
    for outcome in &block.inner {
        put_outcome(out, *outcome)?;
    }
    put(out, b")")
}

// Its blocks, where there is one.
fn put_blocks(out: &mut Vec<u8>, graph: Result<Option<Graph>, NoMemory>) -> Result<(), Fail> {
    let Some(graph) = graph? else {
        return Ok(());
    };
    'each: for block in &graph.blocks {
        put_block(out, block)?;
    }
    Ok(())
}

// A name, and the number of the struct to which it leads where it leads to one.
fn put_named(out: &mut Vec<u8>, named: Named<'_>) -> Result<(), Fail> {
    put(out, named.name)?;
    put(out, b" ")?;
    match named.structure {
        Some(number) => put_number(out, number),
        None => Ok(()),
    }
}

// Some names.
fn put_names(out: &mut Vec<u8>, names: Result<Vec<Named<'_>>, NoMemory>) -> Result<(), Fail> {
    let names = names?;
    'each: for named in &names {
        put_named(out, *named)?;
    }
    Ok(())
}

// The one local of a body, where it declares one: a pointer to the first struct.
const KINDS: &[Kind] = &[Kind::Pointer {
    target: 0,
    to_const: false,
}];

// What the locals of a function are named.
fn names_in<'a>(scope: &Scope<'a>, function: &FnTree<'a>) -> Result<Vec<Named<'a>>, NoMemory> {
    body_names(scope, function, function.params, KINDS)
}

// What the locals of a function are named.
fn put_function<'a>(
    out: &mut Vec<u8>,
    scope: &Scope<'a>,
    function: &FnTree<'a>,
) -> Result<(), Fail> {
    let names = names_in(scope, function);
    put_names(out, names)
}

// The same where there is such a function, in a scope.
fn put_scoped<'a>(
    out: &mut Vec<u8>,
    scope: Result<Scope<'a>, NoMemory>,
    function: Option<&FnTree<'a>>,
) -> Result<(), Fail> {
    match function {
        Some(function) => {
            let scope = scope?;
            put_function(out, &scope, function)
        }
        None => Ok(()),
    }
}

// The scope before a unit's items.
fn scope_of<'a>(alloc: Global, typed: &Typed<'a>) -> Result<Scope<'a>, NoMemory> {
    outset(alloc, typed.unit().items)
}

// The first function of a unit.
fn first_of<'a>(typed: &Typed<'a>) -> Option<&'a FnTree<'a>> {
    typed.unit().function(0)
}

/// What the locals of a unit's only function are named, and its graph.
pub fn put_graph(out: &mut Vec<u8>, typed: &Typed<'_>, places: &Places) -> Result<(), Fail>
    requires placed { placed_in (item_shapes typed.now.unit.now.items.now) ≡ Ok places.now }
{
    let alloc = *out.allocator();
    let function = first_of(typed);
    let scope = scope_of(alloc, typed);
    put_scoped(out, scope, function)?;
    put_blocks(out, graph_of(alloc, typed, places, 0))
}

// Four points in a row are one block; a loop is entered and left; a round that nothing reaches is a block; and jumps lead
// where they say.
const GRAPHS: [Row; 4] = [
    (
        b"void f(int a) { a = 1; a = 2; a = 3; }",
        b"a (> 0 1 2 3 nnn)",
    ),
    (
        b"struct m { int s; }; void f(int a, struct m *b) { while (a) a = 1; { } { } struct m *c = b; }",
        b"a b 0 c 0 (1 n > 0 )(0 y > 1 )(0 o > 2 3 n)",
    ),
    (
        b"void f(int a) { return; l: a = 1; goto l; }",
        b"a (> 0 )(> 3 )(2 n > 1 2 n)",
    ),
    (
        b"void f(int a, int b) { for (; a; a--) { if (b) continue; b = 1; } do switch (a) { case 1: b = 2; case 2: break; default: { } } while (b); }",
        b"a b (1 n > 0 )(3 n 4 n > 1 )(0 y > 2 )(2 y > 3 )(2 o > 4 )(0 o 8 y > 5 )(5 c1  > 6 )(5 c2  6 n > 7 )(5 r 7 n > 8 )(8 o > 9 )",
    ),
];

#[test]
fn bodies_have_their_blocks(rt: HostRuntime) -> Result<(), Fail> {
    let others = others(rt.alloc(), Shown::Graph, &GRAPHS)?;
    assert_eq!(rt; others.as_slice(), b"".as_slice());
    Ok(())
}
