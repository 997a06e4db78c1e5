//! Where each point leads alone to one that is led to alone, and back.
ghost use Rattle.std.specs.Prelude.{◌≡◌, ◌<◌, ◌≤◌, ℕ, None, length, slice_index_or, IfOk};
ghost use Rattle.tsa_graph.specs.Arcs.{to_one as spec_to_one, from_one as spec_from_one, next_in, back_in};
ghost use Rattle.tsa_graph.specs.declared.arcs.Exit.TheVariants.{Nowhere};

use crate::arcs::{Arcs, Exit};
use crate::entries::Edge;
use std::alloc::Global;
use tsa_base::NoMemory;

/// How a point is left; one that isn't there is left nowhere.
fn exit_at(outs: &[Exit], point: u32) -> Exit
    ensures { result ≡ slice_index_or outs.now point Nowhere }
{
    let number = point as usize;
    if number < outs.len() {
        outs[number]
    } else {
        Exit::Nowhere
    }
}

/// A point that one edge alone leads to, where the body isn't entered.
fn to_one(edges: &[Edge], point: u32) -> Option<u32>
    ensures { result ≡ spec_to_one edges.now point }
{
    match edges {
        [_] => { if point == 0 { None } else { Some(point) } }
        _ => None,
    }
}

/// Where one edge alone comes from a point that it alone leaves.
fn from_one(outs: &[Exit], edges: &[Edge]) -> Option<u32>
    ensures { result ≡ spec_from_one outs.now edges.now }
{
    match edges {
        [edge] => match exit_at(outs, edge.from) {
            Exit::To(_) => Some(edge.from),
            _ => None,
        },
        _ => None,
    }
}

/// Where a point leads alone.
fn next_at(arcs: &Arcs, point: u32) -> Option<u32>
    ensures { result ≡ next_in arcs.now.outs.items arcs.now.ins point }
{
    match exit_at(&arcs.outs, point) {
        Exit::To(to) => to_one(arcs.ins.at(to), to),
        _ => None,
    }
}

/// From where a point is led to alone.
fn back_at(arcs: &Arcs, point: u32) -> Option<u32>
    ensures { result ≡ back_in arcs.now.outs.items arcs.now.ins point }
{
    if point == 0 {
        None
    } else {
        from_one(&arcs.outs, arcs.ins.at(point))
    }
}

/// Where each of so many points leads alone.
pub fn nexts(alloc: Global, arcs: &Arcs, points: u32) -> Result<Vec<Option<u32>>, NoMemory>
    ensures len { IfOk result (λ ways. length ways.items ≡ points) }
    ensures each { IfOk result (λ ways. (p : ℕ) → p < points
        → slice_index_or ways.items p None ≡ next_in arcs.now.outs.items arcs.now.ins p) }
{
    let mut ways = Vec::new(alloc);
    'each: for point in 0..points {
        ways.push(next_at(arcs, point))?;
    }
    Ok(ways)
}

/// From where each of so many points is led to alone.
pub fn backs(alloc: Global, arcs: &Arcs, points: u32) -> Result<Vec<Option<u32>>, NoMemory>
    ensures len { IfOk result (λ ways. length ways.items ≡ points) }
    ensures each { IfOk result (λ ways. (p : ℕ) → p < points
        → slice_index_or ways.items p None ≡ back_in arcs.now.outs.items arcs.now.ins p) }
{
    let mut ways = Vec::new(alloc);
    'each: for point in 0..points {
        ways.push(back_at(arcs, point))?;
    }
    Ok(ways)
}
