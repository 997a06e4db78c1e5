//! The control of a body as a graph with longest blocks.
ghost use Rattle.std.specs.Prelude.{◌≡◌, [], length, map, slice_index_or, IfOk, OnOk};
ghost use Rattle.tsa_graph.specs.InnerOutcomes.{outcome_of_one, inner_of};
ghost use Rattle.tsa_graph.specs.Runs.{first_of as spec_first_of};

use crate::entries::{Edge, Entries};
use std::alloc::Global;
use tsa_base::NoMemory;
use tsa_graph_edges::Outcome;

/// A longest run of points: the outcomes of the edges from each of them to the next, and the edges into the first one.
#[derive(Drop)]
pub struct GraphBlock {
    pub points: Vec<u32>,
    pub inner: Vec<Outcome>,
    pub into: Vec<Edge>,
}

/// The control of a body: its blocks.
#[derive(Drop)]
pub struct Graph {
    pub blocks: Vec<GraphBlock>,
}

/// A copy of points.
fn copied(alloc: Global, points: &[u32]) -> Result<Vec<u32>, NoMemory>
    ensures { IfOk result (λ copy. copy.items ≡ points.now) }
{
    let mut copy = Vec::new(alloc);
    copy.extend_from_slice(points)?;
    Ok(copy)
}

/// A copy of edges.
fn copied_edges(alloc: Global, edges: &[Edge]) -> Result<Vec<Edge>, NoMemory>
    ensures { IfOk result (λ copy. copy.items ≡ edges.now) }
{
    let mut copy = Vec::new(alloc);
    copy.extend_from_slice(edges)?;
    Ok(copy)
}

/// The outcome of the only edge into a point.
fn outcome_into(edges: &[Edge]) -> Outcome
    ensures { result ≡ outcome_of_one edges.now }
{
    match edges {
        [edge] => edge.outcome,
        _ => Outcome::Next,
    }
}

/// The outcomes of the edges inside a run.
fn inner_outcomes(alloc: Global, ins: &Entries, run: &[u32]) -> Result<Vec<Outcome>, NoMemory>
    ensures { IfOk result (λ outcomes. outcomes.items ≡ inner_of ins.now run.now) }
{
    let mut outcomes = Vec::new(alloc);
    let Some((_, rest)) = run.split_first() else {
        return Ok(outcomes);
    };
    'each: for point in rest {
        outcomes.push(outcome_into(ins.at(*point)))?;
    }
    Ok(outcomes)
}

/// The first point of a run.
fn first_of(run: &[u32]) -> u32
    ensures { result ≡ spec_first_of run.now }
{
    match run {
        [first, ..] => *first,
        [] => 0,
    }
}

/// The block of a run.
pub fn block_of(alloc: Global, ins: &Entries, run: &[u32]) -> Result<GraphBlock, NoMemory>
    ensures points { IfOk result (λ block. block.points.items ≡ run.now) }
    ensures inner { IfOk result (λ block. block.inner.items ≡ inner_of ins.now run.now) }
    ensures into { IfOk result (λ block. block.into.items ≡ slice_index_or ins.now (spec_first_of run.now) []) }
{
    Ok(GraphBlock {
        points: copied(alloc, run)?,
        inner: inner_outcomes(alloc, ins, run)?,
        into: copied_edges(alloc, ins.at(first_of(run)))?,
    })
}
