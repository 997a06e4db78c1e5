//! The graph of edges between points.
ghost use Rattle.std.specs.Prelude.{◌≡◌, ◌+◌, map, IfOk};
ghost use Rattle.tsa_core.specs.Control.{body_edges, count_all};
ghost use Rattle.tsa_graph.specs.Graphs.{IsGraph};
ghost use Rattle.tsa_graph.specs.BlocksOfRuns.{AreMade};
ghost use Rattle.tsa_graph.specs.InnerEdges.{AreBetween};
ghost use Rattle.tsa_graph_edges.specs.Links.{edge_of};
ghost use Rattle.tsa_tree.specs.statements.Shapes.{stmt_shapes};

use crate::arcs::arcs_of;
use crate::blocks::{Graph, GraphBlock, block_of};
use crate::entries::Entries;
use crate::ways::{backs, nexts};
use crate::{Runs, Ways, longest_runs};
use std::alloc::Global;
use tsa_base::NoMemory;
use tsa_graph_edges::{BodyPoints, Link, body_links};
use tsa_types_scope::Scope;

/// A block of each run.
fn blocks_in(alloc: Global, ins: &Entries, runs: &Runs) -> Result<Vec<GraphBlock>, NoMemory>
    ensures { IfOk result (λ blocks. AreMade ins.now blocks.items runs.now) }
{
    let mut blocks = Vec::new(alloc);
    'each: for number in 0..runs.len() {
        blocks.push(block_of(alloc, ins, runs.at(number))?)?;
    }
    Ok(blocks)
}

/// The graph of edges between so many points, of which the first is where the body is entered: its blocks are longest runs.
pub fn graph_of_links(alloc: Global, links: &[Link], points: u32) -> Result<Graph, NoMemory>
    requires { AreBetween points (map edge_of links.now) }
    ensures { IfOk result (λ graph. IsGraph points (map edge_of links.now) graph) }
{
    let arcs = arcs_of(alloc, links, points)?;
    let next = nexts(alloc, &arcs, points)?;
    let back = backs(alloc, &arcs, points)?;
    let ways = Ways {
        next: &next,
        back: &back,
    };
    let runs = longest_runs(alloc, ways, points)?;
    let blocks = blocks_in(alloc, &arcs.ins, &runs)?;
    Ok(Graph { blocks })
}

/// The graph of a body: its edges are those of its control.
pub fn graph_of_body<'a>(scope: &Scope<'a>, body: BodyPoints<'_, 'a>) -> Result<Graph, NoMemory>
    ensures { IfOk result (λ graph. IsGraph (count_all (stmt_shapes body.entry.statements.now) + 1)
        (body_edges scope.now (stmt_shapes body.entry.statements.now)) graph) }
{
    let links = body_links(scope, body)?;
    graph_of_links(scope.allocator(), &links, body.points)
}
