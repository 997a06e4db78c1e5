//! The blocks of a graph in a row.
ghost use Rattle.std.specs.Prelude.{◌≡◌, List, length, IfOk};
ghost use Rattle.tsa_graph.specs.InnerEdges.{AreBetween};
ghost use Rattle.tsa_graph.specs.Joining.{IsJoined, AreJoined};
ghost use Rattle.tsa_graph.specs.Rows.{AreBlocksOf};
ghost use Rattle.tsa_core.specs.Control.{Edge};
ghost use Rattle.tsa_graph.specs.Graphs.{IsGraph};

use crate::Graph;
use crate::exits::{Exits, exits_of};
use crate::places::places_of;
use crate::sequence::{Block, Blocks, Exit};
use std::alloc::Global;
use tsa_base::NoMemory;

/// A block with its exits.
fn with_exits(block: crate::GraphBlock, exits: Vec<Exit>) -> Block
    ensures { IsJoined block exits.items result }
{
    Block {
        points: block.points,
        inner: block.inner,
        exits,
    }
}

/// The blocks with their exits.
fn join(alloc: Global, blocks: Vec<crate::GraphBlock>, exits: Exits) -> Result<Vec<Block>, NoMemory>
    requires { length exits ≡ length blocks.items }
    ensures { IfOk result (λ rows. AreJoined blocks.items exits rows.items) }
{
    let mut blocks = blocks;
    let mut exits = exits;
    let mut rows = Vec::new(alloc);
    'each: while let Some(block) = blocks.pop() {
        let list = exits.pop().unwrap();
        rows.push(with_exits(block, list))?;
    }
    rows.reverse();
    Ok(rows)
}

/// The blocks of a graph of so many points, with their exits and the places of the points.
pub fn blocks_of(alloc: Global, graph: Graph, points: u32) -> Result<Blocks, NoMemory>
    requires { (es : List Edge) × IsGraph points es graph × AreBetween points es }
    ensures { IfOk result (λ blocks. (es : List Edge) → IsGraph points es graph → AreBetween points es → AreBlocksOf points es blocks) }
{
    let places = places_of(alloc, &graph.blocks, points)?;
    let exits = exits_of(alloc, &graph.blocks, &places)?;
    let rows = join(alloc, graph.blocks, exits)?;
    Ok(Blocks {
        blocks: rows,
        places,
    })
}
