//! Where the points of a body stand in its blocks.
ghost use Rattle.std.specs.Prelude.{◌≡◌, ◌<◌, ◌↔◌, Some, length, slice_get, IfSome, IsTrue};
ghost use Rattle.tsa_graph.specs.Rows.{place, point_in};
ghost use Rattle.tsa_graph.specs.declared.sequence.Block.{Block as PointBlock};

use tsa_graph::{Blocks, Place};

/// The place of a point.
pub fn place_of(blocks: &Blocks, point: u32) -> Option<Place>
    ensures is { result ≡ slice_get blocks.now.places.items point }
    ensures inside { IfSome result (λ at. at.block < length blocks.now.blocks.items) }
{
    blocks.places.get(point as usize).copied()
}

/// Whether the first point of a block stands at its beginning, so that the block is one of the body.
pub fn is_in_place(blocks: &Blocks, number: usize) -> bool
    requires { number < length blocks.now.blocks.items }
    ensures { (b : PointBlock) → slice_get blocks.now.blocks.items number ≡ Some b
        → IsTrue result ↔ (slice_get blocks.now.places.items (point_in b 0) ≡ Some (place number 0)) }
{
    let block = &blocks.blocks[number];
    match place_of(blocks, block.points[0]) {
        Some(at) => at.block as usize == number && at.index == 0,
        None => false,
    }
}
