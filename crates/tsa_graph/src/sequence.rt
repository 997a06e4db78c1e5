//! Blocks with their exits, and the places of points.
ghost use Rattle.tsa_graph.specs.BlockForms.{AreFormed};

use tsa_graph_edges::Outcome;

/// An edge from the last point of a block to the first point of one, by the number of that block.
#[derive(Clone, Copy)]
pub struct Exit {
    pub outcome: Outcome,
    pub to: u32,
}

/// A longest run of points: the outcomes of the edges from each of them to the next, and the edges from the last one.
pub struct Block {
    pub points: Vec<u32>,
    pub inner: Vec<Outcome>,
    pub exits: Vec<Exit>,
}

impl Drop for Block {
    /// Lets its parts go, in one call for all who let one go.
    fn drop(self) {
        let Block {
            points: _,
            inner: _,
            exits: _,
        } = self;
    }
}

/// Where a point stands: the number of its block, and its place there.
#[derive(Clone, Copy, Debug, PartialEq, Eq)]
pub struct Place {
    pub block: u32,
    pub index: u32,
}

/// The blocks of a body, and the places of its points by their numbers.
pub struct Blocks {
    pub blocks: Vec<Block>,
    pub places: Vec<Place>,
    pub ghost formed: { AreFormed blocks.items places.items },
}

impl Drop for Blocks {
    /// Lets its parts go, in one call for all who let one go.
    fn drop(self) {
        let Blocks {
            blocks: _,
            places: _,
        } = self;
    }
}
