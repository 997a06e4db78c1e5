//! The points of a function at which edges may disagree.
ghost use Rattle.std.specs.Prelude.{◌≡◌, ◌<◌, ◌↔◌, ℕ, List, Some, length, slice_get, IsFalse, IsTrue};
ghost use Rattle.tsa_graph.specs.Rows.{place as place_of};
ghost use Rattle.tsa_core.specs.Programs.{Function, Program};
ghost use Rattle.tsa_flow_function.specs.Flows.{IsFlowOf};
ghost use Rattle.tsa_rules.specs.Points.{points_of};
ghost use Rattle.tsa_rules.specs.Walks.{Agree, course_of};
ghost use Rattle.tsa_place_model.specs.Ways.{Way};

use crate::function::FunctionFlow;
use tsa_graph::Place;

impl<'a> FunctionFlow<'a> {
    /// Where a point stands.
    fn place(&self, point: u32) -> Option<Place>
        ensures { result ≡ slice_get self.now.blocks.places.items point }
    {
        self.blocks.places.get(point as usize).copied()
    }

    /// Whether a point is the first one of a block. All edges into any other point of the body agree, on each path.
    pub fn begins_block(&self, point: u32) -> bool
        ensures is { IsTrue result ↔ ((block : ℕ) × (slice_get self.now.blocks.places.items point ≡ Some (place_of block 0))) }
        ensures other { (u : Program) (f : Function) (paths : List Way) (cap : ℕ) (c : Way) → IsFlowOf u f paths self.now
            → point < length (points_of f) → slice_get paths cap ≡ Some c → IsFalse result → Agree (course_of u f c) point }
    {
        match self.place(point) {
            Some(place) => place.index == 0,
            None => false,
        }
    }
}
