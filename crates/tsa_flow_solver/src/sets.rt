//! What walks bring to the points of a body.
ghost use Rattle.std.specs.Prelude.{◌≡◌, ◌+◌, ◌<◌, ◌≤◌, ◌↔◌, ℕ, [], List, length, slice_index_or, IfOk, IsFalse, IsTrue};
ghost use Rattle.tsa_graph.specs.Rows.{AreBlocksOf, last_in};
ghost use Rattle.tsa_core.specs.Control.{Edge};
ghost use Rattle.tsa_flow_solver.specs.Courses.{course_by};
ghost use Rattle.tsa_flow_solver.specs.Disagreeing.{Disagree};
ghost use Rattle.tsa_flow_solver.specs.Passing.{ArePoints, IsCarried};
ghost use Rattle.tsa_flow_solver.specs.Reaching.{AreReached};
ghost use Rattle.tsa_flow_solver.specs.Rows.{lane_of, set_at};
ghost use Rattle.tsa_flow_solver.specs.Stages.{AreStages};
ghost use Rattle.tsa_rules.specs.Sets.{Has};
ghost use Rattle.tsa_rules.specs.Walks.{Agree, ReachAt};

use crate::joins::{Joins, join};
use crate::lanes::Lanes;
use crate::passing::{pass_at, step_in};
use crate::places::place_of;
use crate::stages::{STAGE, Stages, stages_of};
use std::alloc::Global;
use tsa_base::NoMemory;
use tsa_graph::{Block, Blocks, Place};
use tsa_rules::Statuses;

/// What walks bring to the points of a body, lane by lane: to the first points of blocks, and to where the stages of blocks begin.
pub struct Reached {
    pub(crate) joins: Joins,
    pub(crate) stages: Stages,
}

impl Drop for Reached {
    /// Lets its parts go, in one call for all who let one go.
    fn drop(self) {
        let Reached {
            joins: _,
            stages: _,
        } = self;
    }
}

/// A point in a lane.
#[derive(Clone, Copy)]
pub struct Spot {
    pub point: u32,
    pub lane: u32,
}

/// A place of a block, and the statuses of a lane there.
#[derive(Clone, Copy)]
pub struct Stand {
    pub lane: u32,
    pub at: usize,
    pub set: Statuses,
}

/// What walks bring to the points of a body.
pub fn reach<L: Lanes>(alloc: Global, blocks: &Blocks, lanes: &L) -> Result<Reached, NoMemory>
    ensures { IfOk result (λ r. (es : List Edge) → AreBlocksOf (L.points lanes.now) es blocks.now
        → AreReached es (L.count lanes.now) (L.enters lanes.now) (L.cases lanes.now) blocks.now r) }
{
    let joins = join(alloc, blocks, lanes)?;
    let stages = stages_of(alloc, lanes, blocks, &joins.rows)?;
    Ok(Reached { joins, stages })
}

/// What the statuses of a lane at one place of a block become at a later one.
fn walk<L: Lanes>(lanes: &L, block: &Block, from: Stand, to: usize) -> Statuses
    requires { length block.now.points.items ≡ length block.now.inner.items + 1 }
    ensures { (first : _) → ArePoints (L.points lanes.now) block.now → from.lane < L.count lanes.now → from.at ≤ to → to ≤ last_in block.now
        → IsCarried (L.cases lanes.now from.lane) block.now first from.at from.set → IsCarried (L.cases lanes.now from.lane) block.now first to result }
{
    let mut set = from.set;
    'places: for index in from.at..to {
        if index < block.inner.len() {
            set = step_in(lanes, pass_at(block, index), from.lane, set);
        }
    }
    set
}

impl Reached {
    /// Where the last stage begins that isn't behind a place of a block, with the statuses of a lane there.
    fn stand(&self, place: Place, lane: u32) -> Stand
        ensures lane { result.lane ≡ lane }
        ensures before { result.at ≤ place.index }
        ensures set { (cases : _) (b : _)
            → AreStages cases b (set_at (lane_of self.now.joins.rows.items lane) place.block) lane
            (slice_index_or self.now.stages place.block [])
            → IsCarried cases b (set_at (lane_of self.now.joins.rows.items lane) place.block) result.at result.set }
    {
        let stages = self.stages.at(place.block as usize);
        let last = stages.len().saturating_sub(1);
        let number = (place.index as usize / STAGE).min(last);
        match stages.get(number) {
            Some(row) => Stand {
                lane,
                at: number * STAGE,
                set: row.at(lane),
            },
            None => Stand {
                lane,
                at: 0,
                set: self.joins.set(place.block, lane),
            },
        }
    }

    /// The statuses that walks bring to a point in a lane.
    pub fn statuses<L: Lanes>(&self, lanes: &L, blocks: &Blocks, spot: Spot) -> Statuses
        ensures { (es : List Edge) → AreBlocksOf (L.points lanes.now) es blocks.now
            → AreReached es (L.count lanes.now) (L.enters lanes.now) (L.cases lanes.now) blocks.now self.now
            → spot.point < L.points lanes.now → spot.lane < L.count lanes.now → (s : _) → Has result s ↔ ReachAt (course_by es (L.enters lanes.now spot.lane) (L.cases lanes.now spot.lane)) spot.point s }
    {
        match place_of(blocks, spot.point) {
            Some(place) => walk(
                lanes,
                &blocks.blocks[place.block as usize],
                self.stand(place, spot.lane),
                place.index as usize,
            ),
            None => Statuses::none(),
        }
    }

    /// Whether all edges that are reached into a point bring the same statuses there in a lane. Where they don't, two of them tell it.
    pub fn agree(&self, blocks: &Blocks, spot: Spot) -> bool
        ensures is { (n : ℕ) (es : List Edge) (count : ℕ) (enters : _) (cases : _) → AreBlocksOf n es blocks.now
            → AreReached es count enters cases blocks.now self.now → spot.point < n → spot.lane < count
            → IsTrue result ↔ Agree (course_by es (enters spot.lane) (cases spot.lane)) spot.point }
        ensures differ { (n : ℕ) (es : List Edge) (count : ℕ) (enters : _) (cases : _) → AreBlocksOf n es blocks.now
            → AreReached es count enters cases blocks.now self.now → spot.point < n → spot.lane < count
            → IsFalse result → Disagree (course_by es (enters spot.lane) (cases spot.lane)) spot.point }
    {
        match place_of(blocks, spot.point) {
            Some(place) => place.index > 0 || self.joins.flag(place.block, spot.lane),
            None => true,
        }
    }

    /// Whether all edges that are reached into a point bring the same statuses there in every lane.
    pub fn all_agree(&self, blocks: &Blocks, point: u32) -> bool
        ensures { (n : ℕ) (es : List Edge) (count : ℕ) (enters : _) (cases : _) (lane : ℕ) → AreBlocksOf n es blocks.now
            → AreReached es count enters cases blocks.now self.now → point < n → lane < count
            → IsTrue result → Agree (course_by es (enters lane) (cases lane)) point }
    {
        match place_of(blocks, point) {
            Some(place) => place.index > 0 || self.joins.flags_hold(place.block),
            None => true,
        }
    }
}
