//! What walks bring to the first points of blocks.
ghost use Rattle.std.specs.Prelude.{◌≡◌, ◌<◌, ℕ, List, length, true, IfOk, IsTrue};
ghost use Rattle.tsa_graph.specs.Rows.{AreBlocksOf};
ghost use Rattle.tsa_core.specs.Control.{Edge};
ghost use Rattle.tsa_flow_solver.specs.Courses.{course_by};
ghost use Rattle.tsa_flow_solver.specs.Joining.{AreJoined};
ghost use Rattle.tsa_flow_solver.specs.Rows.{AreWide, flag_at, flags_of, lane_of, set_at};

use crate::edges::all_agreeing;
use crate::flags::Flags;
use crate::front::Front;
use crate::lanes::Lanes;
use crate::row::Row;
use std::alloc::Global;
use tsa_base::NoMemory;
use tsa_graph::Blocks;
use tsa_rules::Statuses;

/// What walks bring to the first point of each block, lane by lane: the statuses, and whether all edges that are reached there bring the
/// same.
pub struct Joins {
    pub(crate) rows: Vec<Row>,
    pub(crate) agreeing: Vec<Flags>,
}

impl Drop for Joins {
    /// Lets its parts go, in one call for all who let one go.
    fn drop(self) {
        let Joins {
            rows: _,
            agreeing: _,
        } = self;
    }
}

/// What walks bring to the first points of the blocks of a body.
pub fn join<L: Lanes>(alloc: Global, blocks: &Blocks, lanes: &L) -> Result<Joins, NoMemory>
    ensures long { IfOk result (λ r. length r.rows.items ≡ length blocks.now.blocks.items) }
    ensures wide { IfOk result (λ r. AreWide (L.count lanes.now) r.rows.items) }
    ensures joined { IfOk result (λ r. (es : List Edge) (lane : ℕ) → AreBlocksOf (L.points lanes.now) es blocks.now
        → lane < L.count lanes.now
        → AreJoined (course_by es (L.enters lanes.now lane) (L.cases lanes.now lane)) blocks.now (lane_of r.rows.items lane) (flags_of r.agreeing.items lane)) }
{
    let mut front = Front::new(alloc, blocks, lanes)?;
    front.settle(lanes, blocks)?;
    if front.is_even {
        return Ok(Joins {
            rows: front.rows,
            agreeing: Vec::new(alloc),
        });
    }
    let agreeing = all_agreeing(alloc, blocks, lanes.count())?;
    let mut joins = Joins {
        rows: front.rows,
        agreeing,
    };
    joins.compare_all(alloc, lanes, blocks)?;
    Ok(joins)
}

impl Joins {
    /// The statuses of a lane at the first point of a block by its number.
    pub(crate) fn set(&self, block: u32, lane: u32) -> Statuses
        ensures { result ≡ set_at (lane_of self.now.rows.items lane) block }
    {
        match self.rows.get(block as usize) {
            Some(row) => row.at(lane),
            None => Statuses { bits: 0 },
        }
    }

    /// Whether no edges disagree in a lane at the first point of a block.
    pub(crate) fn flag(&self, block: u32, lane: u32) -> bool
        ensures { result ≡ flag_at (flags_of self.now.agreeing.items lane) block }
    {
        match self.agreeing.get(block as usize) {
            Some(flags) => flags.at(lane),
            None => true,
        }
    }

    /// Whether no edges disagree in any lane at the first point of a block.
    pub(crate) fn flags_hold(&self, block: u32) -> bool
        ensures { IsTrue result → (lane : ℕ) → flag_at (flags_of self.now.agreeing.items lane) block ≡ true }
    {
        match self.agreeing.get(block as usize) {
            Some(flags) => flags.hold(),
            None => true,
        }
    }
}
