//! Whether the edges that lead to a block bring the same statuses there.
ghost use Rattle.std.specs.Prelude.{◌≡◌, ◌+◌, ◌<◌, ℕ, All, length, IfOk, OnOk, true};
ghost use Rattle.tsa_flow_solver.specs.Agreeing.{AreArrivalsCompared, AreExitsCompared, AreFlagged, IsBlockCompared, IsOneCompared};
ghost use Rattle.tsa_flow_solver.specs.Agreeing.{IsSized};
ghost use Rattle.tsa_flow_solver.specs.Courses.{leaving};
ghost use Rattle.tsa_flow_solver.specs.Passing.{ArePoints};
ghost use Rattle.tsa_flow_solver.specs.Rows.{flag_at, flags_of, lane_of, set_at};

use crate::flags::Flags;
use crate::front::entries;
use crate::joins::Joins;
use crate::lanes::Lanes;
use crate::passing::{along, leave};
use crate::places::{is_in_place, place_of};
use crate::row::Row;
use std::alloc::Global;
use tsa_base::NoMemory;
use tsa_graph::{Block, Blocks};

/// Flags for each block and each lane, which say that no edges disagree so far.
pub(crate) fn all_agreeing(
    alloc: Global,
    blocks: &Blocks,
    count: u32,
) -> Result<Vec<Flags>, NoMemory>
    ensures long { IfOk result (λ grid. length grid.items ≡ length blocks.now.blocks.items) }
    ensures wide { IfOk result (λ grid. All (λ flags. length flags ≡ count) grid.items) }
    ensures all { IfOk result (λ grid. (l c : ℕ) → flag_at (flags_of grid.items l) c ≡ true) }
{
    let mut grid = Vec::new(alloc);
    'each: for _ in 0..blocks.blocks.len() {
        grid.push(Flags::all(alloc, count)?)?;
    }
    Ok(grid)
}

impl Joins {
    /// Compares the statuses that an edge brings to a block with all that are brought there.
    fn compare(&mut self, count: u32, block: u32, set: &Row)
        requires sized { (blocks : ℕ) × IsSized count blocks self.old.rows.items self.old.agreeing.items }
        requires block { block < length self.old.agreeing.items }
        ensures rows { self.new.rows.items ≡ self.old.rows.items }
        ensures wide { AreFlagged count self.old.agreeing.items self.new.agreeing.items }
        ensures flags { (lane : ℕ) → lane < count
            → IsOneCompared block (set_at set.now lane) (lane_of self.old.rows.items lane) (flags_of self.old.agreeing.items lane)
            (flags_of self.new.agreeing.items lane) }
    {
        let at = block as usize;
        self.agreeing[at].compare(count, set, &self.rows[at]);
    }

    /// Compares what the exits of a block bring.
    fn compare_exits<L: Lanes>(
        &mut self,
        lanes: &L,
        block: &Block,
        last: &Row,
    ) -> Result<(), NoMemory>
        requires sized { (blocks : ℕ) × IsSized (L.count lanes.now) blocks self.old.rows.items self.old.agreeing.items }
        requires last { length last.now ≡ L.count lanes.now }
        requires long { length block.now.points.items ≡ length block.now.inner.items + 1 }
        requires exits { All (λ x. x.to < length self.old.agreeing.items) block.now.exits.items }
        ensures rows { OnOk result (self.new.rows.items ≡ self.old.rows.items) }
        ensures wide { OnOk result (AreFlagged (L.count lanes.now) self.old.agreeing.items self.new.agreeing.items) }
        ensures flags { OnOk result ((lane : ℕ) → ArePoints (L.points lanes.now) block.now → lane < L.count lanes.now
            → AreExitsCompared (leaving (L.cases lanes.now lane) block.now) (set_at last.now lane) block.now.exits.items (lane_of self.old.rows.items lane) (flags_of self.old.agreeing.items lane) (flags_of self.new.agreeing.items lane)) }
    {
        'exits: for exit in &block.exits {
            let set = leave(lanes, block, exit.outcome, last)?;
            self.compare(lanes.count(), exit.to, &set);
        }
        Ok(())
    }

    /// Compares what a block brings where it leads, if it is one of the body.
    fn compare_block<L: Lanes>(
        &mut self,
        lanes: &L,
        blocks: &Blocks,
        number: usize,
    ) -> Result<(), NoMemory>
        requires sized { IsSized (L.count lanes.now) (length blocks.now.blocks.items) self.old.rows.items self.old.agreeing.items }
        requires number { number < length blocks.now.blocks.items }
        ensures rows { OnOk result (self.new.rows.items ≡ self.old.rows.items) }
        ensures wide { OnOk result (AreFlagged (L.count lanes.now) self.old.agreeing.items self.new.agreeing.items) }
        ensures flags { OnOk result ((lane : ℕ) → All (ArePoints (L.points lanes.now)) blocks.now.blocks.items → lane < L.count lanes.now
            → IsBlockCompared (L.cases lanes.now lane) blocks.now number (lane_of self.old.rows.items lane) (flags_of self.old.agreeing.items lane) (flags_of self.new.agreeing.items lane)) }
    {
        if !is_in_place(blocks, number) {
            return Ok(());
        }
        let block = &blocks.blocks[number];
        let mut last = self.rows[number].copy()?;
        along(lanes, block, &mut last);
        self.compare_exits(lanes, block, &last)
    }

    /// Compares the statuses with which the body is entered.
    fn compare_entry<L: Lanes>(
        &mut self,
        alloc: Global,
        lanes: &L,
        blocks: &Blocks,
    ) -> Result<(), NoMemory>
        requires sized { IsSized (L.count lanes.now) (length blocks.now.blocks.items) self.old.rows.items self.old.agreeing.items }
        ensures rows { OnOk result (self.new.rows.items ≡ self.old.rows.items) }
        ensures wide { OnOk result (AreFlagged (L.count lanes.now) self.old.agreeing.items self.new.agreeing.items) }
        ensures flags { OnOk result ((lane : ℕ) → lane < L.count lanes.now
            → AreArrivalsCompared (L.enters lanes.now lane) (L.cases lanes.now lane) blocks.now 0 (lane_of self.old.rows.items lane) (flags_of self.old.agreeing.items lane) (flags_of self.new.agreeing.items lane)) }
    {
        let set = entries(alloc, lanes)?;
        if let Some(place) = place_of(blocks, 0) {
            self.compare(lanes.count(), place.block, &set);
        }
        Ok(())
    }

    /// Compares what all edges of the body bring.
    pub(crate) fn compare_all<L: Lanes>(
        &mut self,
        alloc: Global,
        lanes: &L,
        blocks: &Blocks,
    ) -> Result<(), NoMemory>
        requires sized { IsSized (L.count lanes.now) (length blocks.now.blocks.items) self.old.rows.items self.old.agreeing.items }
        ensures rows { OnOk result (self.new.rows.items ≡ self.old.rows.items) }
        ensures flags { OnOk result ((lane : ℕ) → All (ArePoints (L.points lanes.now)) blocks.now.blocks.items → lane < L.count lanes.now
            → AreArrivalsCompared (L.enters lanes.now lane) (L.cases lanes.now lane) blocks.now (length blocks.now.blocks.items) (lane_of self.old.rows.items lane) (flags_of self.old.agreeing.items lane) (flags_of self.new.agreeing.items lane)) }
    {
        self.compare_entry(alloc, lanes, blocks)?;
        'each: for number in 0..blocks.blocks.len() {
            self.compare_block(lanes, blocks, number)?;
        }
        Ok(())
    }
}
