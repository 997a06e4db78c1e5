//! The sets of statuses that are worked out so far, and the blocks whose sets have grown since they were worked out.
ghost use Rattle.std.specs.Prelude.{◌≡◌, ◌+◌, ◌<◌, ◌↔◌, ℕ, All, length, List, true, IfOk, IsTrue, OnOk};
ghost use Rattle.tsa_graph.specs.Rows.{AreBlocksOf};
ghost use Rattle.tsa_core.specs.Control.{Edge};
ghost use Rattle.tsa_graph_edges.specs.declared.link.Outcome.{Outcome};
ghost use Rattle.tsa_flow_solver.specs.Courses.{course_by, leaving};
ghost use Rattle.tsa_flow_solver.specs.Evenness.{AreEven, HasFollowed, IsSpreadEvenly, IsTurnedEvenly, StaysEven};
ghost use Rattle.tsa_flow_solver.specs.Fronts.{AreSpread, HasMore, HasTakenIn};
ghost use Rattle.tsa_flow_solver.specs.Passing.{ArePoints, IsLeft};
ghost use Rattle.tsa_flow_solver.specs.Rows.{AreWide, lane_of, no_statuses, row_at, set_at};
ghost use Rattle.tsa_flow_solver.specs.Turns.{AreClosed, AreSound, AreTurned, HaveBegun, IsReady};
ghost use Rattle.tsa_rules.specs.Sets.{Has, IsEmpty};

use crate::lanes::Lanes;
use crate::passing::{along, last_stays, leave};
use crate::places::place_of;
use crate::row::Row;
use std::alloc::Global;
use tsa_base::NoMemory;
use tsa_graph::{Block, Blocks, Exit};
use tsa_rules::Statuses;

/// The statuses at the first points of blocks, whether all that was brought to each of them was the same, and the blocks that wait since
/// some set of theirs has grown.
#[derive(Drop)]
pub struct Front {
    pub rows: Vec<Row>,
    pub is_even: bool,
    work: Vec<u32>,
}

/// The statuses at the last point of a block, and whether that leaves them as they are.
#[derive(Clone, Copy)]
struct LastRow<'r> {
    row: &'r Row,
    stays: bool,
}

/// As many rows without statuses as there are blocks.
fn empty_rows(alloc: Global, blocks: &Blocks, count: u32) -> Result<Vec<Row>, NoMemory>
    ensures long { IfOk result (λ rows. length rows.items ≡ length blocks.now.blocks.items) }
    ensures wide { IfOk result (λ rows. AreWide count rows.items) }
    ensures none { IfOk result (λ rows. (c l : ℕ) → set_at (row_at rows.items c) l ≡ no_statuses) }
{
    let mut rows = Vec::new(alloc);
    'each: for _ in 0..blocks.blocks.len() {
        rows.push(Row::empty(alloc, count)?)?;
    }
    Ok(rows)
}

/// The statuses of all lanes at the function's entry.
pub(crate) fn entries<L: Lanes>(alloc: Global, lanes: &L) -> Result<Row, NoMemory>
    ensures long { IfOk result (λ row. length row ≡ L.count lanes.now) }
    ensures only { IfOk result (λ row. (lane : ℕ) → lane < L.count lanes.now → (s : _)
        → Has (set_at row lane) s ↔ (s ≡ L.enters lanes.now lane)) }
{
    let mut row = Row::empty(alloc, lanes.count())?;
    'lanes: for lane in 0..lanes.count() {
        row.put(lane, Statuses::only(lanes.entry(lane)));
    }
    Ok(row)
}

impl Front {
    /// The statuses at the entry, at the block of the first point.
    pub fn new<L: Lanes>(alloc: Global, blocks: &Blocks, lanes: &L) -> Result<Front, NoMemory>
        ensures ready { IfOk result (λ front. IsReady (L.count lanes.now) (length blocks.now.blocks.items) front.rows.items
            front.work.items) }
        ensures begun { IfOk result (λ front. (lane : ℕ) → lane < L.count lanes.now
            → HaveBegun (L.enters lanes.now lane) blocks.now (lane_of front.rows.items lane) front.work.items) }
    {
        let mut front = Front {
            rows: empty_rows(alloc, blocks, lanes.count())?,
            is_even: true,
            work: Vec::new(alloc),
        };
        if let Some(place) = place_of(blocks, 0) {
            let entry = entries(alloc, lanes)?;
            front.take_in(place.block, &entry)?;
        }
        Ok(front)
    }

    /// Notes that a block takes in other statuses than its own: only the first ones that come there are even.
    fn note_other(&mut self, block: u32)
        requires { block < length self.old.rows.items }
        ensures rows { self.new.rows ≡ self.old.rows }
        ensures work { self.new.work ≡ self.old.work }
        ensures even { self.new.is_even ≡ true → (self.old.is_even ≡ true) × ((lane : ℕ) → IsEmpty (set_at (row_at self.old.rows.items block) lane)) }
    {
        if !self.rows[block as usize].all().is_empty() {
            self.is_even = false;
        }
    }

    /// Takes statuses in at a block, lane by lane; it waits where some set has grown.
    fn take_in(&mut self, block: u32, row: &Row) -> Result<(), NoMemory>
        requires block { block < length self.old.rows.items }
        requires long { length (row_at self.old.rows.items block) ≡ length row.now }
        ensures taken { OnOk result (HasTakenIn block row.now self.old.rows.items self.new.rows.items self.old.work.items self.new.work.items) }
        ensures even { OnOk result (StaysEven (row_at self.old.rows.items block) row.now self.old.is_even self.new.is_even) }
    {
        if self.rows[block as usize].is_same(row) {
            return Ok(());
        }
        self.note_other(block);
        if self.rows[block as usize].take_in(row) {
            self.work.push(block)?;
        }
        Ok(())
    }

    /// Takes in along an exit of a block what its last point makes of the statuses there, which are these where it leaves them as they are.
    fn follow<L: Lanes>(
        &mut self,
        lanes: &L,
        block: &Block,
        exit: Exit,
        last: LastRow<'_>,
    ) -> Result<(), NoMemory>
        requires wide { AreWide (L.count lanes.now) self.old.rows.items }
        requires last { length last.row.now ≡ L.count lanes.now }
        requires long { length block.now.points.items ≡ length block.now.inner.items + 1 }
        requires stays { IsTrue last.stays → (lane : ℕ) (outcome : Outcome) → ArePoints (L.points lanes.now) block.now → lane < L.count lanes.now
            → IsLeft (L.cases lanes.now lane) block.now outcome (set_at last.row.now lane) (set_at last.row.now lane) }
        requires inside { exit.to < length self.old.rows.items }
        ensures { OnOk result (HasFollowed (L.count lanes.now) (L.points lanes.now) (L.cases lanes.now) block.now exit.outcome exit.to last.entry.row.now
            self.old.rows.items self.new.rows.items self.old.work.items self.new.work.items self.old.is_even self.new.is_even) }
    {
        if last.stays {
            return self.take_in(exit.to, last.row);
        }
        let out = leave(lanes, block, exit.outcome, last.row)?;
        self.take_in(exit.to, &out)
    }

    /// Takes in along the exits of a block what its last point makes of the statuses there.
    fn spread<L: Lanes>(&mut self, lanes: &L, block: &Block, last: &Row) -> Result<(), NoMemory>
        requires wide { AreWide (L.count lanes.now) self.old.rows.items }
        requires last { length last.now ≡ L.count lanes.now }
        requires long { length block.now.points.items ≡ length block.now.inner.items + 1 }
        requires exits { All (λ x. x.to < length self.old.rows.items) block.now.exits.items }
        ensures spread { OnOk result (AreSpread (L.count lanes.now) (L.points lanes.now) (L.cases lanes.now) block.now block.now.exits.items
            last.now self.old.rows.items self.new.rows.items self.old.work.items self.new.work.items) }
        ensures even { OnOk result ((lane : ℕ) → ArePoints (L.points lanes.now) block.now → lane < L.count lanes.now
            → IsSpreadEvenly (leaving (L.cases lanes.now lane) block.now) (set_at last.now lane) block.now.exits.items
            (lane_of self.old.rows.items lane) (lane_of self.new.rows.items lane) self.old.is_even self.new.is_even) }
    {
        let stays = last_stays(lanes, block, last);
        'exits: for exit in &block.exits {
            self.follow(lanes, block, *exit, LastRow { row: last, stays })?;
        }
        Ok(())
    }

    /// Works out a block by its number.
    fn turn<L: Lanes>(&mut self, lanes: &L, blocks: &Blocks, number: u32) -> Result<(), NoMemory>
        requires long { length self.old.rows.items ≡ length blocks.now.blocks.items }
        requires wide { AreWide (L.count lanes.now) self.old.rows.items }
        requires number { number < length blocks.now.blocks.items }
        ensures turned { OnOk result (AreTurned (L.count lanes.now) (L.points lanes.now) (L.cases lanes.now) blocks.now.blocks.items number
            self.old.rows.items self.new.rows.items self.old.work.items self.new.work.items) }
        ensures even { OnOk result ((lane : ℕ) → All (ArePoints (L.points lanes.now)) blocks.now.blocks.items → lane < L.count lanes.now
            → IsTurnedEvenly (L.cases lanes.now lane) blocks.now.blocks.items number (lane_of self.old.rows.items lane)
            (lane_of self.new.rows.items lane) self.old.is_even self.new.is_even) }
    {
        let block = &blocks.blocks[number as usize];
        let mut last = self.rows[number as usize].copy()?;
        along(lanes, block, &mut last);
        self.spread(lanes, block, &last)
    }

    /// Works out blocks until none waits.
    pub fn settle<L: Lanes>(&mut self, lanes: &L, blocks: &Blocks) -> Result<(), NoMemory>
        requires ready { IsReady (L.count lanes.now) (length blocks.now.blocks.items) self.old.rows.items self.old.work.items }
        requires begun { (lane : ℕ) → lane < L.count lanes.now
            → HaveBegun (L.enters lanes.now lane) blocks.now (lane_of self.old.rows.items lane) self.old.work.items }
        ensures long { OnOk result (length self.new.rows.items ≡ length blocks.now.blocks.items) }
        ensures wide { OnOk result (AreWide (L.count lanes.now) self.new.rows.items) }
        ensures more { OnOk result ((es : List Edge) (lane : ℕ) → AreBlocksOf (L.points lanes.now) es blocks.now → lane < L.count lanes.now
            → HasMore (lane_of self.old.rows.items lane) (lane_of self.new.rows.items lane)) }
        ensures sound { OnOk result ((es : List Edge) (lane : ℕ) → AreBlocksOf (L.points lanes.now) es blocks.now → lane < L.count lanes.now
            → AreSound (course_by es (L.enters lanes.now lane) (L.cases lanes.now lane)) blocks.now.blocks.items
            (lane_of self.new.rows.items lane)) }
        ensures closed { OnOk result ((es : List Edge) (lane : ℕ) → AreBlocksOf (L.points lanes.now) es blocks.now
            → lane < L.count lanes.now → AreClosed (L.cases lanes.now lane) blocks.now.blocks.items (lane_of self.new.rows.items lane)) }
        ensures even { OnOk result ((es : List Edge) (lane : ℕ) → AreBlocksOf (L.points lanes.now) es blocks.now → lane < L.count lanes.now
            → self.new.is_even ≡ true → AreEven (L.enters lanes.now lane) (L.cases lanes.now lane) blocks.now (lane_of self.new.rows.items lane)) }
    {
        'waiting: while let Some(number) = self.work.pop() {
            self.turn(lanes, blocks, number)?;
        }
        Ok(())
    }
}
