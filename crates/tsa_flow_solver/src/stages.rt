//! The statuses at each fourth place of blocks.
ghost use Rattle.std.specs.Prelude.{◌≡◌, ◌++◌, ◌∷◌, ◌+◌, ◌*◌, ◌<◌, ◌≤◌, ◌↔◌, ℕ, [], List, Some, All, length, slice_get, slice_index_or};
ghost use Rattle.std.specs.Prelude.{IfOk, OnOk};
ghost use Rattle.tsa_graph.specs.Rows.{last_in, point_in};
ghost use Rattle.tsa_flow_solver.specs.Passing.{ArePoints};
ghost use Rattle.tsa_flow_solver.specs.Rows.{AreWide, row_at, set_at};
ghost use Rattle.tsa_flow_solver.specs.Stages.{AreStaged, AreStages, IsNoted};

use crate::lanes::Lanes;
use crate::passing::step;
use crate::row::Row;
use std::alloc::Global;
use std::marker::Model;
use tsa_base::NoMemory;
use tsa_graph::{Block, Blocks};

/// How many places a stage is long.
pub(crate) const STAGE: usize = 4;

/// The statuses at the beginning of each stage of each block. Contracts see the lists.
#[derive(Drop)]
pub struct Stages {
    lists: Vec<Vec<Row>>,
}

impl Model for Stages {
    ghost use Rattle.std.specs.Prelude.{List, map};
    ghost use Rattle.tsa_rules.specs.declared.statuses.Statuses.{Statuses as Set};

    ghost Value = { List (List (List Set)) };

    ghost view = { λ stages. map (λ list. list.items) stages.lists.items };
}

impl Stages {
    /// No stages of no blocks. No memory is taken.
    fn new(alloc: Global) -> Stages
        ensures { result ≡ [] }
    {
        Stages {
            lists: Vec::new(alloc),
        }
    }

    /// One block more.
    fn add(&mut self, list: Vec<Row>) -> Result<(), NoMemory>
        ensures { OnOk result (self.new ≡ self.old ++ list.items ∷ []) }
    {
        self.lists.push(list)?;
        Ok(())
    }

    /// The stages of a block by its number; none of one that isn't there.
    pub(crate) fn at(&self, block: usize) -> &[Row]
        ensures { result.now ≡ slice_index_or self.now block [] }
    {
        match self.lists.get(block) {
            Some(list) => list,
            None => &[],
        }
    }
}

/// Puts the statuses at a place of a block behind the stages so far, where the next one begins there.
fn note(stages: &mut Vec<Row>, row: &Row, index: usize) -> Result<(), NoMemory>
    ensures { OnOk result (IsNoted row.now index stages.old.items stages.new.items) }
{
    if stages.len().checked_mul(STAGE) == Some(index) {
        stages.push(row.copy()?)?;
    }
    Ok(())
}

/// The statuses at the beginnings of the stages of a block, by those at its first point.
fn block_stages<L: Lanes>(
    alloc: Global,
    lanes: &L,
    block: &Block,
    from: &Row,
) -> Result<Vec<Row>, NoMemory>
    requires wide { length from.now ≡ L.count lanes.now }
    requires long { length block.now.points.items ≡ length block.now.inner.items + 1 }
    ensures { IfOk result (λ stages. (lane : ℕ) → ArePoints (L.points lanes.now) block.now → lane < L.count lanes.now
        → AreStages (L.cases lanes.now lane) block.now (set_at from.now lane) lane stages.items) }
{
    let mut stages = Vec::new(alloc);
    if block.inner.is_empty() {
        return Ok(stages);
    }
    let mut row = from.copy()?;
    'places: for index in 0..block.inner.len() {
        note(&mut stages, &row, index)?;
        step(lanes, block, index, &mut row);
    }
    Ok(stages)
}

/// The statuses at the beginnings of the stages of each block, by those at the first points.
pub(crate) fn stages_of<L: Lanes>(
    alloc: Global,
    lanes: &L,
    blocks: &Blocks,
    rows: &[Row],
) -> Result<Stages, NoMemory>
    requires long { length rows.now ≡ length blocks.now.blocks.items }
    requires wide { AreWide (L.count lanes.now) rows.now }
    ensures { IfOk result (λ stages. (lane : ℕ) → All (ArePoints (L.points lanes.now)) blocks.now.blocks.items → lane < L.count lanes.now
        → AreStaged (L.cases lanes.now lane) blocks.now.blocks.items rows.now lane stages) }
{
    let mut stages = Stages::new(alloc);
    'each: for number in 0..blocks.blocks.len() {
        let block = &blocks.blocks[number];
        let row = &rows[number];
        stages.add(block_stages(alloc, lanes, block, row)?)?;
    }
    Ok(stages)
}
