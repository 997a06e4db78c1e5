//! Which paths of a function go in which lane.
ghost use Rattle.std.specs.Prelude.{◌≡◌, ◌+◌, ◌++◌, ◌∷◌, ℕ, [], Contains, length, slice_get, slice_index_or, IfOk, IfSome, OnOk};
ghost use Rattle.tsa_flow_function.specs.IdlePaths.{IsIdle, shared_with};
ghost use Rattle.tsa_flow_function.specs.Lanes.{AreAssigned, AreIdle, IsAdded, IsFound};
ghost use Rattle.tsa_rules.specs.Cases.{entry_in};
ghost use Rattle.tsa_rules_view.specs.Views.{case_in, lock_in};

use crate::{Claims, count_of};
use std::alloc::Global;
use tsa_base::NoMemory;
use tsa_rules::Status;
use tsa_rules_view::RuleView;

/// The lane of the paths that nothing claims or tries, by their status at the entry.
#[derive(Clone, Copy)]
pub struct Idle {
    pub entry: Status,
    pub lane: u32,
}

/// The lanes of paths: each path has one of its own, but for those that nothing claims or tries and that have the same status at the entry.
#[derive(Drop)]
pub struct LaneTable {
    pub caps: Vec<u32>,
    pub numbers: Vec<u32>,
    idle: Vec<Idle>,
}

impl LaneTable {
    /// No paths. No memory is taken.
    fn new(alloc: Global) -> LaneTable
        ensures caps { result.caps.items ≡ [] }
        ensures numbers { result.numbers.items ≡ [] }
        ensures idle { result.idle.items ≡ [] }
    {
        LaneTable {
            caps: Vec::new(alloc),
            numbers: Vec::new(alloc),
            idle: Vec::new(alloc),
        }
    }

    /// The lane of the paths that have a status at the entry, for one that nothing claims or tries.
    fn known(&self, claims: &[u32], entry: Status) -> Option<u32>
        ensures idle { IfSome result (λ lane. claims.now ≡ []) }
        ensures among { IfSome result (λ lane. Contains self.now.idle.items (record { entry = entry; lane = lane })) }
    {
        if !claims.is_empty() {
            return None;
        }
        'each: for idle in &self.idle {
            if idle.entry == entry {
                return Some(idle.lane);
            }
        }
        None
    }

    /// Shares a lane with other paths, where nothing claims or tries its path.
    fn share(&mut self, claims: &[u32], idle: Idle) -> Result<(), NoMemory>
        ensures caps { self.new.caps.items ≡ self.old.caps.items }
        ensures numbers { self.new.numbers.items ≡ self.old.numbers.items }
        ensures idle { OnOk result (self.new.idle.items ≡ shared_with self.old.idle.items claims.now idle) }
    {
        if claims.is_empty() {
            self.idle.push(idle)?;
        }
        Ok(())
    }

    /// A lane for a path of its own.
    fn open(&mut self, cap: u32) -> Result<u32, NoMemory>
        ensures caps { OnOk result (self.new.caps.items ≡ self.old.caps.items ++ cap ∷ []) }
        ensures numbers { OnOk result (self.new.numbers.items ≡ self.old.numbers.items) }
        ensures idle { OnOk result (self.new.idle.items ≡ self.old.idle.items) }
        ensures lane { IfOk result (λ lane. lane ≡ length self.old.caps.items) }
    {
        let lane = count_of(&self.caps)?;
        self.caps.push(cap)?;
        Ok(lane)
    }

    /// The lane of a path, which is one of its own where none is known.
    fn lane_of(&mut self, cap: u32, claims: &[u32], entry: Status) -> Result<u32, NoMemory>
        ensures numbers { OnOk result (self.new.numbers.items ≡ self.old.numbers.items) }
        ensures found { IfOk result (λ lane. IsFound cap claims.now entry lane self.old self.new) }
    {
        if let Some(lane) = self.known(claims, entry) {
            return Ok(lane);
        }
        let lane = self.open(cap)?;
        self.share(claims, Idle { entry, lane })?;
        Ok(lane)
    }

    /// One path more.
    fn add(&mut self, cap: u32, claims: &[u32], entry: Status) -> Result<(), NoMemory>
        ensures { OnOk result (IsAdded cap claims.now entry self.old self.new) }
    {
        let lane = self.lane_of(cap, claims, entry)?;
        self.numbers.push(lane)?;
        Ok(())
    }
}

/// The lanes of all paths of a view, by the points at which something claims or tries each.
pub fn lane_table(
    alloc: Global,
    view: &RuleView<'_>,
    claims: &Claims,
) -> Result<LaneTable, NoMemory>
    ensures { IfOk result (λ table. AreIdle view.now claims.now → AreAssigned view.now table.caps.items table.numbers.items) }
{
    let mut table = LaneTable::new(alloc);
    'each: for cap in 0..view.caps() {
        table.add(cap, claims.at(cap), view.lock(cap).entry())?;
    }
    Ok(table)
}
