//! The statuses of all lanes at one place.
ghost use Rattle.std.specs.Prelude.{◌≡◌, ◌^◌, ◌<◌, ℕ, length, slice_set, IfOk, IsFalse, IsTrue};
ghost use Rattle.tsa_flow_solver.specs.Rows.{IsTakenIn, union, no_statuses, set_at};
ghost use Rattle.tsa_rules.specs.Sets.{Has};

use std::alloc::Global;
use std::marker::Model;
use tsa_base::NoMemory;
use tsa_rules::Statuses;

/// The statuses of all lanes at one place. Contracts see the list.
pub struct Row {
    sets: Vec<Statuses>,
}

impl Drop for Row {
    /// Lets its parts go, in one call for all who let one go.
    fn drop(self) {
        let Row { sets: _ } = self;
    }
}

impl Model for Row {
    ghost use Rattle.std.specs.Prelude.{List};
    ghost use Rattle.tsa_rules.specs.declared.statuses.Statuses.{Statuses as Set};

    ghost Value = { List Set };

    ghost view = { λ row. row.sets.items };
}

/// Adds statuses to a set, and tells whether it has grown.
fn join(sets: &mut [Statuses], at: usize, set: Statuses) -> bool
    requires { at < length sets.old }
    ensures sets { sets.new ≡ slice_set sets.old at (union (set_at sets.old at) set) }
    ensures small { (union (set_at sets.old at) set).bits < 2 ^ 64 }
    ensures same { IsFalse result → union (set_at sets.old at) set ≡ set_at sets.old at }
    ensures grown { IsTrue result → (set_at sets.old at).bits < (union (set_at sets.old at) set).bits }
{
    let before = sets[at].bits;
    let bits = before | set.bits;
    sets[at] = Statuses { bits };
    bits != before
}

/// Takes in sets, lane by lane, and tells whether some set has grown.
fn take_in(sets: &mut [Statuses], others: &[Statuses]) -> bool
    requires { length sets.old ≡ length others.now }
    ensures { IsTakenIn sets.old others.now sets.new result }
{
    let mut grown = false;
    'lanes: for lane in 0..sets.len() {
        if join(sets, lane, others[lane]) {
            grown = true;
        }
    }
    grown
}

/// The statuses of all sets together.
fn unite(sets: &[Statuses]) -> Statuses
    ensures { (lane : ℕ) (s : _) → Has (set_at sets.now lane) s → Has result s }
{
    let mut all = Statuses { bits: 0 };
    'lanes: for set in sets {
        all = all.join(*set);
    }
    all
}

impl Row {
    /// No statuses in any of so many lanes.
    pub(crate) fn empty(alloc: Global, count: u32) -> Result<Row, NoMemory>
        ensures long { IfOk result (λ row. length row ≡ count) }
        ensures none { IfOk result (λ row. (lane : ℕ) → set_at row lane ≡ no_statuses) }
    {
        let sets = vec![in alloc; Statuses { bits: 0 }; count as usize]?;
        Ok(Row { sets })
    }

    /// The same statuses once more.
    pub(crate) fn copy(&self) -> Result<Row, NoMemory>
        ensures { IfOk result (λ row. row ≡ self.now) }
    {
        let mut sets = Vec::new(*self.sets.allocator());
        sets.extend_from_slice(&self.sets)?;
        Ok(Row { sets })
    }

    /// The statuses of a lane; none of one that isn't there.
    pub(crate) fn at(&self, lane: u32) -> Statuses
        ensures { result ≡ set_at self.now lane }
    {
        match self.sets.get(lane as usize) {
            Some(set) => *set,
            None => Statuses { bits: 0 },
        }
    }

    /// The statuses of all lanes together.
    pub(crate) fn all(&self) -> Statuses
        ensures { (lane : ℕ) (s : _) → Has (set_at self.now lane) s → Has result s }
    {
        unite(&self.sets)
    }

    /// Whether all lanes have the same statuses as in another row.
    pub(crate) fn is_same(&self, other: &Row) -> bool
        ensures { IsTrue result → self.now ≡ other.now }
    {
        self.sets == other.sets
    }

    /// Puts statuses into a lane, where it is there.
    pub(crate) fn put(&mut self, lane: u32, set: Statuses)
        ensures { self.new ≡ slice_set self.old lane set }
    {
        let at = lane as usize;
        if at < self.sets.len() {
            self.sets[at] = set;
        }
    }

    /// Takes in the statuses of another row, lane by lane, and tells whether some set has grown.
    pub(crate) fn take_in(&mut self, other: &Row) -> bool
        requires { length self.old ≡ length other.now }
        ensures { IsTakenIn self.old other.now self.new result }
    {
        take_in(&mut self.sets, &other.sets)
    }
}
