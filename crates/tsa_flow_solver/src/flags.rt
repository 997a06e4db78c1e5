//! Whether edges agree, lane by lane.
ghost use Rattle.std.specs.Prelude.{◌≡◌, ◌<◌, ℕ, true, false, length, slice_set, IfOk, IsFalse, IsTrue};
ghost use Rattle.std.specs.List.{list_all};
ghost use Rattle.tsa_flow_solver.specs.Agreeing.{AreLanesCompared, IsAlike, IsApart};
ghost use Rattle.tsa_flow_solver.specs.Rows.{flag_at};

use crate::row::Row;
use std::alloc::Global;
use std::marker::Model;
use tsa_base::NoMemory;
use tsa_rules::Statuses;

/// A flag for each lane, which says that no edges disagree there so far. Contracts see the list.
pub struct Flags {
    bits: Vec<bool>,
}

impl Drop for Flags {
    /// Lets its parts go, in one call for all who let one go.
    fn drop(self) {
        let Flags { bits: _ } = self;
    }
}

impl Model for Flags {
    ghost use Rattle.std.specs.Prelude.{Bool, List};

    ghost Value = { List Bool };

    ghost view = { λ flags. flags.bits.items };
}

/// Whether an edge brings some statuses, and not all that are brought where it leads.
fn differs(set: Statuses, brought: Statuses) -> bool
    ensures yes { IsTrue result → IsApart set brought }
    ensures no { IsFalse result → IsAlike set brought }
{
    !set.is_empty() && set.bits != brought.bits
}

/// Whether all of some flags are there.
fn all_hold(bits: &[bool]) -> bool
    ensures { result ≡ list_all (λ bit. bit) bits.now }
{
    bits.iter().all(|bit| *bit)
}

impl Flags {
    /// A flag for each of so many lanes.
    pub(crate) fn all(alloc: Global, count: u32) -> Result<Flags, NoMemory>
        ensures long { IfOk result (λ flags. length flags ≡ count) }
        ensures all { IfOk result (λ flags. (lane : ℕ) → flag_at flags lane ≡ true) }
    {
        let bits = vec![in alloc; true; count as usize]?;
        Ok(Flags { bits })
    }

    /// The flag of a lane; one that isn't there has it.
    pub(crate) fn at(&self, lane: u32) -> bool
        ensures { result ≡ flag_at self.now lane }
    {
        match self.bits.get(lane as usize) {
            Some(bit) => *bit,
            None => true,
        }
    }

    /// Whether all lanes have their flag.
    pub(crate) fn hold(&self) -> bool
        ensures { IsTrue result → (lane : ℕ) → flag_at self.now lane ≡ true }
    {
        all_hold(&self.bits)
    }

    /// Takes the flag from a lane, where it is there.
    fn lose(&mut self, lane: u32)
        ensures { self.new ≡ slice_set self.old lane false }
    {
        let at = lane as usize;
        if at < self.bits.len() {
            self.bits[at] = false;
        }
    }

    /// Compares the statuses that an edge brings with all that are brought where it leads, in so many lanes.
    pub(crate) fn compare(&mut self, count: u32, set: &Row, brought: &Row)
        requires { length self.old ≡ count }
        ensures { AreLanesCompared count set.now brought.now self.old self.new }
    {
        if set.is_same(brought) {
            return;
        }
        'lanes: for lane in 0..count {
            let mine = set.at(lane);
            let all = brought.at(lane);
            if differs(mine, all) {
                self.lose(lane);
            }
        }
    }
}
