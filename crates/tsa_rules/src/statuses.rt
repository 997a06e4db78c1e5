//! Sets of statuses.
ghost use Rattle.std.specs.Prelude.{◌≡◌, ◌↔◌, ◌⊎◌, IsTrue};
ghost use Rattle.tsa_rules.specs.Sets.{Has, HasPlace, IsEmpty, TakesFirst};

use crate::status::Status;

/// A set of statuses, by the bits of their numbers.
#[derive(Clone, Copy, Debug, PartialEq, Eq)]
pub struct Statuses {
    pub bits: u64,
}

impl Statuses {
    /// No statuses.
    pub fn none() -> Statuses
        ensures { IsEmpty result }
    {
        Statuses { bits: 0 }
    }

    /// One status.
    pub fn only(status: Status) -> Statuses
        requires { HasPlace status }
        ensures { (t : _) → Has result t ↔ (t ≡ status) }
    {
        Statuses::none().with(status)
    }

    /// Whether a status is among them.
    pub fn has(&self, status: Status) -> bool
        requires { HasPlace status }
        ensures { IsTrue result ↔ Has self.now status }
    {
        self.bits >> status.number() & 1 == 1
    }

    /// Whether there are none.
    pub fn is_empty(self) -> bool
        ensures { IsTrue result ↔ IsEmpty self }
    {
        let bits = self.bits;
        bits == 0
    }

    /// One more status.
    pub fn with(self, status: Status) -> Statuses
        requires { HasPlace status }
        ensures { (t : _) → Has result t ↔ (Has self t ⊎ (t ≡ status)) }
    {
        Statuses {
            bits: self.bits | 1 << status.number(),
        }
    }

    /// Those of two sets.
    pub fn join(self, other: Statuses) -> Statuses
        ensures { (t : _) → Has result t ↔ (Has self t ⊎ Has other t) }
    {
        Statuses {
            bits: self.bits | other.bits,
        }
    }

    /// Takes out the status of the smallest number.
    pub fn take_first(&mut self) -> Option<Status>
        ensures { TakesFirst self.old result self.new }
    {
        let bits = self.bits;
        if bits == 0 {
            return None;
        }
        let number = bits.trailing_zeros();
        self.bits = bits & !(1 << number);
        Some(Status::of_number(number))
    }
}
