//! What a function is to the rules for several paths at once.
ghost use Rattle.std.specs.Prelude.{◌≡◌, ◌<◌, ℕ, true, is_some, Contains};
ghost use Rattle.tsa_flow_solver.specs.Rows.{AreRising};
ghost use Rattle.tsa_rules.specs.Cases.{IsSmall};
ghost use Rattle.tsa_rules.specs.Sets.{HasPlace};
ghost use Rattle.tsa_rules.specs.declared.case.Case.{Case as PointCase};
ghost use Rattle.tsa_rules.specs.declared.status.Status.{Status as EntryStatus};

use tsa_rules::{Case, Role, Status};

/// What a function is to the rules for several paths, each in a lane of its own.
pub trait Lanes {
    /// How many lanes there are.
    ghost count: { Self → ℕ };

    /// How many points the body has.
    ghost points: { Self → ℕ };

    /// The status at the function's entry, by lanes.
    ghost enters: { Self → ℕ → EntryStatus };

    /// All that the rules go by at each point, by lanes.
    ghost cases: { Self → ℕ → ℕ → PointCase };

    /// How many lanes there are.
    fn count(&self) -> u32
        ensures { result ≡ count self.now };

    /// The status at the function's entry in a lane.
    fn entry(&self, lane: u32) -> Status
        ensures entry { result ≡ enters self.now lane }
        ensures place { HasPlace result };

    /// All that the rules go by at a point in a lane.
    fn case(&self, lane: u32, point: u32) -> Case
        ensures case { result ≡ cases self.now lane point }
        ensures small { IsSmall result.role };

    /// What the point does, which is the same in all lanes.
    fn role(&self, point: u32) -> Role
        ensures { (lane : ℕ) → result ≡ (cases self.now lane point).role };

    /// The lanes whose path something claims at a point, in order.
    fn claims(&self, point: u32) -> &[u32]
        ensures rising { AreRising result.now }
        ensures all { (lane : ℕ) → point < points self.now → lane < count self.now → is_some (cases self.now lane point).mark.claim ≡ true
            → Contains result.now lane };
}
