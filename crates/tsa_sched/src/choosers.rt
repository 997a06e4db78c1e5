//! The choosers of the program.
ghost use Rattle.std.specs.Prelude.{◌≡◌, [], ◌∷◌};
ghost use Rattle.tsa_sched.specs.Choosers.{robin_choice, robin_after, steady_choice, steady_after, scatter_choice, scatter_after};

use crate::chooser::Chooser;
use crate::pick::Pick;

/// Picks the threads that are able one after the other, by the number of turns so far, modulo 2^32.
#[derive(Drop)]
pub struct RoundRobin {
    turns: u32,
}

impl RoundRobin {
    /// In front of the first turn.
    pub fn new() -> RoundRobin
        ensures { result.turns ≡ 0 }
    {
        RoundRobin { turns: 0 }
    }
}

impl Chooser for RoundRobin {
    ghost state = { λ c. c.turns ∷ [] };

    ghost choice = { λ _ s able. robin_choice s able };

    ghost after = { λ _ s able. robin_after s able };

    /// Picks the threads in turn.
    fn pick(&mut self, able: &[u32]) -> Pick {
        let place = self.turns as usize % able.len();
        self.turns = self.turns.wrapping_add(1);
        Pick {
            thread: able[place],
            answer: 0,
        }
    }
}

/// Picks the first thread that is able, always.
#[derive(Drop)]
pub struct Steady {}

impl Steady {
    /// There is one such chooser.
    pub fn new() -> Steady {
        Steady {}
    }
}

impl Chooser for Steady {
    ghost state = { λ _. [] };

    ghost choice = { λ _ s able. steady_choice s able };

    ghost after = { λ _ s able. steady_after s able };

    /// Picks the first thread.
    fn pick(&mut self, able: &[u32]) -> Pick {
        Pick {
            thread: able[0],
            answer: 0,
        }
    }
}

/// Picks threads and answers by a linear congruence.
#[derive(Drop)]
pub struct Scatter {
    seed: u32,
}

impl Scatter {
    /// From a seed on.
    pub fn new(seed: u32) -> Scatter
        ensures { result.seed ≡ seed }
    {
        Scatter { seed }
    }
}

impl Chooser for Scatter {
    ghost state = { λ c. c.seed ∷ [] };

    ghost choice = { λ _ s able. scatter_choice s able };

    ghost after = { λ _ s able. scatter_after s able };

    /// Picks a thread by the next of its numbers.
    fn pick(&mut self, able: &[u32]) -> Pick {
        let next = (1_664_525 * u64::from(self.seed) + 1_013_904_223) % (1 << 32);
        self.seed = next as u32;
        Pick {
            thread: able[(next / 65_536) as usize % able.len()],
            answer: (next % 2) as i32,
        }
    }
}
