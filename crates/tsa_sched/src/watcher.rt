//! Watchers: objects that see each event of a run, and report at its end.
ghost use Rattle.std.specs.Prelude.{◌≡◌, ℕ, List, IfOk};
ghost use Rattle.tsa_sched.specs.declared.event.Event.{Event as Seen};

use crate::event::Event;
use std::alloc::Global;
use tsa_base::NoMemory;

/// A watcher has a state, a list of numbers. What an event makes of it, and the text of its report, are functions of the state which belong
/// to the object: no call changes them.
pub trait Watcher: Drop {
    /// The state.
    ghost state: { Self → List ℕ };

    /// The state behind an event.
    ghost next: { Self → List ℕ → Seen → List ℕ };

    /// The text that is reported in a state.
    ghost text: { Self → List ℕ → List ℕ };

    /// Sees an event. No memory is taken.
    fn see(&mut self, event: &Event)
        ensures next { state self.new ≡ next self.old (state self.old) event.now }
        ensures sees { (s : List ℕ) (e : Seen) → next self.new s e ≡ next self.old s e }
        ensures reports { (s : List ℕ) → text self.new s ≡ text self.old s };

    /// The report on what was seen so far.
    fn report(&self, alloc: Global) -> Result<Vec<u8>, NoMemory>
        ensures { IfOk result (λ report. report.items ≡ text self.now (state self.now)) };
}
