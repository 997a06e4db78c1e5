//! Choosers: objects that pick a thread, and the answer of the environment, for each turn.
ghost use Rattle.std.specs.Prelude.{◌≡◌, ◌<◌, ℕ, List, length};
ghost use Rattle.tsa_sched.specs.declared.pick.Pick.{Pick as Picked};

use crate::pick::Pick;

/// A chooser has a state, a list of numbers. What it chooses of the threads that are able to take a turn, and its state then, are functions
/// of the state and of these threads, which belong to the object: no call changes them.
pub trait Chooser: Drop {
    /// The state.
    ghost state: { Self → List ℕ };

    /// What is chosen in a state of the threads that are able.
    ghost choice: { Self → List ℕ → List ℕ → Picked };

    /// The state then.
    ghost after: { Self → List ℕ → List ℕ → List ℕ };

    /// Picks one of the threads that are able, of which there has to be one.
    fn pick(&mut self, able: &[u32]) -> Pick
        requires { 0 < length able.now }
        ensures choice { result ≡ choice self.old (state self.old) able.now }
        ensures after { state self.new ≡ after self.old (state self.old) able.now }
        ensures chooses { (s threads : List ℕ) → choice self.new s threads ≡ choice self.old s threads }
        ensures goes_on { (s threads : List ℕ) → after self.new s threads ≡ after self.old s threads };
}
