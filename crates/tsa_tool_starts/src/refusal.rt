//! Why threads don't begin.
use tsa_base::NoMemory;

/// Why the threads of a run don't begin: a word by its number says no start, or memory is wanted.
#[derive(Clone, Copy, Debug, PartialEq, Eq)]
pub enum StartRefusal {
    Word { number: usize },
    NoMemory,
}

impl From<NoMemory> for StartRefusal {
    ghost use Rattle.std.specs.Prelude.{◌≡◌};
    ghost use Rattle.tsa_tool_starts.specs.declared.refusal.StartRefusal.TheVariants.{NoMemory};

    ghost from_gives = { λ _ e. e ≡ NoMemory };

    /// Want of memory stays what it is.
    fn from(_: NoMemory) -> StartRefusal {
        StartRefusal::NoMemory
    }
}
