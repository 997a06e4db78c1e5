//! Why held sets aren't written to their end.
ghost use Rattle.std.specs.Prelude.{◌≡◌};
ghost use Rattle.tsa_tool_held.specs.declared.refusal.WriteRefusal.TheVariants.{NoMemory};

use tsa_base::{NoMemory, PushTrouble};

/// Why lines aren't written to their end: the sink failed, or there was no memory.
#[derive(Clone, Copy, Debug, PartialEq, Eq)]
pub enum WriteRefusal {
    SinkFailed,
    NoMemory,
}

impl From<NoMemory> for WriteRefusal {
    ghost from_gives = { λ _ refusal. refusal ≡ NoMemory };

    fn from(_: NoMemory) -> Self {
        WriteRefusal::NoMemory
    }
}
