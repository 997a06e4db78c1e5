//! What lock functions do to a table of locks: the machine's turn with a lock.
#![tactic(auto)]

mod act;
mod laws;
mod taking;
mod turn;

pub use act::{LockAct, lock_act};
pub use laws::{lock_turns_are_as_written, room_lasts_for_turns};
pub use taking::LockPlace;
pub use turn::{LockTurn, lock_turn};
