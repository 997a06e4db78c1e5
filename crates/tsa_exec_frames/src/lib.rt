//! A frame in code and its turns: what the machine does with a frame of the program, on numbered slots and without memory.
#![tactic(auto)]

mod answers;
mod deed;
mod frame;
mod halts;
mod instrs;
mod laws;
mod turns;

pub use answers::{answer, choose};
pub use deed::Request;
pub use frame::{CodeFrame, Executable, Position};
pub use halts::{Halt, Halted, run};
pub use laws::frame_turns_are_as_written;
pub use turns::{FrameTurn, Touch, touches, turn};
