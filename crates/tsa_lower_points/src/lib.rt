//! Points of a unit's row as instructions over numbered slots: what is done there, and the call before it.
#![tactic(auto)]

mod actions;
mod callee;
mod calls;
mod heights;
mod laws;
mod point;
mod put;

pub use callee::{Callee, LockDeed};
pub use laws::{
    calls_have_their_code, points_are_those_read, points_have_code_as_written,
    points_have_their_code,
};
pub use point::PointNode;
pub use put::PutPoint;
