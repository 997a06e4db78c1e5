//! Actions on locks.
use tsa_sched::Mode;

/// A lock that a thread took, or gave back, in a mode; and the number of the thread's action before this one, or 0 where there is none.
#[derive(Clone, Copy, Debug, PartialEq, Eq)]
pub struct Action {
    pub lock: u32,
    pub mode: Mode,
    pub took: bool,
    pub before: u32,
}
