//! What walks bring for paths in lanes.
ghost use Rattle.std.specs.Prelude.{◌≡◌, length};

use crate::Claims;
use tsa_flow_solver::Reached;

/// What walks bring for paths in lanes: the path of each lane, the lane of each path, the lanes that points claim, and what is reached.
pub struct PathFlows {
    pub(crate) caps: Vec<u32>,
    pub(crate) count: u32,
    pub(crate) numbers: Vec<u32>,
    pub(crate) claims: Claims,
    pub(crate) reached: Reached,
    pub ghost counted: { count ≡ length caps.items },
}

impl Drop for PathFlows {
    /// Lets its parts go, in one call for all who let one go.
    fn drop(self) {
        let PathFlows {
            caps: _,
            count: _,
            numbers: _,
            claims: _,
            reached: _,
        } = self;
    }
}
