//! What is worked out of a function.
ghost use Rattle.tsa_flow_function.specs.Lanes.{AreClaimed};

use crate::paths::PathFlows;
use tsa_graph::Blocks;
use tsa_rules_view::RuleView;

/// A function's view, with the blocks of its body and what walks bring to its points, path by path.
pub struct FunctionFlow<'a> {
    pub(crate) view: RuleView<'a>,
    pub(crate) blocks: Blocks,
    pub(crate) paths: PathFlows,
    pub ghost claimed: { AreClaimed view paths.caps.items paths.claims },
}

impl Drop for FunctionFlow<'_> {
    /// Lets its parts go, in one call for all who let one go.
    fn drop(self) {
        let FunctionFlow {
            view: _,
            blocks: _,
            paths: _,
        } = self;
    }
}
