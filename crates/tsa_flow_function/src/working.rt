//! The lanes of a view are worked out.
ghost use Rattle.std.specs.Prelude.{◌≡◌, List, slice_get, IfOk};
ghost use Rattle.tsa_graph.specs.Rows.{AreBlocksOf};
ghost use Rattle.tsa_core.specs.Control.{Edge};
ghost use Rattle.tsa_flow_function.specs.Flows.{ArePathFlows};
ghost use Rattle.tsa_flow_function.specs.Lanes.{AreClaimed};
ghost use Rattle.tsa_rules_table.specs.Rows.{rows_in};

use crate::lanes::ViewLanes;
use crate::paths::PathFlows;
use crate::table::lane_table;
use crate::{claims_of, count_of, lanes_at};
use std::alloc::Global;
use tsa_base::NoMemory;
use tsa_flow_solver::reach;
use tsa_graph::Blocks;
use tsa_rules_view::RuleView;

/// What walks bring for each path of a view.
pub fn path_flows(
    alloc: Global,
    view: &RuleView<'_>,
    blocks: &Blocks,
) -> Result<PathFlows, NoMemory>
    ensures claimed { IfOk result (λ flows. AreClaimed view.now flows.caps.items flows.claims) }
    ensures flows { IfOk result (λ flows. (es : List Edge) → AreBlocksOf (rows_in view.now.notes.marks) es blocks.now
        → ArePathFlows es view.now blocks.now flows) }
{
    let by_path = claims_of(alloc, view.marks(), view.caps())?;
    let table = lane_table(alloc, view, &by_path)?;
    let count = count_of(&table.caps)?;
    let claims = lanes_at(alloc, view.marks().rows(), &by_path, &table.caps)?;
    let lanes = ViewLanes {
        view,
        caps: &table.caps,
        count,
        claims: &claims,
    };
    let reached = reach(alloc, blocks, &lanes)?;
    Ok(PathFlows {
        caps: table.caps,
        count,
        numbers: table.numbers,
        claims,
        reached,
    })
}

impl PathFlows {
    /// The lane of a path by its number.
    pub fn lane(&self, number: u32) -> Option<u32>
        ensures { result ≡ slice_get self.now.numbers.items number }
    {
        self.numbers.get(number as usize).copied()
    }
}
