//! All rules that fail in a function.
ghost use Rattle.std.specs.Prelude.{List, IfOk};
ghost use Rattle.tsa_core.specs.Programs.{Function, Program};
ghost use Rattle.tsa_warn_function.specs.Failures.{AreFailures};
ghost use Rattle.tsa_flow_function.specs.Flows.{IsFlowOf};
ghost use Rattle.tsa_place_model.specs.Ways.{Way};

use crate::failure::RuleFailure;
use crate::marks::note_marks;
use crate::points::note_points;
use std::alloc::Global;
use tsa_base::NoMemory;
use tsa_flow_function::FunctionFlow;

/// All rules that fail in a function, each point, rule and path once, in no order.
pub fn failures_of(alloc: Global, flow: &FunctionFlow<'_>) -> Result<Vec<RuleFailure>, NoMemory>
    ensures { IfOk result (λ found. (u : Program) (f : Function) (paths : List Way) → IsFlowOf u f paths flow.now
        → AreFailures u f paths found.items) }
{
    let mut found = Vec::new(alloc);
    note_marks(&mut found, flow)?;
    note_points(&mut found, flow)?;
    Ok(found)
}
