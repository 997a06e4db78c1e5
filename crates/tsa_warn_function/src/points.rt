//! What fails at points for any path: at returns, and where edges meet.
ghost use Rattle.std.specs.Prelude.{◌<◌, ◌≡◌, List, length, OnOk};
ghost use Rattle.tsa_core.specs.Programs.{Function, Program};
ghost use Rattle.tsa_warn_function.specs.Adding.{Adds};
ghost use Rattle.tsa_warn_function.specs.Passes.{IsOfEdges, IsOfPoint, IsOfPoints, IsOfReturns};
ghost use Rattle.tsa_flow_function.specs.Flows.{IsFlowOf};
ghost use Rattle.tsa_rules.specs.Cases.{is_leaving_in};
ghost use Rattle.tsa_rules.specs.Points.{points_of};
ghost use Rattle.tsa_place_model.specs.Ways.{Way};

use crate::edges::note_meeting;
use crate::failure::RuleFailure;
use crate::spot::spot_of;
use tsa_base::NoMemory;
use tsa_flow_function::FunctionFlow;
use tsa_rules::{Role, Rule};

/// Whether a point that does this is a return, or the end.
fn leaves(role: Role) -> bool
    ensures { result ≡ is_leaving_in role }
{
    matches!(role, Role::Leaves(_))
}

/// Notes the paths that a point leaves otherwise than the function declares.
fn note_leaving(
    found: &mut Vec<RuleFailure>,
    flow: &FunctionFlow<'_>,
    point: u32,
) -> Result<(), NoMemory>
    ensures { OnOk result ((u : Program) (f : Function) (paths : List Way) → IsFlowOf u f paths flow.now → point < length (points_of f)
        → Adds (IsOfReturns u f paths point) found.old.items found.new.items) }
{
    'each: for cap in 0..flow.view().caps() {
        spot_of(flow, point, cap).note(found, Rule::TS09)?;
    }
    Ok(())
}

/// Notes those where the point is a return or the end.
fn note_return(
    found: &mut Vec<RuleFailure>,
    flow: &FunctionFlow<'_>,
    point: u32,
) -> Result<(), NoMemory>
    ensures { OnOk result ((u : Program) (f : Function) (paths : List Way) → IsFlowOf u f paths flow.now → point < length (points_of f)
        → Adds (IsOfReturns u f paths point) found.old.items found.new.items) }
{
    if leaves(flow.view().role(point)) {
        note_leaving(found, flow, point)
    } else {
        Ok(())
    }
}

/// Notes the paths on which edges into a point disagree, where the point begins a block; into any other one they agree.
fn note_join(
    found: &mut Vec<RuleFailure>,
    flow: &FunctionFlow<'_>,
    point: u32,
) -> Result<(), NoMemory>
    ensures { OnOk result ((u : Program) (f : Function) (paths : List Way) → IsFlowOf u f paths flow.now → point < length (points_of f)
        → Adds (IsOfEdges u f paths point) found.old.items found.new.items) }
{
    if flow.begins_block(point) {
        note_meeting(found, flow, point)
    } else {
        Ok(())
    }
}

/// Notes what fails at a point for any path.
fn note_point(
    found: &mut Vec<RuleFailure>,
    flow: &FunctionFlow<'_>,
    point: u32,
) -> Result<(), NoMemory>
    ensures { OnOk result ((u : Program) (f : Function) (paths : List Way) → IsFlowOf u f paths flow.now → point < length (points_of f)
        → Adds (IsOfPoint u f paths point) found.old.items found.new.items) }
{
    note_return(found, flow, point)?;
    note_join(found, flow, point)
}

/// Notes what fails at all points for any path.
pub fn note_points(found: &mut Vec<RuleFailure>, flow: &FunctionFlow<'_>) -> Result<(), NoMemory>
    ensures { OnOk result ((u : Program) (f : Function) (paths : List Way) → IsFlowOf u f paths flow.now
        → Adds (IsOfPoints u f paths) found.old.items found.new.items) }
{
    'each: for point in 0..flow.view().marks().rows() {
        note_point(found, flow, point)?;
    }
    Ok(())
}
