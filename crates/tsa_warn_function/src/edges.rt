//! What fails where edges meet.
ghost use Rattle.std.specs.Prelude.{◌<◌, ◌≡◌, List, Some, length, slice_get, OnOk};
ghost use Rattle.tsa_core.specs.Programs.{Function, Program};
ghost use Rattle.tsa_warn_function.specs.Adding.{Adds};
ghost use Rattle.tsa_warn_function.specs.Passes.{IsOfEdges};
ghost use Rattle.tsa_flow_function.specs.Flows.{IsFlowOf};
ghost use Rattle.tsa_rules.specs.Points.{points_of};
ghost use Rattle.tsa_place_model.specs.Ways.{Way};

use crate::failure::{RuleFailure, put};
use tsa_base::NoMemory;
use tsa_flow_function::FunctionFlow;
use tsa_rules::Rule;

/// Notes that edges into a point disagree on a path, where they do.
fn note_edges(
    found: &mut Vec<RuleFailure>,
    flow: &FunctionFlow<'_>,
    point: u32,
    cap: u32,
) -> Result<(), NoMemory>
    ensures { OnOk result ((u : Program) (f : Function) (paths : List Way) (c : Way) → IsFlowOf u f paths flow.now
        → point < length (points_of f) → slice_get paths cap ≡ Some c
        → Adds (λ x. (x.cap ≡ cap) × IsOfEdges u f paths point x) found.old.items found.new.items) }
{
    if flow.agree(point, cap) {
        return Ok(());
    }
    let failure = RuleFailure {
        point,
        rule: Rule::TS10,
        cap,
    };
    put(found, failure)
}

/// Notes the paths on which edges into a point disagree, path by path.
fn note_paths(
    found: &mut Vec<RuleFailure>,
    flow: &FunctionFlow<'_>,
    point: u32,
) -> Result<(), NoMemory>
    ensures { OnOk result ((u : Program) (f : Function) (paths : List Way) → IsFlowOf u f paths flow.now → point < length (points_of f)
        → Adds (IsOfEdges u f paths point) found.old.items found.new.items) }
{
    'each: for cap in 0..flow.view().caps() {
        note_edges(found, flow, point, cap)?;
    }
    Ok(())
}

/// Notes the paths on which edges into a point disagree, if there are any.
pub fn note_meeting(
    found: &mut Vec<RuleFailure>,
    flow: &FunctionFlow<'_>,
    point: u32,
) -> Result<(), NoMemory>
    ensures { OnOk result ((u : Program) (f : Function) (paths : List Way) → IsFlowOf u f paths flow.now → point < length (points_of f)
        → Adds (IsOfEdges u f paths point) found.old.items found.new.items) }
{
    if flow.all_agree(point) {
        return Ok(());
    }
    note_paths(found, flow, point)
}
