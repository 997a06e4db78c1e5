//! What fails where points say something of paths.
ghost use Rattle.std.specs.Prelude.{[], ◌∷◌, List, map, OnOk};
ghost use Rattle.tsa_core.specs.Programs.{Function, Program};
ghost use Rattle.tsa_warn_function.specs.Adding.{Adds};
ghost use Rattle.tsa_warn_function.specs.Passes.{IsOfMarks};
ghost use Rattle.tsa_flow_function.specs.Flows.{IsFlowOf};
ghost use Rattle.tsa_place_model.specs.Ways.{Way};

use crate::failure::RuleFailure;
use crate::spot::spot_of;
use tsa_base::NoMemory;
use tsa_flow_function::FunctionFlow;
use tsa_rules_table::Entry;

/// Notes what fails of the rules that are asked of marks at the point of a mark and for its path, where they are of the function.
fn note_mark(
    found: &mut Vec<RuleFailure>,
    flow: &FunctionFlow<'_>,
    entry: Entry,
) -> Result<(), NoMemory>
    ensures { OnOk result ((u : Program) (f : Function) (paths : List Way) → IsFlowOf u f paths flow.now
        → Adds (IsOfMarks u f paths ((entry.row, entry.number) ∷ [])) found.old.items found.new.items) }
{
    if entry.row < flow.view().marks().rows() && entry.number < flow.view().caps() {
        spot_of(flow, entry.row, entry.number).note_rules(found)
    } else {
        Ok(())
    }
}

/// Notes what fails of those rules where a point says something of a path.
pub fn note_marks(found: &mut Vec<RuleFailure>, flow: &FunctionFlow<'_>) -> Result<(), NoMemory>
    ensures { OnOk result ((u : Program) (f : Function) (paths : List Way) → IsFlowOf u f paths flow.now
        → Adds (IsOfMarks u f paths (map (λ e. e.0) flow.now.view.notes.marks.marks)) found.old.items found.new.items) }
{
    let marks = flow.view().marks();
    'each: for at in 0..marks.len() {
        if let Some(entry) = marks.entry(at) {
            note_mark(found, flow, entry)?;
        }
    }
    Ok(())
}
