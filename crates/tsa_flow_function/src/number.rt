//! What walks bring to the points of a function by its number.
ghost use Rattle.std.specs.Prelude.{◌≡◌, Ok, slice_get, IfOk};
ghost use Rattle.tsa_core.specs.Programs.{program_of};
ghost use Rattle.tsa_flow_function.specs.Numbers.{IsFlowIn};
ghost use Rattle.tsa_place_model.specs.Units.{placed_in};
ghost use Rattle.tsa_tree.specs.units.Shapes.{item_shapes};

use crate::function::FunctionFlow;
use std::alloc::Global;
use tsa_base::NoMemory;
use tsa_graph::blocks_of;
use tsa_place::Places;
use tsa_rules_view::{Fit, RuleView, graph_of};

/// What walks bring to the points of a function of a unit in the profile by its number. None exactly where it has no table of paths there,
/// as without a body. The places are those of the unit.
pub fn flow_of<'a>(
    alloc: Global,
    unit: &Fit<'a>,
    places: &Places,
    function: u32,
) -> Result<Option<FunctionFlow<'a>>, NoMemory>
    requires placed { placed_in (item_shapes unit.now.typed.unit.now.items.now) ≡ Ok places.now }
    ensures { IfOk result (λ flow. IsFlowIn (program_of (item_shapes unit.now.typed.unit.now.items.now))
        (slice_get (program_of (item_shapes unit.now.typed.unit.now.items.now)).functions function) flow) }
{
    let Some(view) = RuleView::new(alloc, unit, places, function)? else {
        return Ok(None);
    };
    let Some(graph) = graph_of(alloc, unit.typed(), places, function)? else {
        return Ok(None);
    };
    let points = view.marks().rows();
    let blocks = blocks_of(alloc, graph, points)?;
    Ok(Some(FunctionFlow::new(alloc, view, blocks)?))
}
