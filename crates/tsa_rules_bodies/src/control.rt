//! The control of a body that is entered, and of functions by their numbers.
ghost use Rattle.std.specs.Prelude.{◌≡◌, ◌+◌, Ok, slice_get, IfOk};
ghost use Rattle.tsa_rules_bodies.specs.Controls.{IsGraphIn};
ghost use Rattle.tsa_core.specs.Control.{body_edges, count_all};
ghost use Rattle.tsa_core.specs.Programs.{program_of};
ghost use Rattle.tsa_place_model.specs.Units.{placed_in};
ghost use Rattle.tsa_graph.specs.Graphs.{IsGraph};
ghost use Rattle.tsa_tree.specs.statements.Shapes.{stmt_shapes};
ghost use Rattle.tsa_tree.specs.units.Shapes.{item_shapes};

use crate::{Inside, Knowledge, site_in};
use std::alloc::Global;
use tsa_base::NoMemory;
use tsa_graph::{BodyPoints, Graph, graph_of_body};
use tsa_place::Places;
use tsa_types::Typed;

/// The control of a body that is entered, as a graph with longest blocks.
pub fn control_of<'a>(known: &Knowledge<'a>, inside: &Inside<'a>) -> Result<Graph, NoMemory>
    ensures { IfOk result (λ graph. IsGraph (count_all (stmt_shapes inside.now.body.now) + 1)
        (body_edges known.now.here (stmt_shapes inside.now.body.now)) graph) }
{
    let points = inside.head.points;
    let count = u32::try_from(points.len()).ok().ok_or(NoMemory)?;
    let body = BodyPoints {
        statements: inside.body,
        points: count,
    };
    graph_of_body(&known.scope, body)
}

/// The control of a function of a typed unit by its number, as a graph with longest blocks. None exactly where it has no body, or where
/// no function has that number. The places are those of the unit.
pub fn graph_of(
    alloc: Global,
    unit: &Typed<'_>,
    places: &Places,
    function: u32,
) -> Result<Option<Graph>, NoMemory>
    requires placed { placed_in (item_shapes unit.now.unit.now.items.now) ≡ Ok places.now }
    ensures { IfOk result (λ graph. IsGraphIn (slice_get (program_of (item_shapes unit.now.unit.now.items.now)).functions function) graph) }
{
    match site_in(alloc, unit, places, function)? {
        Some(site) => Ok(Some(control_of(&site.known, &site.inside)?)),
        None => Ok(None),
    }
}
