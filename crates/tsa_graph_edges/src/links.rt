//! The edges of a body.
ghost use Rattle.std.specs.Prelude.{◌≡◌, ℕ, List, [], map, reverse, IfOk};
ghost use Rattle.tsa_core.specs.Control.{body_edges};
ghost use Rattle.tsa_graph_edges.specs.Successors.{whole_body};
ghost use Rattle.tsa_graph_edges.specs.Links.{edge_of};
ghost use Rattle.tsa_graph_edges.specs.Marks.{label_of};
ghost use Rattle.tsa_tree.specs.statements.Shapes.{stmt_shapes};
ghost use Rattle.tsa_tree.specs.types.Scopes.{found};

use crate::link::Link;
use crate::points::BodyPoints;
use crate::successors::{Ahead, Label};
use crate::walk::Spot;
use std::alloc::Global;
use tsa_base::NoMemory;
use tsa_types_scope::{Names, Scope};

/// The labels that are known, of two that have one name the first.
fn known_labels<'a>(alloc: Global, labels: Vec<Label<'a>>) -> Result<Names<'a, u32>, NoMemory>
    ensures { IfOk result (λ names. (name : List ℕ) → found names name ≡ found (reverse (map label_of labels.entry.items)) name) }
{
    let mut names = Names::new(alloc);
    let mut left = labels;
    'each: while let Some(label) = left.pop() {
        names.declare(label.name, label.first)?;
    }
    Ok(names)
}

/// What a walk through a body comes by, where these labels are known.
fn walked<'a>(
    scope: &Scope<'a>,
    labels: &Names<'a, u32>,
    body: BodyPoints<'_, 'a>,
) -> Result<Ahead<'a>, NoMemory>
    ensures { IfOk result (λ a. a ≡ whole_body scope.now labels.now (stmt_shapes body.entry.statements.now)) }
{
    let mut ahead = Ahead::new(scope.allocator());
    let end = body.points - 1;
    let spot = Spot {
        scope,
        labels,
        end,
        follow: end,
        break_to: end,
        continue_to: end,
    };
    spot.put_all(&mut ahead, body.statements)?;
    Ok(ahead)
}

/// The edges of a body in order of the text. A first walk finds the labels and, where there are none,
/// the edges too; where there are some, a second one, for which they are known, finds the edges.
pub fn body_links<'a>(scope: &Scope<'a>, body: BodyPoints<'_, 'a>) -> Result<Vec<Link>, NoMemory>
    ensures { IfOk result (λ links. map edge_of links.items ≡ body_edges scope.now (stmt_shapes body.entry.statements.now)) }
{
    let alloc = scope.allocator();
    let none = Names::new(alloc);
    let found = walked(scope, &none, body)?;
    if found.has_no_labels() {
        return Ok(found.into_links());
    }
    let labels = known_labels(alloc, found.into_labels())?;
    let ahead = walked(scope, &labels, body)?;
    Ok(ahead.into_links())
}
