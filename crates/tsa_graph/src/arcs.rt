//! The edges of each point: whether one leaves it alone, and which lead to it.
ghost use Rattle.std.specs.Prelude.{◌≡◌, ◌<◌, length, map, slice_set, slice_index_or, IfOk, OnOk};
ghost use Rattle.tsa_graph.specs.Arcs.{more as spec_more, AreArcs};
ghost use Rattle.tsa_graph.specs.InnerEdges.{AreBetween};
ghost use Rattle.tsa_graph.specs.declared.arcs.Exit.TheVariants.{Nowhere};
ghost use Rattle.tsa_graph_edges.specs.Links.{edge_of};

use crate::entries::{Edge, Entries};
use std::alloc::Global;
use tsa_base::NoMemory;
use tsa_graph_edges::Link;

/// How a point is left: by no edge, by one alone, or by more.
#[derive(Clone, Copy)]
pub enum Exit {
    Nowhere,
    To(u32),
    Many,
}

/// How each point is left, and the edges into it.
pub struct Arcs {
    pub outs: Vec<Exit>,
    pub ins: Entries,
}

impl Drop for Arcs {
    /// Lets its parts go, in one call for all who let one go.
    fn drop(self) {
        let Arcs { outs: _, ins: _ } = self;
    }
}

/// One edge more leads from a point.
fn more(exit: Exit, to: u32) -> Exit
    ensures { result ≡ spec_more exit to }
{
    match exit {
        Exit::Nowhere => Exit::To(to),
        _ => Exit::Many,
    }
}

/// A further edge from a point.
fn note_exit(outs: &mut Vec<Exit>, from: u32, to: u32)
    requires { from < length outs.old.items }
    ensures { outs.new.items ≡ slice_set outs.old.items from (spec_more (slice_index_or outs.old.items from Nowhere) to) }
{
    let number = from as usize;
    outs[number] = more(outs[number], to);
}

/// The edges of so many points.
pub fn arcs_of(alloc: Global, links: &[Link], points: u32) -> Result<Arcs, NoMemory>
    requires { AreBetween points (map edge_of links.now) }
    ensures { IfOk result (λ arcs. AreArcs points (map edge_of links.now) arcs.outs.items arcs.ins) }
{
    let mut outs = vec![in alloc; Exit::Nowhere; points as usize]?;
    let mut ins = Entries::new(alloc, points)?;
    'each: for link in links {
        note_exit(&mut outs, link.from, link.to);
        let edge = Edge {
            from: link.from,
            outcome: link.outcome,
        };
        ins.note(link.to, edge)?;
    }
    Ok(Arcs { outs, ins })
}
