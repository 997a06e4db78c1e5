//! The edges into each point.
ghost use Rattle.std.specs.Prelude.{◌≡◌, ◌<◌, ◌++◌, ◌∷◌, ℕ, [], length, slice_set, slice_index_or, replicate, IfOk, OnOk};

use std::alloc::Global;
use std::marker::Model;
use tsa_base::NoMemory;
use tsa_graph_edges::Outcome;

/// An edge into a point, by the point from which it leads.
#[derive(Clone, Copy, Debug, PartialEq, Eq)]
pub struct Edge {
    pub from: u32,
    pub outcome: Outcome,
}

/// Lists of edges into points, by the points' numbers. Contracts see the lists.
#[derive(Drop)]
pub struct Entries {
    lists: Vec<Vec<Edge>>,
}

impl Model for Entries {
    ghost use Rattle.std.specs.Prelude.{List, map};
    ghost use Rattle.tsa_graph.specs.declared.entries.Edge.{Edge};

    ghost Value = { List (List Edge) };

    ghost view = { λ a. map (λ list. list.items) a.lists.items };
}

/// An edge behind others.
fn put(list: &mut Vec<Edge>, edge: Edge) -> Result<(), NoMemory>
    ensures { OnOk result (list.new.items ≡ list.old.items ++ edge ∷ []) }
{
    list.push(edge)?;
    Ok(())
}

impl Entries {
    /// No edges into no points. No memory is taken.
    fn empty(alloc: Global) -> Entries
        ensures { result ≡ [] }
    {
        Entries {
            lists: Vec::new(alloc),
        }
    }

    /// One point more.
    fn add(&mut self, list: Vec<Edge>) -> Result<(), NoMemory>
        ensures { OnOk result (self.new ≡ self.old ++ list.items ∷ []) }
    {
        self.lists.push(list)?;
        Ok(())
    }

    /// No edges into so many points.
    pub fn new(alloc: Global, points: u32) -> Result<Entries, NoMemory>
        ensures len { IfOk result (λ entries. length entries ≡ points) }
        ensures none { IfOk result (λ entries. (q : ℕ) → slice_index_or entries q [] ≡ []) }
    {
        let mut entries = Entries::empty(alloc);
        'each: for _ in 0..points {
            entries.add(Vec::new(alloc))?;
        }
        Ok(entries)
    }

    /// A further edge into a point.
    pub fn note(&mut self, to: u32, edge: Edge) -> Result<(), NoMemory>
        requires { to < length self.old }
        ensures { OnOk result (self.new ≡ slice_set self.old to (slice_index_or self.old to [] ++ edge ∷ [])) }
    {
        put(&mut self.lists[to as usize], edge)?;
        Ok(())
    }

    /// The edges into a point.
    pub fn at(&self, point: u32) -> &[Edge]
        ensures { result.now ≡ slice_index_or self.now point [] }
    {
        match self.lists.get(point as usize) {
            Some(list) => list,
            None => &[],
        }
    }
}
