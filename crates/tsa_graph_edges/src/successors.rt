//! What a walk through a body from its end on has come by: edges, the cases of the switch that it is in, and labels.
ghost use Rattle.std.specs.Prelude.{◌≡◌, ◌↔◌, ◌∷◌, ◌++◌, [], map, reverse, IsTrue, OnOk, IfOk};
ghost use Rattle.tsa_core.specs.Control.{case_edge, case_edges, rest_edges, has_default as spec_has_default, switch_edges};
ghost use Rattle.tsa_graph_edges.specs.Successors.{ahead, with_edges, with_cases, with_labels, set_edges, set_cases};
ghost use Rattle.tsa_graph_edges.specs.Links.{edge_of};
ghost use Rattle.tsa_graph_edges.specs.Marks.{case_of, label_of};

use crate::link::{Link, Outcome};
use std::alloc::Global;
use std::marker::Model;
use tsa_base::NoMemory;

/// A case of a switch: its value, none for `default`, and the first point of its statement.
#[derive(Clone, Copy)]
pub struct Case {
    value: Option<i32>,
    first: u32,
}

/// A label, and the first point of its statement.
#[derive(Clone, Copy)]
pub struct Label<'a> {
    pub name: &'a [u8],
    pub first: u32,
}

/// What was come by so far, each kind with the last one in the text first. Contracts see it in order of the text.
#[derive(Drop)]
pub struct Ahead<'a> {
    alloc: Global,
    links: Vec<Link>,
    cases: Vec<Case>,
    labels: Vec<Label<'a>>,
}

impl<'a> Model for Ahead<'a> {
    ghost use Rattle.std.specs.Prelude.{map, reverse};
    ghost use Rattle.tsa_graph_edges.specs.Successors.{Ahead};
    ghost use Rattle.tsa_graph_edges.specs.Links.{edge_of};
    ghost use Rattle.tsa_graph_edges.specs.Marks.{case_of, label_of};

    ghost Value = { Ahead };

    ghost view = { λ a. record { edges = reverse (map edge_of a.links.items); cases = reverse (map case_of a.cases.items); labels = reverse (map label_of a.labels.items) } };
}

/// Puts an edge in front of others, which stand from the last one on.
#[tactic(auto, using(crate::proofs::LastFirst::links))]
fn put_link(links: &mut Vec<Link>, link: Link) -> Result<(), NoMemory>
    ensures { OnOk result (reverse (map edge_of links.new.items) ≡ edge_of link ∷ reverse (map edge_of links.old.items)) }
{
    links.push(link)?;
    Ok(())
}

/// The edge of a switch at a point to one of its cases.
fn case_link(from: u32, case: Case) -> Link
    ensures { edge_of result ≡ case_edge from (case_of case) }
{
    let outcome = match case.value {
        Some(value) => Outcome::Chosen(value),
        None => Outcome::Rest,
    };
    Link {
        from,
        outcome,
        to: case.first,
    }
}

/// Puts the edges of a switch to its cases in front of others.
fn put_case_links(links: &mut Vec<Link>, from: u32, cases: &[Case]) -> Result<(), NoMemory>
    ensures { OnOk result (reverse (map edge_of links.new.items) ≡ case_edges from (reverse (map case_of cases.now))
        ++ reverse (map edge_of links.old.items)) }
{
    'each: for case in cases {
        put_link(links, case_link(from, *case))?;
    }
    Ok(())
}

/// Whether one of the cases is a `default`.
fn has_default(cases: &[Case]) -> bool
    ensures { result ≡ spec_has_default (reverse (map case_of cases.now)) }
{
    cases.iter().any(|case| case.value.is_none())
}

/// Puts the edge of a switch without a `default` that goes on behind it in front of others.
fn put_rest(links: &mut Vec<Link>, cases: &[Case], from: u32, to: u32) -> Result<(), NoMemory>
    ensures { OnOk result (reverse (map edge_of links.new.items) ≡ rest_edges (spec_has_default (reverse (map case_of cases.now))) from to
        ++ reverse (map edge_of links.old.items)) }
{
    if has_default(cases) {
        return Ok(());
    }
    let outcome = Outcome::Rest;
    put_link(links, Link { from, outcome, to })
}

impl<'a> Ahead<'a> {
    /// Nothing yet. No memory is taken.
    pub fn new(alloc: Global) -> Ahead<'a>
        ensures { result ≡ ahead [] [] [] }
    {
        Ahead {
            alloc,
            links: Vec::new(alloc),
            cases: Vec::new(alloc),
            labels: Vec::new(alloc),
        }
    }

    /// Puts an edge in front.
    pub fn put(&mut self, from: u32, outcome: Outcome, to: u32) -> Result<(), NoMemory>
        ensures { OnOk result (self.new ≡ with_edges (edge_of (record { from = from; outcome = outcome; to = to }) ∷ []) self.old) }
    {
        put_link(&mut self.links, Link { from, outcome, to })
    }

    /// Puts a case in front.
    #[tactic(auto, using(crate::proofs::LastFirst::cases))]
    pub fn put_case(&mut self, value: Option<i32>, first: u32) -> Result<(), NoMemory>
        ensures { OnOk result (self.new ≡ with_cases ((value, first) ∷ []) self.old) }
    {
        self.cases.push(Case { value, first })?;
        Ok(())
    }

    /// Puts a label in front.
    #[tactic(auto, using(crate::proofs::LastFirst::labels))]
    pub fn put_label(&mut self, name: &'a [u8], first: u32) -> Result<(), NoMemory>
        ensures { OnOk result (self.new ≡ with_labels ((name.now, first) ∷ []) self.old) }
    {
        self.labels.push(Label { name, first })?;
        Ok(())
    }

    /// Puts the edges of a switch at a point, whose cases these are, in front.
    pub fn put_switch(&mut self, from: u32, follow: u32) -> Result<(), NoMemory>
        ensures { OnOk result (self.new ≡ with_edges (switch_edges self.old.cases from follow) self.old) }
    {
        put_rest(&mut self.links, &self.cases, from, follow)?;
        put_case_links(&mut self.links, from, &self.cases)
    }

    /// The cases change places with others.
    pub fn swap_cases(&mut self, cases: &mut Vec<Case>)
        ensures inside { self.new ≡ set_cases (reverse (map case_of cases.old.items)) self.old }
        ensures outside { reverse (map case_of cases.new.items) ≡ self.old.cases }
    {
        std::mem::swap(&mut self.cases, cases);
    }

    /// The edges change places with others.
    pub fn swap_links(&mut self, links: &mut Vec<Link>)
        ensures inside { self.new ≡ set_edges (reverse (map edge_of links.old.items)) self.old }
        ensures outside { reverse (map edge_of links.new.items) ≡ self.old.edges }
    {
        std::mem::swap(&mut self.links, links);
    }

    /// Puts edges in front, which stand from the last one on.
    pub fn put_all(&mut self, links: &[Link]) -> Result<(), NoMemory>
        ensures { OnOk result (self.new ≡ with_edges (reverse (map edge_of links.now)) self.old) }
    {
        self.links.extend_from_slice(links)?;
        Ok(())
    }

    /// The edges in order of the text.
    pub fn into_links(self) -> Vec<Link>
        ensures { map edge_of result.items ≡ self.entry.edges }
    {
        let mut links = self.links;
        links.reverse();
        links
    }

    /// Whether there are no labels.
    pub fn has_no_labels(&self) -> bool
        ensures { IsTrue result ↔ (self.now.labels ≡ []) }
    {
        self.labels.is_empty()
    }

    /// The labels, from the last one on.
    pub fn into_labels(self) -> Vec<Label<'a>>
        ensures { reverse (map label_of result.items) ≡ self.entry.labels }
    {
        self.labels
    }
}
