//! The parts of a row, found by their nodes.
ghost use Rattle.std.specs.Prelude.{◌≡◌, ◌+◌, ◌≤◌, [], length, slice_get, IfSome, IfNone};
ghost use Rattle.tsa_core.specs.Meanings.{is_loaded, is_place as spec_is_place};
ghost use Rattle.tsa_core_rows.specs.Reading.{behind_parts};
ghost use Rattle.tsa_lower_terms.specs.Sources.{Stands, parts_at, sense_at};

use crate::head::{Head, head_of, is_cell, is_place, null_type, passed, taken, type_of};
use std::marker::Model;
use tsa_place::Places;
use tsa_tree::kind::ExpressionType;
use tsa_types_row::{Node, Row};
use tsa_types_scope::FunctionTypes;

/// What terms are lowered from: the row of a unit, its functions by their numbers and its places, and whether slot 0 has the answer of
/// the point's call.
#[derive(Drop)]
pub struct Source<'a> {
    pub row: &'a Row,
    pub functions: &'a [FunctionTypes],
    pub places: &'a Places,
    pub is_answered: bool,
}

impl<'a> Model for Source<'a> {
    ghost use Rattle.tsa_lower_terms.specs.Sources.{Source};

    ghost Value = { Source };

    ghost view = { λ s. record { row = s.row.now; functions = s.functions.now; layout = s.places.now; is_answered = s.is_answered } };
}

/// A node that gives a part: its number and the one behind it, the head of the part's term, and the part's type.
#[derive(Clone, Copy)]
pub struct Spot {
    pub at: usize,
    pub behind: usize,
    pub head: Head,
    pub thing: ExpressionType,
}

impl Source<'_> {
    /// How many nodes there are.
    fn count(&self) -> usize
        ensures { result ≡ length self.now.row }
    {
        self.row.len()
    }

    /// The node of a number.
    fn node(&self, at: usize) -> Option<Node>
        ensures { result ≡ slice_get self.now.row at }
    {
        self.row.get(at)
    }

    /// The part behind so many others from a node on.
    pub fn find(&self, at: usize, others: usize) -> Option<Spot>
        ensures there { IfSome result (λ spot. behind_parts others (parts_at self.now at) ≡ parts_at self.now spot.at) }
        ensures ahead { IfSome result (λ spot. at ≤ spot.at) }
        ensures stands { IfSome result (λ spot. Stands self.now spot) }
        ensures none { IfNone result (behind_parts others (parts_at self.now at) ≡ []) }
    {
        let count = self.count();
        let mut number = at;
        let mut left = others;
        'nodes: while number < count {
            let node = self.node(number)?;
            match head_of(node) {
                Some(head) => {
                    let Some(fewer) = left.checked_sub(1) else {
                        return Some(Spot {
                            at: number,
                            behind: number + 1,
                            head,
                            thing: type_of(node),
                        });
                    };
                    left = fewer.checked_add(taken(head))?;
                }
                None => left = left.checked_add(passed(node.op))?,
            }
            number += 1;
        }
        None
    }

    /// The number of the node behind so many parts.
    pub fn pass(&self, at: usize, others: usize) -> usize
        ensures there { parts_at self.now result ≡ behind_parts others (parts_at self.now at) }
        ensures ahead { at ≤ result }
    {
        match self.find(at, others) {
            Some(spot) => spot.at,
            None => at.max(self.count()),
        }
    }

    /// The type of a part; that of the null pointer where there is none.
    pub fn type_at(&self, at: usize) -> ExpressionType
        ensures { result ≡ (sense_at self.now at).type }
    {
        match self.find(at, 0) {
            Some(spot) => spot.thing,
            None => null_type(),
        }
    }
    /// Whether a part is a place.
    #[tactic(auto, using(crate::proofs::Places::found_is_place))]
    pub fn is_place_at(&self, at: usize) -> bool
        ensures { result ≡ spec_is_place (sense_at self.now at).term }
    {
        match self.find(at, 0) {
            Some(spot) => is_place(spot.head),
            None => false,
        }
    }

    /// Whether a part is a cell that is read for its value.
    pub fn is_read_at(&self, at: usize) -> bool
        ensures { result ≡ is_loaded (sense_at self.now at) }
    {
        self.is_place_at(at) && is_cell(self.type_at(at).thing)
    }
}
