//! A point of a row.
use std::marker::Model;
use tsa_lower_terms::{Job, Source};
use tsa_tree::kind::Kind;
use tsa_types_row::Op;

/// A point's node: what it is lowered from, what the node is, the kind of what it declares, that of its function's result, and the number
/// behind the node.
#[derive(Drop)]
pub struct PointNode<'a> {
    pub source: Source<'a>,
    pub op: Op,
    pub kind: Kind,
    pub result: Kind,
    pub behind: usize,
}

impl<'a> Model for PointNode<'a> {
    ghost use Rattle.tsa_lower_points.specs.Actions.{PointNode};

    ghost Value = { PointNode };

    ghost view = { λ p. record { source = p.source; op = p.op; kind = p.kind; result = p.result; behind = p.behind } };
}

impl<'a> PointNode<'a> {
    ghost use Rattle.std.specs.Prelude.{◌≡◌};
    ghost use Rattle.tsa_lower_points.specs.Actions.{answering};

    /// The same where its call is answered, or isn't.
    pub(crate) fn answering(&self, is_answered: bool) -> PointNode<'a>
        ensures { result ≡ answering is_answered self.now }
    {
        PointNode {
            source: Source {
                row: self.source.row,
                functions: self.source.functions,
                places: self.source.places,
                is_answered,
            },
            op: self.op,
            kind: self.kind,
            result: self.result,
            behind: self.behind,
        }
    }

    /// Its first part, to be lowered into a slot.
    pub(crate) fn first(&self, slot: u32) -> Job
        ensures { result ≡ record { at = self.now.behind; slot = slot } }
    {
        Job {
            at: self.behind,
            slot,
        }
    }
}
