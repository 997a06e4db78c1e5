//! The lists of a unit's bodies.
ghost use Rattle.std.specs.Prelude.{◌≡◌};
ghost use Rattle.tsa_core_program.specs.Programs.{between as spec_between, body_of};
ghost use Rattle.tsa_place_model.specs.LockPaths.{stable_in};

use crate::ranges::{BodyRange, Range};
use std::marker::Model;
use tsa_tree::kind::Kind;

/// What stands in a range of a list.
fn between<T>(list: &[T], range: Range) -> &[T]
    ensures { result.now ≡ spec_between list.now range }
{
    match list.get(range.from..) {
        Some(rest) => match rest.get(..range.to.saturating_sub(range.from)) {
            Some(part) => part,
            None => rest,
        },
        None => &[],
    }
}

/// The bodies of a unit in order of the text, and the lists that they have their ranges of. Contracts see the lists: 96 bytes.
#[derive(Drop)]
pub struct Lists {
    pub(crate) bodies: Vec<BodyRange>,
    pub(crate) kinds: Vec<Kind>,
    pub(crate) stable: Vec<bool>,
    pub(crate) points: Vec<usize>,
}

impl Model for Lists {
    ghost use Rattle.tsa_core_program.specs.Walks.{Lists};

    ghost Value = { Lists };

    ghost view = { λ l. record { bodies = l.bodies.items; kinds = l.kinds.items; stable = l.stable.items; points = l.points.items } };
}

impl Lists {
    /// The bodies, in order of the text.
    pub fn bodies(&self) -> &[BodyRange]
        ensures { result.now ≡ self.now.bodies }
    {
        &self.bodies
    }

    /// The body of a function.
    pub fn body(&self, function: u32) -> Option<BodyRange>
        ensures { result ≡ body_of function self.now.bodies }
    {
        'each: for body in &self.bodies {
            if body.function == function {
                return Some(*body);
            }
        }
        None
    }

    /// The kinds of the locals that a body declares, in order.
    pub fn kinds(&self, body: &BodyRange) -> &[Kind]
        ensures { result.now ≡ spec_between self.now.kinds body.now.kinds }
    {
        between(&self.kinds, body.kinds)
    }

    /// Whether a local of a body never changes; the parameters are the first ones.
    pub fn is_stable(&self, body: &BodyRange, local: u32) -> bool
        ensures { result ≡ stable_in (spec_between self.now.stable body.now.stable) local }
    {
        match between(&self.stable, body.stable).get(local as usize) {
            Some(stable) => *stable,
            None => false,
        }
    }

    /// The numbers of the nodes that are the points of a body, in order.
    pub fn points(&self, body: &BodyRange) -> &[usize]
        ensures { result.now ≡ spec_between self.now.points body.now.points }
    {
        between(&self.points, body.points)
    }
}
