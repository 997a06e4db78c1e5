//! The calls in the parts of a row.
ghost use Rattle.std.specs.Prelude.{◌≡◌, option_map};
ghost use Rattle.tsa_lower_terms.specs.Sources.{call_in_part, call_read};

use crate::find::Source;
use crate::head::Head;
use tsa_tree::expr::{BinaryOp, UnaryOp};

/// A call: its function, how many arguments it is given, and the node that they are looked for from.
#[derive(Clone, Copy)]
pub struct FoundCall {
    pub function: u32,
    pub args: usize,
    pub at: usize,
}

impl Source<'_> {
    /// The call in a part that a point makes: the whole of it, or in a condition behind `!` or beside `==` or `!=`.
    pub fn call_at(&self, at: usize) -> Option<FoundCall>
        ensures { option_map (call_read self.now) result ≡ call_in_part self.now at }
    {
        let spot = self.find(at, 0)?;
        let part = spot.behind;
        match spot.head {
            Head::Answer { function, args } => Some(FoundCall {
                function,
                args,
                at: part,
            }),
            Head::Prefixed(UnaryOp::Not) => self.call_at(part),
            Head::Joined(BinaryOp::Equal | BinaryOp::Unequal) => match self.call_at(part) {
                Some(call) => Some(call),
                None => self.call_at(self.pass(part, 1)),
            },
            _ => None,
        }
    }
}
