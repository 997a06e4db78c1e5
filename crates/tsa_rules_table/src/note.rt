//! What a point says of a path at a time.
ghost use Rattle.std.specs.Prelude.{◌≡◌};
ghost use Rattle.tsa_rules_table.specs.Saying.{with_note};

use tsa_rules::{Claim, Mark};

/// Where an access is made: on the left side of an assignment, or on the right side of one or elsewhere.
#[derive(Clone, Copy)]
pub enum Side {
    Left,
    Right,
}

/// An attribute of the called function names the path, the path guards an access, or it mentions the local that is declared.
#[derive(Clone, Copy)]
pub enum Note {
    Named(Claim),
    Guards { side: Side, is_write: bool },
    Mentions,
}

impl Note {
    /// A mark that says this too.
    pub fn on(self, mark: Mark) -> Mark
        ensures { result ≡ with_note self mark }
    {
        match self {
            Note::Named(claim) => mark.with_attribute(claim),
            Note::Guards {
                side: Side::Left,
                is_write,
            } => mark.with_left(is_write),
            Note::Guards {
                side: Side::Right,
                is_write,
            } => mark.with_right(is_write),
            Note::Mentions => mark.with_declaration(),
        }
    }
}
