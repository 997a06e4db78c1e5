//! Declarators that were read.
ghost use Rattle.std.specs.Prelude.{◌<◌};

use tsa_tree::expr::Name;

/// A pointer's star and a name, the token with which they begin, and the token after them.
#[derive(Clone, Copy)]
pub struct Declarator<'a> {
    pub name: Name<'a>,
    pub pointer: bool,
    pub pointer_const: bool,
    pub start: u32,
    pub next: u32,
    pub ghost begun: { start < next },
}
