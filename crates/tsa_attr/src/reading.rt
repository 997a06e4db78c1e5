//! What of an attribute is read, and what was.
ghost use Rattle.std.specs.Prelude.{◌<◌};
ghost use Rattle.tsa_base.specs.declared.limits.TheConstants.{INPUT_LIMIT};

use tsa_tree::attr::{Attr, AttrKind};

/// The token at which an attribute's name or macro word stands, and its kind.
#[derive(Clone, Copy)]
pub struct AttributeName {
    pub at: u32,
    pub kind: AttrKind,
    pub ghost near: { at < INPUT_LIMIT },
}

/// An attribute that was read, and the token after it.
#[derive(Clone, Copy)]
pub struct Reading<'a> {
    pub attr: Attr<'a>,
    pub next: u32,
}
