//! Attributes of thread safety, as Clang's manual names them.

use crate::expr::Expr;
use tsa_base::Span;

/// What an attribute says of its struct, its member, its global or its function.
#[derive(Clone, Copy, Debug, PartialEq, Eq)]
pub enum AttrKind {
    /// Values of the struct are locks.
    Capability,
    /// The lock that guards the member or the global.
    GuardedBy,
    /// The locks that a caller holds exclusively.
    Requires,
    /// The locks that a caller holds in some mode.
    RequiresShared,
    /// The locks that the function takes exclusively.
    Acquire,
    /// The locks that the function takes together with other readers.
    AcquireShared,
    /// The locks that the function gives back, held exclusively.
    Release,
    /// The locks that the function gives back, held shared.
    ReleaseShared,
    /// The locks that the function gives back, held in either mode.
    ReleaseGeneric,
    /// The locks that the function takes exclusively where its result says so.
    TryAcquire,
    /// The locks that the function takes shared where its result says so.
    TryAcquireShared,
    /// The locks that a caller doesn't hold.
    Excludes,
    /// The locks that are taken after the lock that the global is.
    AcquiredBefore,
    /// The locks that are taken before the lock that the global is.
    AcquiredAfter,
}

/// An attribute, from its name or macro word to its parenthesis: the text of a capability without its quotes, the result
/// for which a try has taken its locks, and the expressions that it names.
#[derive(Clone, Copy)]
pub struct Attr<'a> {
    pub kind: AttrKind,
    pub text: Option<&'a [u8]>,
    pub success: Option<bool>,
    pub args: &'a [Expr<'a>],
    pub span: Span,
}
