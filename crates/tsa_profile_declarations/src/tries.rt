//! Tries among the attributes of a function, which all name the same result.
ghost use Rattle.std.specs.Prelude.{◌≡◌, []};
ghost use Rattle.tsa_tree.specs.types.Runnable.{is_generic as spec_is_generic};
ghost use Rattle.tsa_profile_declarations.specs.Declarations.{is_int as spec_is_int, value_of as spec_value_of};
ghost use Rattle.tsa_profile_declarations.specs.Tries.{misfits_beside, some_other, tries_among, with_attribute};
ghost use Rattle.tsa_tree.specs.attributes.Syntax.{attr_shape};
ghost use Rattle.tsa_profile_accesses.specs.Locks.{is_try as spec_is_try};

use tsa_tree::attr::{Attr, AttrKind};
use tsa_tree::kind::Kind;

/// Whether some tries take their locks where the result is true, and some where it is false.
#[derive(Clone, Copy)]
pub struct Tries {
    some_succeed: bool,
    some_fail: bool,
}

/// Whether an attribute is that of a try.
fn is_try(kind: AttrKind) -> bool
    ensures { result ≡ spec_is_try kind }
{
    matches!(kind, AttrKind::TryAcquire | AttrKind::TryAcquireShared)
}

/// Whether an attribute gives back a lock in whatever mode.
fn is_generic(kind: AttrKind) -> bool
    ensures { result ≡ spec_is_generic kind }
{
    matches!(kind, AttrKind::ReleaseGeneric)
}

/// Whether a kind is `int`.
fn is_int(kind: Kind) -> bool
    ensures { result ≡ spec_is_int kind }
{
    matches!(kind, Kind::Int)
}

/// The result that an attribute names for a try.
fn value_of(attr: &Attr<'_>) -> bool
    ensures { result ≡ spec_value_of (attr_shape attr.now) }
{
    match attr.success {
        Some(value) => value,
        None => false,
    }
}

impl Tries {
    /// None.
    pub fn none() -> Tries
        ensures { result ≡ tries_among [] }
    {
        Tries {
            some_succeed: false,
            some_fail: false,
        }
    }

    /// The same with a further attribute.
    pub fn with(self, attr: &Attr<'_>) -> Tries
        ensures { result ≡ with_attribute self (attr_shape attr.now) }
    {
        let tries = is_try(attr.kind);
        let value = value_of(attr);
        Tries {
            some_succeed: self.some_succeed || (tries && value),
            some_fail: self.some_fail || (tries && !value),
        }
    }

    /// Whether some name another result.
    fn some_other(self, value: bool) -> bool
        ensures { result ≡ some_other self value }
    {
        if value {
            self.some_fail
        } else {
            self.some_succeed
        }
    }

    /// Whether an attribute beside them doesn't fit the body of a function that gives values of a kind.
    pub fn misfits(self, gives: Kind, attr: &Attr<'_>) -> bool
        ensures { result ≡ misfits_beside gives self (attr_shape attr.now) }
    {
        is_generic(attr.kind)
            || (is_try(attr.kind) && (!is_int(gives) || self.some_other(value_of(attr))))
    }
}
