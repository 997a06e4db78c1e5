//! What kinds of attributes say of calls.
ghost use Rattle.std.specs.Prelude.{◌≡◌};
ghost use Rattle.tsa_rules.specs.Attributes.{claims as spec_claims, is_try as spec_is_try};

use tsa_tree::attr::AttrKind;

/// Whether an attribute of a kind claims a lock: that is held before a call, after it, or both.
pub fn claims(kind: AttrKind) -> bool
    ensures { result ≡ spec_claims kind }
{
    matches!(
        kind,
        AttrKind::Requires
            | AttrKind::RequiresShared
            | AttrKind::Acquire
            | AttrKind::AcquireShared
            | AttrKind::Release
            | AttrKind::ReleaseShared
            | AttrKind::ReleaseGeneric
            | AttrKind::TryAcquire
            | AttrKind::TryAcquireShared
    )
}

/// Whether it takes its lock only where the result says so.
pub fn is_try(kind: AttrKind) -> bool
    ensures { result ≡ spec_is_try kind }
{
    matches!(kind, AttrKind::TryAcquire | AttrKind::TryAcquireShared)
}
