//! Premises in code: whether one fails, and which of two comes first.
ghost use Rattle.std.specs.Prelude.{◌≡◌};
ghost use Rattle.tsa_profile_accesses.specs.Premises.{failure_of, or_else, premise};

use tsa_base::Span;
use tsa_profile_accesses::{Failure, ProfileCode};

/// What is told where a premise fails.
pub fn failure_if(fails: bool, code: ProfileCode, span: Span) -> Option<Failure>
    ensures { result ≡ failure_of (premise code span fails) }
{
    if fails {
        Some(Failure { code, span })
    } else {
        None
    }
}

/// The failure that comes first, where there is one.
pub fn earlier(failure: Option<Failure>, other: Option<Failure>) -> Option<Failure>
    ensures { result ≡ or_else failure other }
{
    match failure {
        Some(failure) => Some(failure),
        None => other,
    }
}
