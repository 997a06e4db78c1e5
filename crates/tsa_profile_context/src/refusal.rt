//! Why a unit isn't in the profile.
ghost use Rattle.std.specs.Prelude.{◌≡◌};
ghost use Rattle.tsa_profile_context.specs.ItemJudgements.{is_limit as spec_is_limit, judgement, refusal};

use tsa_base::{NoMemory, Span};
use tsa_profile_accesses::{Failure, ProfileCode};

/// Why a unit isn't in the profile: a premise that fails at a node, a limit that a function passes, told at its name, or want of memory.
#[derive(Clone, Copy, Debug, PartialEq, Eq)]
pub enum ProfileRefusal {
    At { code: ProfileCode, span: Span },
    Function { code: ProfileCode, span: Span },
    NoMemory,
}

impl From<NoMemory> for ProfileRefusal {
    ghost use Rattle.tsa_profile_context.specs.declared.refusal.ProfileRefusal.TheVariants.{NoMemory};
    ghost use Rattle.std.specs.Prelude.{◌≡◌};

    ghost from_gives = { λ _ e. e ≡ NoMemory };

    fn from(_: NoMemory) -> ProfileRefusal {
        ProfileRefusal::NoMemory
    }
}

/// Whether a code is that of a limit of a function.
fn is_limit(code: ProfileCode) -> bool
    ensures { result ≡ spec_is_limit code }
{
    matches!(code, ProfileCode::LM4 | ProfileCode::LM7)
}

/// The refusal of a unit by a premise or a limit.
fn refused(failure: Failure) -> ProfileRefusal
    ensures { result ≡ refusal failure }
{
    let Failure { code, span } = failure;
    if is_limit(code) {
        ProfileRefusal::Function { code, span }
    } else {
        ProfileRefusal::At { code, span }
    }
}

/// The answer where this fails, or nothing does.
pub fn answer_of(failure: Option<Failure>) -> Result<(), ProfileRefusal>
    ensures { result ≡ judgement failure }
{
    match failure {
        Some(failure) => Err(refused(failure)),
        None => Ok(()),
    }
}
