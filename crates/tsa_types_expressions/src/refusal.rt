//! Why a unit isn't typed.
ghost use Rattle.std.specs.Prelude.{◌≡◌};
ghost use Rattle.tsa_types_expressions.specs.Judgements.{judgement};

use tsa_base::{NoMemory, Span};
use tsa_tree::premise::{Failure, TypeCode};

/// Why a unit isn't typed: the first premise that fails, or memory is wanted.
#[derive(Clone, Copy, Debug, PartialEq, Eq)]
pub enum TypeRefusal {
    At { code: TypeCode, span: Span },
    NoMemory,
}

impl From<NoMemory> for TypeRefusal {
    ghost use Rattle.tsa_types_expressions.specs.declared.refusal.TypeRefusal.TheVariants.{NoMemory};
    ghost use Rattle.std.specs.Prelude.{◌≡◌};

    ghost from_gives = { λ _ e. e ≡ NoMemory };

    fn from(_: NoMemory) -> TypeRefusal {
        TypeRefusal::NoMemory
    }
}

/// The answer where this fails, or nothing does.
pub fn judged(failure: Option<Failure>) -> Result<(), TypeRefusal>
    ensures { result ≡ judgement failure }
{
    match failure {
        Some(failure) => Err(refused(failure)),
        None => Ok(()),
    }
}

/// The refusal of a unit by a premise.
pub fn refused(failure: Failure) -> TypeRefusal
    ensures { result ≡ TypeRefusal.At failure.code failure.span }
{
    TypeRefusal::At {
        code: failure.code,
        span: failure.span,
    }
}
