//! Why nothing was read.
ghost use Rattle.std.specs.Prelude.{◌≡◌};

use std::alloc::{AllocError, AllocFailed};
use thiserror::Error;
use tsa_base::Span;

/// Each code stands at the token or the function that is refused.
#[derive(Clone, Copy, Debug, PartialEq, Eq)]
pub enum SyntaxCode {
    /// No spelling goes on with the token.
    SY1,
    /// The attribute is one of those that are left out.
    AT1,
    /// The attribute has no argument.
    AT2,
    /// Too many constructs are open, or the operand before an operator is too high.
    LM2,
    /// The function has too many points.
    LM3,
    /// There are too many functions.
    LM5,
}

/// Why nothing was read: a token or a function with a code, or want of memory.
#[derive(Clone, Copy, Debug, PartialEq, Eq, Error)]
pub enum SyntaxRefusal {
    #[error("a refused token")]
    At { code: SyntaxCode, token: u32 },
    #[error("a refused function")]
    Function { code: SyntaxCode, span: Span },
    #[error("no memory")]
    NoMemory,
}

/// A token is refused.
pub fn refuse(code: SyntaxCode, token: u32) -> SyntaxRefusal
    ensures { result ≡ SyntaxRefusal.At code token }
{
    SyntaxRefusal::At { code, token }
}

impl From<AllocError> for SyntaxRefusal {
    ghost use Rattle.tsa_expr.specs.declared.refusal.SyntaxRefusal.TheVariants.{NoMemory};
    ghost use Rattle.std.specs.Prelude.{◌≡◌};

    ghost from_gives = { λ _ e. e ≡ NoMemory };

    fn from(_: AllocError) -> SyntaxRefusal {
        SyntaxRefusal::NoMemory
    }
}

impl<T: Drop> From<AllocFailed<T>> for SyntaxRefusal {
    ghost use Rattle.tsa_expr.specs.declared.refusal.SyntaxRefusal.TheVariants.{NoMemory};
    ghost use Rattle.std.specs.Prelude.{◌≡◌};

    ghost from_gives = { λ _ e. e ≡ NoMemory };

    fn from(_: AllocFailed<T>) -> SyntaxRefusal {
        SyntaxRefusal::NoMemory
    }
}
