//! Where calls stand (C11 6.5.2.2).
ghost use Rattle.std.specs.Prelude.{◌≡◌};
ghost use Rattle.tsa_profile_accesses.specs.Standing.{beside as spec_beside, may_call as spec_may_call, may_try as spec_may_try};
ghost use Rattle.tsa_profile_accesses.specs.Standing.{under_not as spec_under_not};

/// Where an expression stands, by which call it may be.
#[derive(Clone, Copy, Debug, PartialEq, Eq)]
pub enum Standing {
    /// A whole expression statement, right side, initialiser or value of a return.
    Whole,
    /// The initialiser of a local `int` that never changes.
    Begins,
    /// The whole test of an `if` or of a loop.
    Test,
    /// What `!` stands before there, or what stands there beside a constant and `==` or `!=`.
    Operand,
    /// All else.
    Inside,
}

impl Standing {
    /// Whether a call may stand there.
    pub fn may_call(self) -> bool
        ensures { result ≡ spec_may_call self }
    {
        !matches!(self, Standing::Inside)
    }

    /// Whether a call of a try function may stand there.
    pub fn may_try(self) -> bool
        ensures { result ≡ spec_may_try self }
    {
        matches!(self, Standing::Begins | Standing::Test | Standing::Operand)
    }

    /// Where the operand of `!` stands.
    pub fn under_not(self) -> Standing
        ensures { result ≡ spec_under_not self }
    {
        match self {
            Standing::Test => Standing::Operand,
            _ => Standing::Inside,
        }
    }

    /// Where the operand of `==` or `!=` stands beside what is a constant or isn't.
    pub fn beside(self, is_constant: bool) -> Standing
        ensures { result ≡ spec_beside self is_constant }
    {
        match self {
            Standing::Test if is_constant => Standing::Operand,
            _ => Standing::Inside,
        }
    }
}
