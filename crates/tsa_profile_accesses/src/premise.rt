//! The premises of the profile by their codes.

use tsa_base::Span;

/// The premises of the profile, each at the first token of its node, and its limits, each at a function's name.
#[derive(Clone, Copy, Debug, PartialEq, Eq)]
pub enum ProfileCode {
    /// A call is no whole statement, right side, initialiser or value of a return, and stands in no condition form.
    PF1,
    /// A guard, an argument of an attribute, or a lock that a called function names has no path.
    PF2,
    /// The address of what lies in or is a global or a member with a guard.
    PF3,
    /// A local has the type of a struct or of an array.
    PF4,
    /// A call of a try function is neither a condition form nor the initialiser of a local `int` that never changes.
    PF5,
    /// A function without a body is neither a lock function nor one of the environment.
    PF6,
    /// An attribute doesn't fit the function's body.
    PF7,
    /// A try is compared with a constant other than 0 and 1.
    PF8,
    /// Two arguments of a function's attributes are the same path.
    PF9,
    /// A function has more than 256 paths.
    LM4,
    /// A function has more than 48 try variables.
    LM7,
}

/// A premise that fails, and where that is told.
#[derive(Clone, Copy, Debug, PartialEq, Eq)]
pub struct Failure {
    pub code: ProfileCode,
    pub span: Span,
}
