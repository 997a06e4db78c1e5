//! The case of a path at a point: all that the rules go by there.
ghost use Rattle.std.specs.Prelude.{◌≡◌};
ghost use Rattle.tsa_rules.specs.Cases.{answer_told, is_variable, of_the_call};
ghost use Rattle.tsa_graph_edges.specs.Links.{outcome_of};

use crate::mark::{Claim, Mark};
use tsa_graph_edges::Outcome;

/// What a function says of a lock: whether its holder may take it again, and the first of the function's own attributes that claims it.
#[derive(Clone, Copy)]
pub struct Lock {
    pub is_reentrant: bool,
    pub claim: Option<Claim>,
}

/// What a test looks at: the answer of the call that is made at its point, or the local that is the try variable of a number. A local that
/// is no try variable has the number behind theirs.
#[derive(Clone, Copy)]
pub enum Asked {
    Call,
    Variable(u32),
}

/// A test that tells an answer: what it looks at, and the answer that is meant where it holds; where it doesn't, the other one is.
#[derive(Clone, Copy)]
pub struct Test {
    pub asked: Asked,
    pub yes_means: bool,
}

/// What a point does for the rules.
#[derive(Clone, Copy)]
pub enum Role {
    /// It begins the try variable of a number.
    Declares(u32),
    /// It tests what a call or a local gives.
    Tests(Test),
    /// It returns, or is the end, with an answer of a try where that is a constant 0 or 1.
    Leaves(Option<bool>),
    /// None of these.
    Passes,
}

/// All that the rules go by for a path at a point: the lock to which it leads, what the point does, what it says of the path, and where it
/// tests a local, the try of the path whose answer the local has.
#[derive(Clone, Copy)]
pub struct Case {
    pub lock: Lock,
    pub role: Role,
    pub mark: Mark,
    pub kept: Option<Claim>,
}

impl Test {
    /// Whether it looks at a local.
    pub fn is_of_variable(self) -> bool
        ensures { result ≡ is_variable self.asked }
    {
        matches!(self.asked, Asked::Variable(_))
    }

    /// The answer that an outcome of the test means.
    pub fn answer_told(self, outcome: Outcome) -> Option<bool>
        ensures { result ≡ answer_told (outcome_of outcome) self }
    {
        match outcome {
            Outcome::Yes => Some(self.yes_means),
            Outcome::No => Some(!self.yes_means),
            _ => None,
        }
    }

    /// The answer that an outcome of the test means of the call, where the test looks at that.
    pub fn told_of_call(self, outcome: Outcome) -> Option<bool>
        ensures { result ≡ of_the_call self.asked (answer_told (outcome_of outcome) self) }
    {
        match self.asked {
            Asked::Call => self.answer_told(outcome),
            Asked::Variable(_) => None,
        }
    }
}
