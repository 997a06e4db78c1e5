//! What each point of a function makes of the status of one path, and the statuses with which the function begins and with which it may
//! leave.
ghost use Rattle.std.specs.Prelude.{◌≡◌, ℕ};
ghost use Rattle.tsa_place_model.specs.Ways.{Way};
ghost use Rattle.tsa_core.specs.Programs.{Function, Program};
ghost use Rattle.tsa_rules.specs.Cases.{after_asked, after_claim_in, after_role, answer_in, answer_told, attempt_in, case_of, effect_in};
ghost use Rattle.tsa_rules.specs.Cases.{entry_in, exit_in, is_still, is_taken_in, later_in, left_by_claim, lock_of, tests_variable};
ghost use Rattle.tsa_rules.specs.Effects.{after_attempt, after_decision as spec_after_decision, deeper as spec_deeper, effect, entry};
ghost use Rattle.tsa_rules.specs.Effects.{entry_by, exit, exit_by, given_back as spec_given_back, if_taken as spec_if_taken, is_success};
ghost use Rattle.tsa_rules.specs.Effects.{later, taken_by as spec_taken_by};
ghost use Rattle.tsa_rules.specs.Marks.{claim_kind};
ghost use Rattle.tsa_graph_edges.specs.Links.{outcome_of};

use crate::case::{Asked, Case, Lock, Role, Test};
use crate::mark::Claim;
use crate::status::Status;
use tsa_graph_edges::Outcome;
use tsa_tree::attr::AttrKind;

/// The greatest depth.
const DEEPEST: u32 = 7;

/// A status where a try has taken its lock, and else that of a free one.
fn if_taken(is_taken: bool, taken: Status) -> Status
    ensures { result ≡ spec_if_taken is_taken taken }
{
    if is_taken { taken } else { Status::Free }
}

/// What a try takes where it succeeds.
fn taken_by(kind: AttrKind) -> Status
    ensures { result ≡ spec_taken_by kind }
{
    match kind {
        AttrKind::TryAcquire => Status::Exclusive(1),
        AttrKind::TryAcquireShared => Status::Shared,
        _ => Status::Free,
    }
}

/// One hold more of a lock that its holder may take again.
fn deeper(status: Status) -> Status
    ensures { result ≡ spec_deeper status }
{
    match status {
        Status::Exclusive(depth) if depth < DEEPEST => Status::Exclusive(depth + 1),
        Status::Exclusive(_) => Status::Exclusive(DEEPEST),
        _ => Status::Exclusive(1),
    }
}

/// One hold less of a lock; what is lent is never given back.
fn given_back(status: Status) -> Status
    ensures { result ≡ spec_given_back status }
{
    match status {
        Status::Exclusive(depth) if depth > 1 => Status::Exclusive(depth - 1),
        Status::Lent => Status::Lent,
        _ => Status::Free,
    }
}

/// The status of what was pending in a try variable, where that turns out, and of all else the same.
fn after_decision(variable: u32, after: Status, status: Status) -> Status
    ensures { result ≡ spec_after_decision variable after status }
{
    match status {
        Status::Pending(other) if other == variable => after,
        _ => status,
    }
}

impl Claim {
    /// Whether an answer is the one for which a try has taken its lock.
    fn is_success(self, answer: Option<bool>) -> bool
        ensures { result ≡ is_success self.success answer }
    {
        match answer {
            Some(answer) => if self.success { answer } else { !answer },
            None => false,
        }
    }

    /// What a try leaves whose answer is known.
    fn left_by(self, answer: bool) -> Status
        ensures { result ≡ left_by_claim (Some self) answer }
    {
        if_taken(self.is_success(Some(answer)), taken_by(self.kind))
    }

    /// The status at the entry of a function with this attribute.
    fn entry(self) -> Status
        ensures { result ≡ entry_by (Some self.kind) }
    {
        match self.kind {
            AttrKind::Requires | AttrKind::Release => Status::Exclusive(1),
            AttrKind::RequiresShared => Status::Lent,
            AttrKind::ReleaseShared => Status::Shared,
            _ => Status::Free,
        }
    }

    /// The status with which a function with this attribute may leave.
    fn exit(self, answer: Option<bool>) -> Status
        ensures { result ≡ exit_by (is_success self.success answer) (Some self.kind) }
    {
        match self.kind {
            AttrKind::Requires | AttrKind::Acquire => Status::Exclusive(1),
            AttrKind::RequiresShared => Status::Lent,
            AttrKind::AcquireShared => Status::Shared,
            AttrKind::TryAcquire => if_taken(self.is_success(answer), Status::Exclusive(1)),
            AttrKind::TryAcquireShared => if_taken(self.is_success(answer), Status::Shared),
            _ => Status::Free,
        }
    }
}

impl Lock {
    /// The status of the path at the function's entry.
    pub fn entry(self) -> Status
        ensures by { result ≡ entry_in self }
        ensures is { (u : Program) (f : Function) (c : Way) → self ≡ lock_of u f c → result ≡ entry f c }
    {
        match self.claim {
            Some(claim) => claim.entry(),
            None => Status::Free,
        }
    }

    /// The status with which a point that gives an answer may leave the function.
    fn exit(self, answer: Option<bool>) -> Status
        ensures { result ≡ exit_by (is_taken_in answer self.claim) (claim_kind self.claim) }
    {
        match self.claim {
            Some(claim) => claim.exit(answer),
            None => Status::Free,
        }
    }
}

impl Role {
    /// The answer that it gives.
    fn answer(self) -> Option<bool>
        ensures { result ≡ answer_in self }
    {
        match self {
            Role::Leaves(answer) => answer,
            _ => None,
        }
    }

    /// Whether it tests a local.
    fn tests_variable(self) -> bool
        ensures { result ≡ tests_variable self }
    {
        match self {
            Role::Tests(test) => test.is_of_variable(),
            _ => false,
        }
    }

    /// What a try there makes of the status of its lock.
    fn after_try(self, outcome: Outcome, claim: Claim, status: Status) -> Status
        ensures { result ≡ after_attempt (attempt_in self (outcome_of outcome) claim.success) (spec_taken_by claim.kind) status }
    {
        match self {
            Role::Declares(variable) => Status::Pending(variable),
            Role::Tests(test) => if claim.is_success(test.told_of_call(outcome)) {
                taken_by(claim.kind)
            } else {
                status
            },
            Role::Leaves(_) | Role::Passes => status,
        }
    }
}

impl Case {
    /// What a call makes of the status, by the first attribute of the called function that claims the path.
    fn after_attribute(self, outcome: Outcome, claim: Claim, status: Status) -> Status
        ensures { result ≡ after_claim_in self (outcome_of outcome) (Some claim) status }
    {
        match claim.kind {
            AttrKind::Acquire => if self.lock.is_reentrant {
                deeper(status)
            } else {
                Status::Exclusive(1)
            },
            AttrKind::AcquireShared => Status::Shared,
            AttrKind::TryAcquire | AttrKind::TryAcquireShared => {
                self.role.after_try(outcome, claim, status)
            }
            AttrKind::Release | AttrKind::ReleaseShared | AttrKind::ReleaseGeneric => {
                given_back(status)
            }
            _ => status,
        }
    }

    /// What the call of the point makes of the status, where it has one.
    fn after_call(self, outcome: Outcome, status: Status) -> Status
        ensures { result ≡ after_claim_in self (outcome_of outcome) self.mark.claim status }
    {
        match self.mark.claim {
            Some(claim) => self.after_attribute(outcome, claim, status),
            None => status,
        }
    }

    /// What a local's answer that a test tells makes of the status.
    fn after_answer(self, variable: u32, answer: bool, status: Status) -> Status
        ensures { result ≡ spec_after_decision variable (left_by_claim self.kept answer) status }
    {
        let after = match self.kept {
            Some(claim) => claim.left_by(answer),
            None => Status::Free,
        };
        after_decision(variable, after, status)
    }

    /// What a test makes of the status.
    fn after_test(self, test: Test, outcome: Outcome, status: Status) -> Status
        ensures { result ≡ after_asked test.asked self.kept (answer_told (outcome_of outcome) test) status }
    {
        match (test.asked, test.answer_told(outcome)) {
            (Asked::Variable(variable), Some(answer)) => {
                self.after_answer(variable, answer, status)
            }
            _ => status,
        }
    }

    /// What the point makes of the status behind its call.
    fn after_role(self, outcome: Outcome, status: Status) -> Status
        ensures { result ≡ after_role self.role self.kept (outcome_of outcome) status }
    {
        match self.role {
            Role::Tests(test) => self.after_test(test, outcome, status),
            _ => status,
        }
    }

    /// The status after the point, where that is left by an outcome, of the status before it: nothing but calls and tests of try variables
    /// changes one.
    pub fn effect(self, outcome: Outcome, status: Status) -> Status
        ensures by { result ≡ effect_in self (outcome_of outcome) status }
        ensures is { (u : Program) (f : Function) (p : ℕ) (c : Way) → self ≡ case_of u f p c
            → result ≡ effect u f p c (outcome_of outcome) status }
    {
        let after = self.after_call(outcome, status);
        self.after_role(outcome, after)
    }

    /// Whether the point keeps each status of the path: nothing claims it there, and no local is tested.
    pub fn is_still(self) -> bool
        ensures { result ≡ is_still self }
    {
        self.mark.claim.is_none() && !self.role.tests_variable()
    }

    /// The status on which the left side of an assignment, its write and a return are judged: that after the call.
    pub fn later(self, status: Status) -> Status
        ensures by { result ≡ later_in self status }
        ensures is { (u : Program) (f : Function) (p : ℕ) (c : Way) → self ≡ case_of u f p c → result ≡ later u f p c status }
    {
        self.effect(Outcome::Next, status)
    }

    /// The status with which the point may leave the function.
    pub fn exit(self) -> Status
        ensures by { result ≡ exit_in self }
        ensures is { (u : Program) (f : Function) (p : ℕ) (c : Way) → self ≡ case_of u f p c → result ≡ exit f p c }
    {
        self.lock.exit(self.role.answer())
    }
}
