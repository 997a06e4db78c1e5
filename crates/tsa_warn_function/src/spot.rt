//! A path at a point, and the rules that fail there for some status that walks bring.
ghost use Rattle.std.specs.Prelude.{◌≡◌, ◌<◌, ◌↔◌, Some, length, slice_get, IsTrue, OnOk, List};
ghost use Rattle.tsa_core.specs.Programs.{Function, Program};
ghost use Rattle.tsa_warn_function.specs.Adding.{Adds};
ghost use Rattle.tsa_warn_function.specs.Spots.{can_break as spec_can_break, is_given as spec_is_given, is_taken as spec_is_taken};
ghost use Rattle.tsa_warn_function.specs.Spots.{failure_at, FailsOnWalks, IsNoted, IsNotedBy, IsSpotOf};
ghost use Rattle.tsa_flow_function.specs.Flows.{IsFlowOf};
ghost use Rattle.tsa_rules.specs.Points.{points_of};
ghost use Rattle.tsa_place_model.specs.Ways.{Way};

use crate::failure::{RuleFailure, put};
use tsa_base::NoMemory;
use tsa_flow_function::FunctionFlow;
use tsa_rules::{Case, Kinds, Mark, Rule, Statuses};
use tsa_tree::attr::AttrKind;

/// The rules that are asked where a point says something of a path: not those of returns and of edges that meet, which are asked of each
/// path.
pub const MARK_RULES: [Rule; 10] = [
    Rule::TS01,
    Rule::TS02,
    Rule::TS03,
    Rule::TS04,
    Rule::TS05,
    Rule::TS06,
    Rule::TS07,
    Rule::TS08,
    Rule::TS11,
    Rule::TS12,
];

/// Whether an attribute of the called function, of some kinds, takes or tries the path.
fn is_taken(kinds: Kinds) -> bool
    ensures { result ≡ spec_is_taken kinds }
{
    kinds.has(AttrKind::Acquire)
        || kinds.has(AttrKind::AcquireShared)
        || kinds.has(AttrKind::TryAcquire)
        || kinds.has(AttrKind::TryAcquireShared)
}

/// Whether one gives it back.
fn is_given(kinds: Kinds) -> bool
    ensures { result ≡ spec_is_given kinds }
{
    kinds.has(AttrKind::Release)
        || kinds.has(AttrKind::ReleaseShared)
        || kinds.has(AttrKind::ReleaseGeneric)
}

/// Whether what a point says of a path can break a rule: one that it can't break fails for no status.
fn can_break(rule: Rule, mark: Mark) -> bool
    ensures { result ≡ spec_can_break rule mark }
{
    match rule {
        Rule::TS01 => mark.reads_before || mark.reads_after,
        Rule::TS02 => mark.writes,
        Rule::TS03 => mark.kinds.has(AttrKind::Requires),
        Rule::TS04 => mark.kinds.has(AttrKind::RequiresShared),
        Rule::TS05 => mark.kinds.has(AttrKind::Excludes),
        Rule::TS06 => is_taken(mark.kinds),
        Rule::TS07 | Rule::TS08 => is_given(mark.kinds),
        Rule::TS09 => true,
        Rule::TS10 => false,
        Rule::TS11 => mark.is_claimed_twice,
        Rule::TS12 => mark.is_declared,
    }
}

/// A path at a point, by the numbers of both: all that the rules go by there, and the statuses that walks bring.
#[derive(Clone, Copy)]
pub struct Spot {
    pub point: u32,
    pub cap: u32,
    pub case: Case,
    pub before: Statuses,
}

/// The spot of a point and a path.
pub fn spot_of(flow: &FunctionFlow<'_>, point: u32, cap: u32) -> Spot
    ensures point { result.point ≡ point }
    ensures cap { result.cap ≡ cap }
    ensures is { (u : Program) (f : Function) (paths : List Way) (c : Way) → IsFlowOf u f paths flow.now → point < length (points_of f)
        → slice_get paths cap ≡ Some c → IsSpotOf u f c result }
{
    Spot {
        point,
        cap,
        case: flow.view().case(point, cap),
        before: flow.statuses(point, cap),
    }
}

impl Spot {
    /// Whether a rule fails there for some status that walks bring.
    fn breaks(&self, rule: Rule) -> bool
        ensures { (u : Program) (f : Function) (c : Way) → IsSpotOf u f c self.now
            → IsTrue result ↔ FailsOnWalks u f self.now.point c rule }
    {
        self.case.fails_for_some(rule, self.before)
    }

    /// Notes that a rule fails there, where it does for some status that walks bring.
    pub fn note(&self, found: &mut Vec<RuleFailure>, rule: Rule) -> Result<(), NoMemory>
        ensures { OnOk result ((u : Program) (f : Function) (c : Way) → IsSpotOf u f c self.now
            → Adds (IsNoted u f c self.now rule) found.old.items found.new.items) }
    {
        if self.breaks(rule) {
            let failure = RuleFailure {
                point: self.point,
                rule,
                cap: self.cap,
            };
            put(found, failure)
        } else {
            Ok(())
        }
    }

    /// Notes that a rule fails there, where it does; one that what the point says of the path can't break isn't asked.
    fn note_by_mark(&self, found: &mut Vec<RuleFailure>, rule: Rule) -> Result<(), NoMemory>
        ensures { OnOk result ((u : Program) (f : Function) (c : Way) → IsSpotOf u f c self.now
            → Adds (IsNoted u f c self.now rule) found.old.items found.new.items) }
    {
        if can_break(rule, self.case.mark) {
            self.note(found, rule)
        } else {
            Ok(())
        }
    }

    /// Notes which of the rules that are asked of marks fail there.
    pub fn note_rules(&self, found: &mut Vec<RuleFailure>) -> Result<(), NoMemory>
        ensures { OnOk result ((u : Program) (f : Function) (c : Way) → IsSpotOf u f c self.now
            → Adds (IsNotedBy u f c self.now MARK_RULES) found.old.items found.new.items) }
    {
        'each: for rule in MARK_RULES {
            self.note_by_mark(found, rule)?;
        }
        Ok(())
    }
}
