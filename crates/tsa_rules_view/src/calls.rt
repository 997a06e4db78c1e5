//! The rules by a function's view, for one status of one path at one point. No memory is taken.
ghost use Rattle.std.specs.Prelude.{◌≡◌, ◌<◌, ℕ, List, Some, false, length, slice_get};
ghost use Rattle.tsa_core.specs.Programs.{Function, Program};
ghost use Rattle.tsa_graph_edges.specs.Links.{outcome_of};
ghost use Rattle.tsa_rules.specs.Effects.{effect as spec_effect, entry, exit};
ghost use Rattle.tsa_rules.specs.declared.rule.Rule.{Rule};
ghost use Rattle.tsa_rules.specs.Fails.{fails as spec_fails, rule_number};
ghost use Rattle.tsa_rules.specs.Points.{points_of};
ghost use Rattle.tsa_rules_view.specs.Views.{IsViewOf};
ghost use Rattle.tsa_place_model.specs.Ways.{Way};

use crate::content::RuleView;
use tsa_graph_edges::Outcome;
use tsa_rules::{Status, rule_of};

/// The status of a path at the function's entry.
pub fn entry_status(view: &RuleView<'_>, cap: u32) -> Status
    ensures { (u : Program) (f : Function) (paths : List Way) (c : Way) → IsViewOf u f paths view.now → slice_get paths cap ≡ Some c
        → result ≡ entry f c }
{
    view.lock(cap).entry()
}

/// The status with which a point that is a return or the end may leave the function.
pub fn exit_status(view: &RuleView<'_>, point: u32, cap: u32) -> Status
    ensures { (u : Program) (f : Function) (paths : List Way) (c : Way) → IsViewOf u f paths view.now → point < length (points_of f)
        → slice_get paths cap ≡ Some c → result ≡ exit f point c }
{
    view.case(point, cap).exit()
}

/// The status of a path after a point, where that is left by an outcome, of its status before it.
pub fn effect(view: &RuleView<'_>, point: u32, cap: u32, status: Status, outcome: Outcome) -> Status
    ensures { (u : Program) (f : Function) (paths : List Way) (c : Way) → IsViewOf u f paths view.now → point < length (points_of f)
        → slice_get paths cap ≡ Some c → result ≡ spec_effect u f point c (outcome_of outcome) status }
{
    view.case(point, cap).effect(outcome, status)
}

/// Whether the rule of a number fails at a point for a path of a status before it. That of edges that meet isn't asked of one status, and
/// never fails here; neither does one that isn't there.
pub fn fails(view: &RuleView<'_>, point: u32, rule: u32, cap: u32, status: Status) -> bool
    ensures rules { (u : Program) (f : Function) (paths : List Way) (c : Way) (r : Rule) → IsViewOf u f paths view.now
        → point < length (points_of f) → slice_get paths cap ≡ Some c → rule_number r ≡ rule → result ≡ spec_fails r u f point c status }
    ensures other { ((r : Rule) → rule_number r ≡ rule → ⊥) → result ≡ false }
{
    match rule_of(rule) {
        Some(rule) => view.case(point, cap).fails(rule, status),
        None => false,
    }
}
