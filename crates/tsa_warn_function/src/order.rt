//! The rules that fail in a function, in order.
ghost use Rattle.std.specs.Prelude.{◌≡◌, List, IfOk};
ghost use Rattle.std.specs.List.Sorted.{IsPermutation, IsSorted};
ghost use Rattle.tsa_core.specs.Programs.{Function, Program};
ghost use Rattle.tsa_flow_function.specs.Flows.{IsFlowOf};
ghost use Rattle.tsa_path.specs.PathTexts.{Names};
ghost use Rattle.tsa_warn_text.specs.Orders.{texts_of};
ghost use Rattle.tsa_warn_function.specs.Comparisons.{failure_cmp};
ghost use Rattle.tsa_warn_function.specs.Orders.{AreToldInOrder};
ghost use Rattle.tsa_place_model.specs.Ways.{Way};

use crate::{RuleFailure, failures_of};
use std::alloc::Global;
use std::cmp::Ordering;
use tsa_base::NoMemory;
use tsa_flow_function::FunctionFlow;
use tsa_warn_text::PathTexts;

/// How two rules that fail compare: by their points, then by the numbers of the rules, and last by the ranks of the paths.
fn compare(texts: &PathTexts, first: RuleFailure, second: RuleFailure) -> Ordering
    ensures { result ≡ failure_cmp texts.now first second }
{
    let by_point = first.point.cmp(&second.point);
    let by_rule = first.rule.number().cmp(&second.rule.number());
    let by_path = texts.rank(first.cap).cmp(&texts.rank(second.cap));
    by_point.then(by_rule).then(by_path)
}

/// Brings rules that fail into the order in which they are told.
fn sort(texts: &PathTexts, found: &mut Vec<RuleFailure>)
    ensures kept { IsPermutation found.old.items found.new.items }
    ensures ordered { IsSorted (failure_cmp texts.now) found.new.items }
{
    found.sort_unstable_by(|first, second| compare(texts, *first, *second));
}

/// All rules that fail in a function, in the order in which they are told: by the point, then by the number of the rule, and last by the
/// path.
pub fn warnings_of(
    alloc: Global,
    flow: &FunctionFlow<'_>,
    texts: &PathTexts,
) -> Result<Vec<RuleFailure>, NoMemory>
    ensures { IfOk result (λ found. (u : Program) (f : Function) (paths : List Way) (names : Names) → IsFlowOf u f paths flow.now
        → texts.now ≡ texts_of names paths → AreToldInOrder names u f paths found.items) }
{
    let mut found = failures_of(alloc, flow)?;
    sort(texts, &mut found);
    Ok(found)
}
