//! The law of the paths for which rules can fail.
ghost use Rattle.tsa_warn.specs.CoverageLaws.{RulesFailForPathsOfFunctions};

/// A rule fails in a function only for a path of the function: one that its attributes name, those of what it calls, or that guards what it
/// reads or writes. The function has what it uses listed for each of its points.
#[tactic(auto, using(crate::proofs::PathsOfFunctions::rules_fail_for_paths))]
pub fn rules_fail_for_paths_of_functions()
    ensures { RulesFailForPathsOfFunctions }
{}
