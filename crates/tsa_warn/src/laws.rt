//! Laws of the lines of a unit.
ghost use Rattle.tsa_warn.specs.Laws.{RulesThatFailAreTold, UnitsWithoutLinesHaveNoWarnings, UnitsWithoutWarningsHaveNoLines};

/// In a typed unit every rule that fails on some walk, at any point of any function and for any path, is told in the body of its function.
#[tactic(auto, using(crate::proofs::FailuresOfBodies::rules_that_fail_are_told))]
pub fn rules_that_fail_are_told()
    ensures { RulesThatFailAreTold }
{}

/// Where no line is told of a typed unit, no rule fails in its program.
pub fn units_without_lines_have_no_warnings()
    ensures { UnitsWithoutLinesHaveNoWarnings }
{}

/// Where no rule fails in the program of a unit, no line is told of it.
#[tactic(auto, using(crate::proofs::Silence::units_without_warnings))]
pub fn units_without_warnings_have_no_lines()
    ensures { UnitsWithoutWarningsHaveNoLines }
{}
