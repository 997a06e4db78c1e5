//! Laws of the answers of commands.
ghost use Rattle.tsa_tool.specs.CheckExamples.{ChecksAreAsWritten};
ghost use Rattle.tsa_tool.specs.PrintedAgain.{PrintedIsPrintedAgain};
ghost use Rattle.tsa_tool.specs.Reports.{OneReportIsRight};
ghost use Rattle.tsa_tool.specs.Units.{AcceptedUnitsAreSound, AcceptedUnitsBreakNoRule, TextsAreRefusedByWhatFailsFirst};
ghost use Rattle.tsa_tool.specs.Units.{UnitsThatBreakNoRuleAreAccepted};

/// There is one report at most for each command and input.
#[tactic(auto, using(crate::proofs::OneReport::one_report))]
pub fn one_report_is_right()
    ensures { OneReportIsRight }
{}

/// Where `check` answers `accepted`, the text is a unit of right types, in the profile and within the limits, of which no rule fails at any
/// point of any function for any path, on any walk.
#[tactic(auto, using(crate::proofs::Acceptance::accepted_units))]
pub fn accepted_units_break_no_rule()
    ensures { AcceptedUnitsBreakNoRule }
{}

/// And such a unit is answered by `accepted`, where its text is no longer than an input may be.
#[tactic(auto, using(crate::proofs::Acceptance::quiet_units))]
pub fn units_that_break_no_rule_are_accepted()
    ensures { UnitsThatBreakNoRuleAreAccepted }
{}

/// The unit of a text that `check` answers by `accepted` is sound: from any start, whoever takes the turns,
/// no event breaks what guards and attributes say, and no two threads race.
#[tactic(auto, using(crate::proofs::Soundly::accepted_units_are_sound))]
pub fn accepted_units_are_sound()
    ensures { AcceptedUnitsAreSound }
{}

/// A unit that is fit is judged, and another text is refused by what fails first, in the order of the stages.
#[tactic(auto, using(crate::proofs::Fitting::what_fails_first))]
pub fn texts_are_refused_by_what_fails_first()
    ensures { TextsAreRefusedByWhatFailsFirst }
{}

/// Texts of each kind are refused as they are written.
#[tactic(auto, using(crate::proofs::CheckExamples::checks_are_as_written))]
pub fn checks_are_as_written()
    ensures { ChecksAreAsWritten }
{}

/// What `print` writes is printed again as the same bytes, where it is taken as an input.
#[tactic(auto, using(crate::proofs::PrintedAgain::printed_is_printed_again))]
pub fn what_is_printed_is_printed_again()
    ensures { PrintedIsPrintedAgain }
{}
