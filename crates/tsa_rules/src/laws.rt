//! Laws of the rules.
ghost use Rattle.tsa_rules.specs.Statuses.{SameStatusesAreEqual, NumbersTellStatuses, NumbersAreBits};
ghost use Rattle.tsa_rules.specs.Cases.{CasesTellTheRules, QuietCases, StatusesKeepPlaces};
ghost use Rattle.tsa_rules.specs.Fits.{WhatDoesNotFailFits};
ghost use Rattle.tsa_rules.specs.KeptRows.{KeptRowsBreakNoRule, KeptProgramsHaveNoWarnings};
ghost use Rattle.tsa_rules.specs.KeptLaws.{AcceptedFunctionsHaveSheets, ALockedWriteIsAccepted};
ghost use Rattle.tsa_rules.specs.Laws.{EntriesAndExitsAreAsDeclared, ExitsOfTriesAreByTheAnswer, CallsAreByTheirAttribute};
ghost use Rattle.tsa_rules.specs.Laws.{CallsOfReentrantLocksCountDepths};
ghost use Rattle.tsa_rules.specs.LockLaws.{PathsLeadToTheirLocks, AttributesNameWhatArgumentsAre};
ghost use Rattle.tsa_rules.specs.KindSets.{KindsAreSets};
ghost use Rattle.tsa_rules.specs.Marks.{MarksAreMadeStepByStep, MarksTellKinds};
ghost use Rattle.tsa_rules.specs.OrderLaws.{WarningsAreToldInOrder};
ghost use Rattle.tsa_rules.specs.RuleLaws.{AccessesNeedTheirLocks, ReturnsAreAsDeclared, NamesOfCallsDiffer, DeclarationsFindFreePaths};
ghost use Rattle.tsa_rules.specs.Sets.{SetsAreTheirStatuses, PossibleStatusesHavePlaces};
ghost use Rattle.tsa_rules.specs.Sheets.{SheetsThatPassAreKept, SheetsThatPassArePossible, ProgramsThatPassHaveNoWarnings};
ghost use Rattle.tsa_rules.specs.StatusLaws.{StatusesStayPossible, OneStatusWhereEdgesAgree, RulesSpeakOfNamedPaths};
ghost use Rattle.tsa_rules.specs.TestLaws.{TestsOfCallsTellTheAnswer, TestsOfVariablesTellTheAnswer, OtherTestsDecideNothing};
ghost use Rattle.tsa_rules.specs.TestLaws.{UntriedLocksAreFree, TryVariablesAreNumbered};
ghost use Rattle.tsa_rules.specs.TryVariables.{TryVariablesAreToldByDeclarations};
ghost use Rattle.tsa_rules.specs.WalkLaws.{BranchesMeet, LargeUnitsAreJudged, LoopsComeBack};

/// Statuses that are told apart are different, and the others are equal.
pub fn same_statuses_are_equal()
    ensures { SameStatusesAreEqual }
{}

/// Different statuses of a path have different numbers, which are bits of a set.
pub fn numbers_tell_statuses()
    ensures told { NumbersTellStatuses }
    ensures bits { NumbersAreBits }
{}

/// Sets with the same statuses are equal, and each status that a path can have has a place in a set.
#[tactic(auto, using(crate::proofs::SetBits::sets_are_their_statuses, crate::proofs::Places::possible_statuses_have_places))]
pub fn sets_are_their_statuses()
    ensures same { SetsAreTheirStatuses }
    ensures places { PossibleStatusesHavePlaces }
{}

/// The bits of kinds of attributes are sets of them.
#[tactic(auto, using(crate::proofs::KindBits::kinds_are_sets))]
pub fn kinds_are_sets()
    ensures { KindsAreSets }
{}

/// Marks are made attribute by attribute and access by access, and tell the kinds of the attributes that name a path.
#[tactic(auto, using(crate::proofs::MarkSteps::marks_are_made_step_by_step, crate::proofs::KindBits::marks_tell_kinds))]
pub fn marks_are_made_step_by_step()
    ensures steps { MarksAreMadeStepByStep }
    ensures kinds { MarksTellKinds }
{}

/// The case of a path at a point tells all that the rules say of it there.
#[tactic(auto, using(crate::proofs::CaseFailures::cases_tell_the_rules))]
pub fn cases_tell_the_rules()
    ensures { CasesTellTheRules }
{}

/// A case in which nothing claims the path and no local is tested keeps each status, and a path of which the point says nothing breaks no
/// rule by itself unless the point leaves.
#[tactic(auto, using(crate::proofs::QuietCases::quiet_cases))]
pub fn quiet_cases()
    ensures { QuietCases }
{}

/// The numbers of try variables, and the tries whose answers they keep, are told by the points that declare them.
#[tactic(auto, using(crate::proofs::KeptTries::try_variables_are_told_by_declarations))]
pub fn try_variables_are_told_by_declarations()
    ensures { TryVariablesAreToldByDeclarations }
{}

/// Statuses keep their places in sets along points, and a function has no more try variables than have places.
#[tactic(auto, using(crate::proofs::CasePlaces::statuses_keep_places))]
pub fn statuses_keep_places()
    ensures { StatusesKeepPlaces }
{}

/// A function begins with statuses that its paths can have, is to end with such ones, and its points make such ones of such ones.
#[tactic(auto, using(crate::proofs::Possible::statuses_stay_possible))]
pub fn statuses_stay_possible()
    ensures { StatusesStayPossible }
{}

/// Where no edges disagree on a path, it has one status at each point that is reached.
pub fn one_status_where_edges_agree()
    ensures { OneStatusWhereEdgesAgree }
{}

/// A rule fails only for paths that the function names.
pub fn rules_speak_of_named_paths()
    ensures { RulesSpeakOfNamedPaths }
{}

/// Where rows of statuses are kept, no rule fails for any of their paths.
pub fn kept_rows_break_no_rule()
    ensures { KeptRowsBreakNoRule }
{}

/// A program whose functions keep rows of the paths that they name has no warnings.
pub fn kept_programs_have_no_warnings()
    ensures { KeptProgramsHaveNoWarnings }
{}

/// A program that passes with a sheet for each of its functions has no warnings.
pub fn programs_that_pass_have_no_warnings()
    ensures { ProgramsThatPassHaveNoWarnings }
{}

/// The rows of a sheet that passes are kept, and their statuses are ones that their paths may have.
pub fn sheets_that_pass_are_kept()
    ensures kept { SheetsThatPassAreKept }
    ensures possible { SheetsThatPassArePossible }
{}

/// Where a rule doesn't fail for a status, the status is as the rule asks, by cases of the attribute and the status.
#[tactic(auto, using(crate::proofs::Fitting::what_does_not_fail_fits))]
pub fn what_does_not_fail_fits()
    ensures { WhatDoesNotFailFits }
{}

/// Paths lead to locks of the kinds that their structs are marked with.
#[tactic(auto, using(crate::proofs::WorkedLocks::paths_lead_to_their_locks))]
pub fn paths_lead_to_their_locks()
    ensures { PathsLeadToTheirLocks }
{}

/// The attributes of a called function name what its arguments are.
#[tactic(auto, using(crate::proofs::WorkedLocks::attributes_name_what_arguments_are))]
pub fn attributes_name_what_arguments_are()
    ensures { AttributesNameWhatArgumentsAre }
{}

/// A function begins and ends with the statuses that its attributes declare.
#[tactic(auto, using(crate::proofs::RowExamples::entries_and_exits_are_as_declared))]
pub fn entries_and_exits_are_as_declared()
    ensures { EntriesAndExitsAreAsDeclared }
{}

/// A function that tries ends with the statuses that its answer says.
#[tactic(auto, using(crate::proofs::RowExamples::exits_of_tries_are_by_the_answer))]
pub fn exits_of_tries_are_by_the_answer()
    ensures { ExitsOfTriesAreByTheAnswer }
{}

/// A call asks for what the attribute of the called function says, and leaves what it says.
#[tactic(auto, using(crate::proofs::RowExamples::calls_are_by_their_attribute))]
pub fn calls_are_by_their_attribute()
    ensures { CallsAreByTheirAttribute }
{}

/// Calls count how often a lock is held that its holder may take again.
#[tactic(auto, using(crate::proofs::RowExamples::calls_of_reentrant_locks_count_depths))]
pub fn calls_of_reentrant_locks_count_depths()
    ensures { CallsOfReentrantLocksCountDepths }
{}

/// A test of a try tells its answer.
#[tactic(auto, using(crate::proofs::WorkedTests::tests_of_calls_tell_the_answer))]
pub fn tests_of_calls_tell_the_answer()
    ensures { TestsOfCallsTellTheAnswer }
{}

/// A test of a try variable tells the answer that is kept there.
#[tactic(auto, using(crate::proofs::WorkedTests::tests_of_variables_tell_the_answer))]
pub fn tests_of_variables_tell_the_answer()
    ensures { TestsOfVariablesTellTheAnswer }
{}

/// Other tests decide nothing, and a test decides only what is pending in its variable: a lock that wasn't tried there is free.
#[tactic(auto, using(crate::proofs::WorkedTests::other_tests_decide_nothing, crate::proofs::WorkedTests::untried_locks_are_free))]
pub fn other_tests_decide_nothing()
    ensures others { OtherTestsDecideNothing }
    ensures untried { UntriedLocksAreFree }
{}

/// Try variables are numbered in order of their declarations.
#[tactic(auto, using(crate::proofs::WorkedTests::try_variables_are_numbered))]
pub fn try_variables_are_numbered()
    ensures { TryVariablesAreNumbered }
{}

/// What is read has to be held, and what is written held exclusively.
#[tactic(auto, using(crate::proofs::WorkedRules::accesses_need_their_locks))]
pub fn accesses_need_their_locks()
    ensures { AccessesNeedTheirLocks }
{}

/// Where a function returns, all is as it declares.
#[tactic(auto, using(crate::proofs::WorkedRules::returns_are_as_declared))]
pub fn returns_are_as_declared()
    ensures { ReturnsAreAsDeclared }
{}

/// No two names by which a called function claims locks are one path.
#[tactic(auto, using(crate::proofs::WorkedRules::names_of_calls_differ))]
pub fn names_of_calls_differ()
    ensures { NamesOfCallsDiffer }
{}

/// What a path mentions is declared only while the path is free.
#[tactic(auto, using(crate::proofs::WorkedRules::declarations_find_free_paths))]
pub fn declarations_find_free_paths()
    ensures { DeclarationsFindFreePaths }
{}

/// Where branches meet, and where a loop comes back, walks bring what the rules find.
#[tactic(auto, using(crate::proofs::WorkedWalks::branches_meet, crate::proofs::WorkedWalks::loops_come_back))]
pub fn walks_bring_statuses()
    ensures branches { BranchesMeet }
    ensures loops { LoopsComeBack }
{}

/// A unit with more places than it may have isn't free of warnings for that: what it writes without a lock breaks a rule.
#[tactic(auto, using(crate::proofs::WorkedWalks::large_units_are_judged))]
pub fn large_units_are_judged()
    ensures { LargeUnitsAreJudged }
{}

/// Functions that are as they should be have sheets that pass.
pub fn accepted_functions_have_sheets()
    ensures { AcceptedFunctionsHaveSheets }
{}

/// Warnings are told by the places of bodies and points, by rules, and by the texts of paths.
#[tactic(auto, using(crate::proofs::WorkedOrder::warnings_are_told_in_order))]
pub fn warnings_are_told_in_order()
    ensures { WarningsAreToldInOrder }
{}

/// A unit that writes under its lock has no warnings.
pub fn a_locked_write_is_accepted()
    ensures { ALockedWriteIsAccepted }
{}
