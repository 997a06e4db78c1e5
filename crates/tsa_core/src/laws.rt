//! Laws of the core program.
ghost use Rattle.tsa_core.specs.CaseLaws.{CasesDiffer, ReadCasesStandApart, ReadCasesDiffer};
ghost use Rattle.tsa_core.specs.Examples.{ControlIsAsWritten, PointsAreAsWritten, UsesAreAsWritten, ProgramsAreAsWritten};
ghost use Rattle.tsa_core.specs.ManyPlaces.{LargeUnitsHaveTheirPlaces};
ghost use Rattle.tsa_core.specs.KindLaws.{ScopesBelong, PointsHaveTheirKinds, BodiesAgree, ProgramsAreWellKinded};
ghost use Rattle.tsa_core.specs.Kinds.{TermsHaveTheirKinds};
ghost use Rattle.tsa_core.specs.Laws.{PointsAreThoseOfTheText, TermsHaveTheirTypes, EdgesStayInside, EdgesAreFollowed};
ghost use Rattle.tsa_core.specs.Laws.{FunctionsAreNumbered, OutcomesAreOfTheActions, OutcomesAreOfThePoints, LocalsAreListed, PointsGoOn};
ghost use Rattle.tsa_core.specs.Laws.{PointsSpeakOfKnown, BodiesBeginBelow, UsesStandBesidePoints};
ghost use Rattle.tsa_core.specs.Loads.{LoadsAreCells, ConversionsKeepLoads};
ghost use Rattle.tsa_core.specs.PointLoads.{UsesAreOfCells, PointsLoadTheirCells, PointsLoadJustThose};

/// A body has the points of its text, and does at each of them what the text does.
pub fn points_are_those_of_the_text()
    ensures { PointsAreThoseOfTheText }
{}

/// What an expression means has the type of the expression, where it has one.
pub fn terms_have_their_types()
    ensures { TermsHaveTheirTypes }
{}

/// Edges go from a point of a body that isn't its end to a point of the body.
pub fn edges_stay_inside()
    ensures { EdgesStayInside }
{}

/// An edge's outcome is one that the point from which it goes may have, so that a constant test has only its own, and one that its action
/// can have.
pub fn outcomes_are_of_the_actions()
    ensures points { OutcomesAreOfThePoints }
    ensures actions { OutcomesAreOfTheActions }
{}

/// Statements lead from point to point as they are written.
#[tactic(auto, using(crate::proofs::BodyExamples::control_is_as_written))]
pub fn control_is_as_written()
    ensures { ControlIsAsWritten }
{}

/// Points do what is written there.
#[tactic(auto, using(crate::proofs::BodyExamples::points_are_as_written))]
pub fn points_are_as_written()
    ensures { PointsAreAsWritten }
{}

/// Points read and write what is written there, each with its guards, and hand on the paths of arguments.
#[tactic(auto, using(crate::proofs::BodyExamples::uses_are_as_written))]
pub fn uses_are_as_written()
    ensures { UsesAreAsWritten }
{}

/// Units have the locks, the functions and the attributes that are written.
#[tactic(auto, using(crate::proofs::BodyExamples::programs_are_as_written))]
pub fn programs_are_as_written()
    ensures { ProgramsAreAsWritten }
{}

/// The program of a unit with more places than it may have, which `check` refuses, has all of them, each with its guards.
#[tactic(auto, using(crate::proofs::ManyPlaces::large_units_have_their_places))]
pub fn large_units_have_their_places()
    ensures { LargeUnitsHaveTheirPlaces }
{}

/// Every point goes on for each outcome that it may have, but for the values that a switch doesn't name.
pub fn points_go_on()
    ensures { PointsGoOn }
{}

/// No point speaks of a local that isn't known there: a local isn't mentioned by its own initialiser.
pub fn points_speak_of_known()
    ensures { PointsSpeakOfKnown }
{}

/// A body's locals are those that its text declares, numbered in order behind those before it.
pub fn locals_are_listed()
    ensures { LocalsAreListed }
{}

/// Where the statements of a unit's function begin, the locals that are known are its parameters.
pub fn bodies_begin_below()
    ensures { BodiesBeginBelow }
{}

/// At each point of a unit's body a name that means a function is the name of the function that has the number in the program.
pub fn functions_are_numbered()
    ensures { FunctionsAreNumbered }
{}

/// What a function uses stands beside its points, one by one.
pub fn uses_stand_beside_points()
    ensures { UsesStandBesidePoints }
{}

/// The control of a body is the graph of its next points: where an edge's outcome is no choice of a switch, the next point is the one to
/// which it leads.
pub fn edges_are_followed()
    ensures { EdgesAreFollowed }
{}

/// What a typed expression means has the kind that the type says, where names belong to the layout and to the locals.
pub fn terms_have_their_kinds()
    ensures { TermsHaveTheirKinds }
{}

/// At each point of a body what is known belongs to the layout of the unit and to the locals of the body.
pub fn scopes_belong()
    ensures { ScopesBelong }
{}

/// At each point of a body the terms of the action and of the call have the kinds that are wanted there.
pub fn points_have_their_kinds()
    ensures { PointsHaveTheirKinds }
{}

/// A body has the kinds of parameters and of result that the program's function of its name has.
pub fn bodies_agree()
    ensures { BodiesAgree }
{}

/// At each point of each body of a program the terms have the kinds that are wanted there, by the program's own layout and functions.
pub fn programs_are_well_kinded()
    ensures { ProgramsAreWellKinded }
{}

/// Of a typed expression without a call, the cells that are read are those that its term and its value load, and to convert the value
/// changes no load.
pub fn loads_are_cells()
    ensures read { LoadsAreCells }
    ensures converted { ConversionsKeepLoads }
{}

/// In a body of a typed unit no switch has a value twice: no two edges leave one point for the same value.
pub fn cases_differ()
    ensures apart { CasesDiffer }
    ensures read { ReadCasesDiffer }
{}

/// In a text the cases of each switch stand at places of their own.
pub fn cases_stand_apart()
    ensures { ReadCasesStandApart }
{}

/// At each point of a unit's body the accesses are the loads and the write of its terms: of the arguments of its call and of its action.
pub fn accesses_are_the_loads()
    ensures cells { UsesAreOfCells }
    ensures loads { PointsLoadTheirCells }
    ensures just { PointsLoadJustThose }
{}
