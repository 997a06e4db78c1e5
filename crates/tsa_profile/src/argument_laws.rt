//! Laws of arguments.
ghost use Rattle.tsa_profile.specs.ArgumentExamples.{ArgumentsAreAsWritten};
ghost use Rattle.tsa_profile.specs.ArgumentLaws.{DeclaredGlobalsHoldIt, ParametersAreThoseOfTheCore, SeenValuesAreOfTheirTypes};

/// Expressions have the values that stand beside them, or none.
pub fn arguments_are_as_written()
    ensures { ArgumentsAreAsWritten }
{}

/// The parameters that are known behind all items are those of the core program.
#[tactic(auto, using(crate::proofs::Parameters::parameters_are_those))]
pub fn parameters_are_those_of_the_core()
    ensures { ParametersAreThoseOfTheCore }
{}

/// A global that is declared behind all items holds at the start what an argument of its type is worth by the same expression.
#[tactic(auto, using(crate::proofs::DeclaredGlobals::declared_globals_hold_it))]
pub fn declared_globals_hold_it()
    ensures { DeclaredGlobalsHoldIt }
{}

/// What an argument is worth is a value of its parameter's type.
#[tactic(auto, using(crate::proofs::SeenValues::seen_values_are_of_their_types))]
pub fn seen_values_are_of_their_types()
    ensures { SeenValuesAreOfTheirTypes }
{}
