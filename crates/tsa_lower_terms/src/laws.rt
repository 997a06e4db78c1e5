//! Laws of what is put for expressions.
ghost use Rattle.tsa_lower_terms.specs.Examples.{ExpressionsHaveTheirCode};
ghost use Rattle.tsa_lower_terms.specs.Laws.{ExpressionsAreLowered, PartsAreOfAnyResult};

/// What is put for a typed expression is the code of what it means.
#[tactic(auto, using(crate::proofs::Expressions::expressions_are_lowered))]
pub fn expressions_are_lowered()
    ensures { ExpressionsAreLowered }
{}

/// Expressions have the code that is written.
#[tactic(auto, using(crate::proofs::WrittenCodes::expressions_have_their_code))]
pub fn expressions_have_their_code()
    ensures { ExpressionsHaveTheirCode }
{}

/// The parts of a row are the same in a function with any result.
#[tactic(auto, using(crate::proofs::AnyResult::parts_are_of_any_result))]
pub fn parts_are_of_any_result()
    ensures { PartsAreOfAnyResult }
{}
