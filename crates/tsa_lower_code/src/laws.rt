//! Laws of code.
ghost use Rattle.tsa_lower_code.specs.Examples.{CodeIsAsWritten};
ghost use Rattle.tsa_lower_code.specs.PointCodes.{PointsGoAsTheirCode};
ghost use Rattle.tsa_lower_code.specs.TermLaws.{CodeGoesAsTheTerm};

/// The code of a term goes as the term, and then as what follows it, with the term's value in its slot.
pub fn code_goes_as_the_term()
    ensures { CodeGoesAsTheTerm }
{}

/// The code of a point goes as the point, from its beginning and behind its call.
pub fn points_go_as_their_code()
    ensures { PointsGoAsTheirCode }
{}

/// Points of statements have the code that is written beside them, and it reads and does the same.
#[tactic(auto, using(crate::proofs::CodesWritten::code_is_as_written))]
pub fn code_is_as_written()
    ensures { CodeIsAsWritten }
{}
