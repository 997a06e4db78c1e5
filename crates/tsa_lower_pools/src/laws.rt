//! The law of code that stands for a program.
ghost use Rattle.tsa_lower_pools.specs.Laws.{CodeGoesAsTheProgram};

/// What is still to come of each point's code is what is still to come of the point, from its beginning and behind its call.
#[tactic(auto, using(crate::proofs::PointsOfUnits::code_goes))]
pub fn code_goes_as_the_program()
    ensures { CodeGoesAsTheProgram }
{}
