//! Laws of what is found along rows.
ghost use Rattle.tsa_core_program.specs.Examples.{BodiesAreFoundAsWritten};
ghost use Rattle.tsa_core_program.specs.Laws.{BodiesAreFound, PointsStandThere, BodyOfEachIsFound};

/// What is found along the row of a typed unit is what the core program says of its bodies.
#[tactic(auto, using(crate::proofs::UnitFound::bodies_are_found))]
pub fn bodies_are_found()
    ensures { BodiesAreFound }
{}

/// The body that is found for a function is what the core program says of its first one.
#[tactic(auto, using(crate::proofs::BodiesByNumber::body_of_each_is_found))]
pub fn body_of_each_is_found()
    ensures { BodyOfEachIsFound }
{}

/// The numbers of a typed unit's points are those of the points of the core program.
#[tactic(auto, using(crate::proofs::PointNumbers::points_stand_there))]
pub fn points_stand_there()
    ensures { PointsStandThere }
{}

/// Bodies are found as they are written.
#[tactic(auto, using(crate::proofs::Examples::bodies_are_found_as_written))]
pub fn bodies_are_found_as_written()
    ensures { BodiesAreFoundAsWritten }
{}
