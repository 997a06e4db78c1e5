//! Laws of what is put for points.
ghost use Rattle.tsa_lower_points.specs.Callees.{CallsHaveTheirCode};
ghost use Rattle.tsa_lower_points.specs.Examples.{PointsHaveCodeAsWritten};
ghost use Rattle.tsa_lower_points.specs.Points.{PointsAreThoseRead, PointsHaveTheirCode};

/// Where callees are those of a program, what is put for a call is its code.
#[tactic(auto, using(crate::proofs::CallCodes::calls_have_their_code))]
pub fn calls_have_their_code()
    ensures { CallsHaveTheirCode }
{}

/// And what is put for a point is the code with which it begins.
#[tactic(auto, using(crate::proofs::CallCodes::points_have_their_code))]
pub fn points_have_their_code()
    ensures { PointsHaveTheirCode }
{}

/// A point's node is the point that the row is read as from it on.
#[tactic(auto, using(crate::proofs::PointsRead::points_are_those_read))]
pub fn points_are_those_read()
    ensures { PointsAreThoseRead }
{}

/// Points of statements have the code that is written beside them.
#[tactic(auto, using(crate::proofs::PointCodesWritten::points_have_code_as_written))]
pub fn points_have_code_as_written()
    ensures { PointsHaveCodeAsWritten }
{}
