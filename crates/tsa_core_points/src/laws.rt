//! Laws of the steps of bodies.
ghost use Rattle.tsa_core_points.specs.Laws.{StatementsArePassed, StepsAreThePoints, BodyStepsAreThePoints, PlacedAreWritten};
ghost use Rattle.tsa_core_points.specs.CoreLaws.{PlacedAreKnown, PointsAreOfTheCore, UsesAreOfTheCore, StableIsOfTheCore};

/// The steps of a body come by its points in order, where what is known at each of them is known on the way, and lead to behind it.
pub fn steps_are_the_points()
    ensures one { StatementsArePassed }
    ensures all { StepsAreThePoints }
    ensures body { BodyStepsAreThePoints }
    ensures written { PlacedAreWritten }
{}

/// At the points of a body is known what the core program has there, so that its points are those of the core program, and so are what is
/// used at them and the locals that never change.
pub fn points_are_of_the_core()
    ensures known { PlacedAreKnown }
    ensures points { PointsAreOfTheCore }
    ensures uses { UsesAreOfTheCore }
    ensures stable { StableIsOfTheCore }
{}
