//! The law of where rules fail.
ghost use Rattle.tsa_warn_function.specs.FailureLaws.{RulesFailAtPointsOfBodies};

/// In the program of a unit a rule fails only at points of bodies, which are all points for which failures are listed.
#[tactic(auto, using(crate::proofs::OfBodies::rules_fail_at_points_of_bodies))]
pub fn rules_fail_at_points_of_bodies()
    ensures { RulesFailAtPointsOfBodies }
{}
