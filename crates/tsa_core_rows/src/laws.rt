//! Laws of what rows say.
ghost use Rattle.tsa_core_rows.specs.Examples.{NodesAreAsWritten, RowsAreReadAsWritten, BodiesStandAsWritten};
ghost use Rattle.tsa_core_rows.specs.Laws.{ExpressionsAreRead, PointsAreRead, UnitsAreRead, LocalsAreRead, StableLocalsAreRead, BodiesAreRead, AllBodiesAreRead, BodiesHaveNames};

/// The row of a typed expression says what the expression means, and which call is in it.
#[tactic(auto, using(crate::proofs::TypedParts::expressions_are_read))]
pub fn expressions_are_read()
    ensures { ExpressionsAreRead }
{}

/// The row of a typed body says what the core program does at the points of the body, in their order.
#[tactic(auto, using(crate::proofs::BodyPoints::points_are_read))]
pub fn points_are_read()
    ensures { PointsAreRead }
{}

/// The rows of all bodies of a typed unit say what the program does at the points of the bodies.
#[tactic(auto, using(crate::proofs::BodyPoints::units_are_read))]
pub fn units_are_read()
    ensures { UnitsAreRead }
{}

/// The row of a body declares the locals of the core program, in their order.
pub fn locals_are_read()
    ensures { LocalsAreRead }
{}

/// The row of a body says which locals of the core program never change.
pub fn stable_locals_are_read()
    ensures { StableLocalsAreRead }
{}

/// The row of a typed unit has the bodies of its items, in their order.
#[tactic(auto, using(crate::proofs::StretchesRead::bodies_are_read))]
pub fn bodies_are_read()
    ensures { BodiesAreRead }
{}

/// The row of each body of a typed unit says what the core program does at the points of the body.
#[tactic(auto, using(crate::proofs::UnitBodies::all_bodies_are_read))]
pub fn all_bodies_are_read()
    ensures { AllBodiesAreRead }
{}

/// The bodies of a unit are those that the core program has by their names.
#[tactic(auto, using(crate::proofs::UnitBodies::bodies_have_names))]
pub fn bodies_have_names()
    ensures { BodiesHaveNames }
{}

/// Rows have the nodes that are written, each in front of its parts.
#[tactic(auto, using(crate::proofs::RowExamples::nodes_are_as_written))]
pub fn nodes_are_as_written()
    ensures { NodesAreAsWritten }
{}

/// Rows are read as what is written.
#[tactic(auto, using(crate::proofs::RowExamples::rows_are_read_as_written))]
pub fn rows_are_read_as_written()
    ensures { RowsAreReadAsWritten }
{}

/// Bodies stand in rows where they are written.
#[tactic(auto, using(crate::proofs::RowExamples::bodies_stand_as_written))]
pub fn bodies_stand_as_written()
    ensures { BodiesStandAsWritten }
{}
