//! Laws of rows.
ghost use Rattle.tsa_types_row.specs.Examples.{RowsAreAsWritten};
ghost use Rattle.tsa_types_row.specs.Laws.{NamesOfRows};

/// The names that a unit's row bears, in order, are those of the unit, and mean the same.
#[tactic(auto, using(crate::proofs::UnitNames::names_of_rows))]
pub fn names_of_rows_are_those_of_the_unit()
    ensures { NamesOfRows }
{}

/// Units have the nodes that are written.
#[tactic(auto, using(crate::proofs::RowExamples::rows_are_as_written))]
pub fn rows_are_as_written()
    ensures { RowsAreAsWritten }
{}
