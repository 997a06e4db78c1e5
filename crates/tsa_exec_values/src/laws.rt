//! The laws of operators on values.
ghost use Rattle.tsa_exec_values.specs.Examples.{OperatorsAreAsWritten};

/// Conversions and operators on single values are as they are written out.
#[tactic(auto, using(crate::proofs::OperatorExamples::as_written))]
pub fn operators_are_as_written()
    ensures { OperatorsAreAsWritten }
{}
