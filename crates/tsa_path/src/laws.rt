//! Laws of paths.
ghost use Rattle.tsa_path.specs.ArgumentLaws.{ArgumentsHaveTheirPaths, CallsSuitTheirPaths};
ghost use Rattle.tsa_path.specs.Examples.{SubstitutionsAreAsWritten, TextsAreAsWritten};
ghost use Rattle.tsa_path.specs.Laws.{SameBitsSameElements, SubstitutionKeepsTheMeaning};
ghost use Rattle.tsa_path.specs.PathTables.{NumbersStay, TableHoldsDifferentPaths, TableStaysWithinItsLimit};
ghost use Rattle.tsa_path.specs.ValueExamples.{ValuesAreAsWritten};
ghost use Rattle.tsa_path.specs.WrittenLocks.{LocksAreAsWritten};
ghost use Rattle.tsa_path.specs.Sameness.{SameWaysAreEqual};

/// Where a callee's locals are the values of a call's arguments, a path of the callee there and its substituted path in the caller lead to
/// the same place, or to none both; a number is an index of the same elements before and after its conversion between `int` and `unsigned`.
#[tactic(auto, using(crate::proofs::Keeping::keeps_the_meaning, crate::proofs::Elements::same_elements))]
pub fn substitution_keeps_the_meaning()
    ensures meaning { SubstitutionKeepsTheMeaning }
    ensures elements { SameBitsSameElements }
{}

/// Paths are equal where their roots and their steps are, and nowhere else.
#[tactic(auto, using(crate::proofs::PathsApart::same_ways_are_equal))]
pub fn paths_are_told_apart()
    ensures { SameWaysAreEqual }
{}

/// A table holds different paths, no more than a function may have, and a path keeps its number.
#[tactic(auto, using(crate::proofs::Numbers::table_holds_different_paths, crate::proofs::Numbers::table_stays_within, crate::proofs::Numbers::numbers_stay))]
pub fn paths_keep_their_numbers()
    ensures different { TableHoldsDifferentPaths }
    ensures limit { TableStaysWithinItsLimit }
    ensures numbers { NumbersStay }
{}

/// Paths have the paths in callers and the texts that stand beside them.
#[tactic(auto, using(crate::proofs::Examples::substitutions_are_as_written, crate::proofs::Examples::texts_are_as_written))]
pub fn paths_are_as_written()
    ensures substitutions { SubstitutionsAreAsWritten }
    ensures texts { TextsAreAsWritten }
{}

/// Lock expressions of attributes have the paths whose texts stand beside them, or none.
pub fn locks_are_as_written()
    ensures { LocksAreAsWritten }
{}

/// Where the arguments of a typed call have values, each argument's path says what its value is: that of a local, a constant, or where the
/// pointer points.
pub fn arguments_have_their_paths()
    ensures arguments { ArgumentsHaveTheirPaths }
    ensures calls { CallsSuitTheirPaths }
{}

/// Expressions are worth what stands beside them, or nothing where they trap.
pub fn values_are_as_written()
    ensures { ValuesAreAsWritten }
{}
