//! The law of the names that a body declares.
ghost use Rattle.tsa_warn_text.specs.DeclaredNames.{NamesAndKindsAreTheLabels};

/// The names that the points of a body declare, with the kinds of its locals, are the labels of the locals that it declares.
#[tactic(auto, using(crate::proofs::DeclaredLabels::names_and_kinds))]
pub fn names_and_kinds_are_the_labels()
    ensures { NamesAndKindsAreTheLabels }
{}
