//! Laws of constants, and examples.
ghost use Rattle.tsa_tree.specs.types.Scopes.{Scope};
ghost use Rattle.tsa_rules_roles.specs.Examples.{AnswersAreAsWritten, ConstantsAreAsWritten};
ghost use Rattle.tsa_rules_roles.specs.Laws.{TermsHaveTheConstants, TermsHaveTheValues};

/// The term of an expression is a constant exactly where the expression is one, and the same; so where the expression has a type, the
/// term's constant is what the expression is worth.
#[tactic(auto, using(crate::proofs::Constants::terms_have_the_constants, crate::proofs::Constants::terms_have_the_values))]
pub fn terms_have_the_values()
    ensures constants { TermsHaveTheConstants }
    ensures values { TermsHaveTheValues }
{}

/// Expressions have the constants that stand beside them.
pub fn constants_are_as_written()
    ensures { (here : Scope) → ConstantsAreAsWritten here }
{}

/// Returns give the answers that stand beside them.
pub fn answers_are_as_written()
    ensures { (here : Scope) → AnswersAreAsWritten here }
{}
