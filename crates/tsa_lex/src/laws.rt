//! What holds of the tokens of a text.

ghost use Rattle.tsa_lex.specs.Quick.{QuickTokensAreTokens};

/// The tokens that are worked out byte by byte, with no front tried twice, are the tokens of the text: worked examples begin
/// with them.
#[tactic(auto, using(crate::proofs::Quick::tokens_are))]
pub fn quick_tokens_are_tokens()
    ensures { QuickTokensAreTokens }
{}
