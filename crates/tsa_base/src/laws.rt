//! Laws above the definition of tokens, and the numbers of the limits.
ghost use Rattle.tsa_base.specs.TokenLaws.{TokensAreAsWritten, NextTokenIsTheLongest};
ghost use Rattle.tsa_base.specs.PieceLaws.{TextsFallIntoPieces};
ghost use Rattle.tsa_base.specs.LimitLaws.{LimitsAreAsWritten};

/// Texts of each form have the tokens, and those of each refusal the first bad byte, that are written beside them.
#[tactic(auto, using(crate::proofs::TokenExamples::tokens_are_as_written))]
pub fn tokens_are_as_written()
    ensures { TokensAreAsWritten }
{}

/// The next token is the longest front that is a token (C11 6.4p4).
#[tactic(auto, using(crate::proofs::Longest::next_token_is_the_longest))]
pub fn the_next_token_is_the_longest()
    ensures { NextTokenIsTheLongest }
{}

/// A text is its pieces one after another, in one way only, or it is up to its first bad byte, where none begins: the
/// tokens stand in it one after the other, and nothing but blanks, comments and skipped lines is between them.
#[tactic(auto, using(crate::proofs::TokenPlaces::texts_fall_into_pieces))]
pub fn texts_fall_into_pieces()
    ensures { TextsFallIntoPieces }
{}

/// Each limit is the number that is written here.
pub fn limits_are_as_written()
    ensures { LimitsAreAsWritten }
{}
