//! What a text begins with.
ghost use Rattle.std.specs.Prelude.{◌≡◌, ◌∷◌, ◌<◌, ◌==◌, true, false, length, ◌≤◌, IfOk};
ghost use Rattle.tsa_base.specs.declared.limits.TheConstants.{INPUT_LIMIT};
ghost use Rattle.tsa_base.specs.Bytes.{is_letter, is_digit};
ghost use Rattle.tsa_base.specs.Tokens.{opens_line, front_of, token_front, slash_front, block_front, block_end, longest};
ghost use Rattle.tsa_lex.specs.Fronts.{seen};

use crate::numbers::number;
use crate::puncts::punct_len;
use crate::{gaps, scan};
use tsa_base::{LexCode, TokenKind};

/// The kind of a token, or none for what only separates tokens, and how many bytes it has.
pub type Front = (Option<TokenKind>, usize);

/// What a text begins with that isn't empty and stands after some bytes, or why nothing can begin there (C11 6.4).
pub fn front(before: &[u8], text: &[u8]) -> Result<Front, LexCode>
    requires some { 0 < length text.now }
    requires short { length text.now ≤ INPUT_LIMIT }
    ensures front { result ≡ seen (front_of (opens_line before.now) text.now) }
    ensures within { IfOk result (λ f. (0 < f.1) × (f.1 ≤ length text.now)) }
{
    first_piece(before, text[0], &text[1..], text)
}

// The same, where the first byte and the rest are at hand.
#[tactic(auto, using(crate::proofs::TokenFronts::blank_seen, crate::proofs::TokenFronts::slash_seen, crate::proofs::TokenFronts::other_seen))]
fn first_piece(before: &[u8], first: u8, rest: &[u8], text: &[u8]) -> Result<Front, LexCode>
    requires text { text.now ≡ first ∷ rest.now }
    requires short { length text.now ≤ INPUT_LIMIT }
    ensures { result ≡ seen (front_of (opens_line before.now) text.now) }
{
    if scan::is_blank(first) {
        return Ok((None, 1));
    }
    if first == b'/' {
        return slash(rest, text);
    }
    if first == b'#' {
        return sign(before, rest, text);
    }
    token(first, rest, text)
}

// A comment, or a punctuator that begins with a slash (C11 6.4.9).
fn slash(rest: &[u8], text: &[u8]) -> Result<Front, LexCode>
    requires text { text.now ≡ 47 ∷ rest.now }
    requires short { length text.now ≤ INPUT_LIMIT }
    ensures { result ≡ seen (slash_front (47 ∷ rest.now) rest.now) }
{
    if rest.is_empty() {
        return punct(b'/', rest);
    }
    slash_with(rest[0], &rest[1..], rest, text)
}

fn slash_with(next: u8, behind: &[u8], rest: &[u8], text: &[u8]) -> Result<Front, LexCode>
    requires rest { rest.now ≡ next ∷ behind.now }
    requires text { text.now ≡ 47 ∷ rest.now }
    requires short { length text.now ≤ INPUT_LIMIT }
    ensures { result ≡ seen (slash_front (47 ∷ next ∷ behind.now) (next ∷ behind.now)) }
{
    if next == b'*' {
        return block(behind);
    }
    if next == b'/' {
        return Ok((None, gaps::line_len(text)));
    }
    punct(b'/', rest)
}

fn block(inside: &[u8]) -> Result<Front, LexCode>
    requires { length inside.now ≤ INPUT_LIMIT }
    ensures { result ≡ seen (block_front (block_end inside.now)) }
{
    match gaps::block_end(inside) {
        Some(len) => Ok((None, len + 2)),
        None => Err(LexCode::LX2),
    }
}

// A preprocessing line that is skipped or refused, or a byte that begins nothing (C11 6.10).
#[tactic(auto, using(crate::proofs::TokenFronts::sign_skipped, crate::proofs::TokenFronts::sign_refused, crate::proofs::TokenFronts::sign_inside))]
fn sign(before: &[u8], rest: &[u8], text: &[u8]) -> Result<Front, LexCode>
    requires { text.now ≡ 35 ∷ rest.now }
    ensures { result ≡ seen (front_of (opens_line before.now) (35 ∷ rest.now)) }
{
    if !gaps::opens_line(before) {
        return Err(LexCode::LX1);
    }
    if !gaps::line_is_skipped(rest) {
        return Err(LexCode::LX4);
    }
    Ok((None, gaps::line_len(text)))
}

fn token(first: u8, rest: &[u8], text: &[u8]) -> Result<Front, LexCode>
    requires text { text.now ≡ first ∷ rest.now }
    requires short { length text.now ≤ INPUT_LIMIT }
    ensures { result ≡ seen (token_front (first ∷ rest.now) (longest (first ∷ rest.now))) }
{
    if scan::is_letter(first) {
        return word(first, rest);
    }
    if scan::is_digit(first) {
        return run(first, rest, text);
    }
    if first == b'"' {
        return quoted(rest);
    }
    punct(first, rest)
}

#[tactic(auto, using(crate::proofs::TokenFronts::word_seen))]
fn word(first: u8, rest: &[u8]) -> Result<Front, LexCode>
    requires letter { is_letter first ≡ true }
    requires short { length rest.now ≤ INPUT_LIMIT }
    ensures { result ≡ seen (token_front (first ∷ rest.now) (longest (first ∷ rest.now))) }
{
    Ok((Some(TokenKind::Word), scan::word_len(rest) + 1))
}

#[tactic(auto, using(crate::proofs::TokenFronts::number_seen, crate::proofs::TokenFronts::number_refused))]
fn run(first: u8, rest: &[u8], text: &[u8]) -> Result<Front, LexCode>
    requires no_letter { is_letter first ≡ false }
    requires digit { is_digit first ≡ true }
    requires text { text.now ≡ first ∷ rest.now }
    requires short { length text.now ≤ INPUT_LIMIT }
    ensures { result ≡ seen (token_front (first ∷ rest.now) (longest (first ∷ rest.now))) }
{
    let len = scan::run_len(rest) + 1;
    match number(&text[..len]) {
        Some(kind) => Ok((Some(kind), len)),
        None => Err(LexCode::LX3),
    }
}

#[tactic(auto, using(crate::proofs::TokenFronts::text_seen, crate::proofs::TokenFronts::text_refused, crate::proofs::TokenFronts::text_cut))]
fn quoted(rest: &[u8]) -> Result<Front, LexCode>
    requires { length rest.now ≤ INPUT_LIMIT }
    ensures { result ≡ seen (token_front (34 ∷ rest.now) (longest (34 ∷ rest.now))) }
{
    let len = scan::text_len(rest);
    if len == rest.len() {
        return Err(LexCode::LX5);
    }
    if rest[len] != b'"' {
        return Err(LexCode::LX5);
    }
    Ok((Some(TokenKind::Text), len + 2))
}

#[tactic(auto, using(crate::proofs::TokenFronts::punct_seen, crate::proofs::TokenFronts::punct_refused))]
fn punct(first: u8, rest: &[u8]) -> Result<Front, LexCode>
    requires no_letter { is_letter first ≡ false }
    requires no_digit { is_digit first ≡ false }
    requires no_quote { (first == 34) ≡ false }
    ensures { result ≡ seen (token_front (first ∷ rest.now) (longest (first ∷ rest.now))) }
{
    let len = punct_len(first, rest);
    if len == 0 {
        return Err(LexCode::LX1);
    }
    Ok((Some(TokenKind::Punct), len))
}
