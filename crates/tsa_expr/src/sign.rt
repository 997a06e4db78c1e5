//! What the grammar sees of a token, by the names of types that are known.
ghost use Rattle.std.specs.Prelude.{◌≡◌, [], ◌∷◌};
ghost use Rattle.std.specs.List.{list_any};
ghost use Rattle.std.specs.Str.{bytes_eq};
ghost use Rattle.tsa_tree.specs.tokens.Signs.{sign_of as spec_sign, word_sign as spec_word, punctuator_sign, prefix as spec_prefix};
ghost use Rattle.tsa_expr.specs.TypeNames.{known};

use crate::aliases::Aliases;
use crate::words::reserved_sign;
use tsa_base::{Token, TokenKind};
use tsa_lex::is_reserved;
use tsa_tree::expr::{BinaryOp, UnaryOp};
use tsa_tree::sign::Sign;

/// The sign of a token.
#[tactic(auto, unfolding(tsa_tree::specs::tokens::Signs::sign_of))]
pub fn sign_of(token: &Token<'_>, aliases: Option<&Aliases>) -> Sign
    ensures { result ≡ spec_sign (known aliases.entry) token.now.kind token.now.text.now }
{
    match token.kind {
        TokenKind::Word => word_sign(token.text, aliases),
        TokenKind::Number { .. } => Sign::Number,
        TokenKind::Text => Sign::Text,
        TokenKind::Punct => punct_sign(token.text),
    }
}

/// Whether a word is the name of a type, which it is where an earlier item gave it as one (C11 6.7.8).
fn is_type(text: &[u8], aliases: Option<&Aliases>) -> bool
    ensures { result ≡ list_any (bytes_eq text.now) (known aliases.entry) }
{
    match aliases {
        Some(names) => names.has(text),
        None => false,
    }
}

/// The sign of a word. Most words are names. It stands apart, so that the sign of a punctuator is found with few registers.
#[inline(never)]
#[tactic(auto, unfolding(tsa_tree::specs::tokens::Signs::word_sign), using(tsa_tree::proofs::tokens::ReservedWords::not_listed))]
fn word_sign(text: &[u8], aliases: Option<&Aliases>) -> Sign
    ensures { result ≡ spec_word (known aliases.entry) text.now }
{
    if is_reserved(text) {
        match reserved_sign(text) {
            Some(sign) => sign,
            None => Sign::Other,
        }
    } else if is_type(text, aliases) {
        Sign::TypeName
    } else {
        Sign::Name
    }
}

/// The sign of a punctuator.
#[tactic(auto, unfolding(tsa_tree::specs::tokens::Signs::punctuator_sign, tsa_tree::specs::tokens::Signs::punctuator_signs))]
fn punct_sign(text: &[u8]) -> Sign
    ensures { result ≡ punctuator_sign text.now }
{
    match text {
        [first] => single_sign(*first),
        [first, second] => pair_sign(*first, *second),
        _ => Sign::Other,
    }
}

/// The sign of a punctuator of one byte.
#[tactic(auto, unfolding(tsa_tree::specs::tokens::Signs::punctuator_sign, tsa_tree::specs::tokens::Signs::punctuator_signs))]
fn single_sign(first: u8) -> Sign
    ensures { result ≡ punctuator_sign (first ∷ []) }
{
    match first {
        b'(' => Sign::Open,
        b')' => Sign::Close,
        b'[' => Sign::OpenBracket,
        b']' => Sign::CloseBracket,
        b'{' => Sign::OpenBrace,
        b'}' => Sign::CloseBrace,
        b';' => Sign::Semicolon,
        b':' => Sign::Colon,
        b',' => Sign::Comma,
        b'.' => Sign::Dot,
        b'!' => Sign::Not,
        b'~' => Sign::Flip,
        b'|' => Sign::Operator(BinaryOp::BitOr),
        b'^' => Sign::Operator(BinaryOp::BitXor),
        b'&' => Sign::Operator(BinaryOp::BitAnd),
        b'<' => Sign::Operator(BinaryOp::Less),
        b'>' => Sign::Operator(BinaryOp::More),
        b'+' => Sign::Operator(BinaryOp::Plus),
        b'-' => Sign::Operator(BinaryOp::Minus),
        b'*' => Sign::Operator(BinaryOp::Times),
        b'/' => Sign::Operator(BinaryOp::Divide),
        b'%' => Sign::Operator(BinaryOp::Remainder),
        b'=' => Sign::Equals,
        _ => Sign::Other,
    }
}

/// The sign of a punctuator of two bytes.
#[tactic(auto, unfolding(tsa_tree::specs::tokens::Signs::punctuator_sign, tsa_tree::specs::tokens::Signs::punctuator_signs))]
fn pair_sign(first: u8, second: u8) -> Sign
    ensures { result ≡ punctuator_sign (first ∷ second ∷ []) }
{
    match (first, second) {
        (b'-', b'>') => Sign::Arrow,
        (b'|', b'|') => Sign::Operator(BinaryOp::Or),
        (b'&', b'&') => Sign::Operator(BinaryOp::And),
        (b'=', b'=') => Sign::Operator(BinaryOp::Equal),
        (b'!', b'=') => Sign::Operator(BinaryOp::Unequal),
        (b'<', b'=') => Sign::Operator(BinaryOp::LessEqual),
        (b'>', b'=') => Sign::Operator(BinaryOp::MoreEqual),
        (b'+', b'=') => Sign::Assign(BinaryOp::Plus),
        (b'-', b'=') => Sign::Assign(BinaryOp::Minus),
        (b'*', b'=') => Sign::Assign(BinaryOp::Times),
        (b'/', b'=') => Sign::Assign(BinaryOp::Divide),
        (b'%', b'=') => Sign::Assign(BinaryOp::Remainder),
        (b'&', b'=') => Sign::Assign(BinaryOp::BitAnd),
        (b'|', b'=') => Sign::Assign(BinaryOp::BitOr),
        (b'^', b'=') => Sign::Assign(BinaryOp::BitXor),
        (b'+', b'+') => Sign::Step(BinaryOp::Plus),
        (b'-', b'-') => Sign::Step(BinaryOp::Minus),
        _ => Sign::Other,
    }
}

/// The prefix operator that a sign can be.
pub fn prefix(sign: Sign) -> Option<UnaryOp>
    ensures { result ≡ spec_prefix sign }
{
    match sign {
        Sign::Not => Some(UnaryOp::Not),
        Sign::Flip => Some(UnaryOp::Flip),
        Sign::Operator(BinaryOp::Minus) => Some(UnaryOp::Minus),
        Sign::Operator(BinaryOp::BitAnd) => Some(UnaryOp::Address),
        Sign::Operator(BinaryOp::Times) => Some(UnaryOp::Follow),
        _ => None,
    }
}
