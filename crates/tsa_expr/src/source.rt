//! What is read, what the reading needs, and what stands at a place of the tokens.
ghost use Rattle.std.specs.Prelude.{◌≡◌, ◌≤◌, length, slice_get};
ghost use Rattle.tsa_base.specs.declared.limits.TheConstants.{INPUT_LIMIT};
ghost use Rattle.tsa_tree.specs.tokens.Signs.{lexemes, kind_in};

use crate::aliases::Aliases;
use crate::meaning::meaning_of;
use crate::sign::sign_of;
use bumpalo::Bump;
use std::alloc::AllocError;
use tsa_base::{Span, Token, TokenKind};
use tsa_tree::expr::Name;
use tsa_tree::sign::{Meaning, Sign};

/// The tokens of an input, the names of types that are known there, and the arena for what is read.
#[derive(Clone, Copy)]
pub struct Reader<'a, 't> {
    pub bump: &'a Bump,
    pub tokens: &'t [Token<'t>],
    pub aliases: Option<&'t Aliases>,
    pub ghost room: { length tokens.now ≤ INPUT_LIMIT },
}

impl<'a, 't> Reader<'a, 't> {
    ghost use Rattle.std.specs.Prelude.{◌≢◌, ◌<◌, IfOk};
    ghost use Rattle.tsa_tree.specs.expressions.Shapes.{name_shape};
    ghost use Rattle.tsa_tree.specs.tokens.Signs.{sign_at, span_at, span_over, identifier_at, value_at, unsigned_at, meaning_at};
    ghost use Rattle.tsa_tree.specs.tokens.Signs.{is_word_at};
    ghost use Rattle.tsa_expr.specs.Source.{input, named};

    /// The sign at a place, past the last token the end's.
    #[tactic(auto, unfolding(tsa_tree::specs::tokens::Signs::sign_at))]
    pub fn sign(self, at: u32) -> Sign
        ensures is { result ≡ sign_at (input self.entry) (named self.entry) at }
        ensures seen { result ≢ Sign.End → at < length self.entry.tokens.now }
    {
        match self.tokens.get(at as usize) {
            Some(token) => sign_of(token, self.aliases),
            None => Sign::End,
        }
    }

    /// The span of a token.
    #[tactic(auto, unfolding(tsa_tree::specs::tokens::Signs::span_at))]
    pub fn span(self, at: u32) -> Span
        ensures { result ≡ span_at (input self.entry) at }
    {
        match self.tokens.get(at as usize) {
            Some(token) => token.span,
            None => Span { from: 0, to: 0 },
        }
    }

    /// From the first of some tokens to the last one before `to`.
    #[tactic(auto, unfolding(tsa_tree::specs::tokens::Signs::span_over))]
    pub fn over(self, from: u32, to: u32) -> Span
        ensures { result ≡ span_over (input self.entry) from to }
    {
        Span {
            from: self.span(from).from,
            to: self.span(to.saturating_sub(1)).to,
        }
    }

    /// The name at a place, kept in the arena.
    #[tactic(auto, unfolding(tsa_tree::specs::tokens::Signs::identifier_at))]
    pub fn name(self, at: u32) -> Result<Name<'a>, AllocError>
        ensures { IfOk result (λ name. name_shape name ≡ identifier_at (input self.entry) at) }
    {
        match self.tokens.get(at as usize) {
            Some(token) => {
                let text: &'a [u8] = self.bump.try_alloc_slice_copy(token.text)?;
                Ok(Name {
                    text,
                    span: token.span,
                })
            }
            None => {
                let span = Span { from: 0, to: 0 };
                Ok(Name { text: &[], span })
            }
        }
    }

    /// Whether the token at a place is a word, whatever it means.
    #[tactic(auto, unfolding(tsa_tree::specs::tokens::Signs::is_word_at))]
    pub fn is_word(self, at: u32) -> bool
        ensures { result ≡ is_word_at (input self.entry) at }
    {
        match kind_at(self.tokens, at) {
            TokenKind::Word => true,
            _ => false,
        }
    }

    /// What the text at a place means in a list of attributes.
    #[tactic(auto, unfolding(tsa_tree::specs::tokens::Signs::meaning_at))]
    pub fn meaning(self, at: u32) -> Meaning
        ensures { result ≡ meaning_at (input self.entry) at }
    {
        match self.tokens.get(at as usize) {
            Some(token) => meaning_of(token.text),
            None => Meaning::Ignored,
        }
    }

    /// What the number at a place is worth, and whether it is unsigned.
    #[tactic(auto, unfolding(tsa_tree::specs::tokens::Signs::value_at, tsa_tree::specs::tokens::Signs::unsigned_at))]
    pub fn number(self, at: u32) -> (u32, bool)
        ensures value { result.0 ≡ value_at (input self.entry) at }
        ensures unsigned { result.1 ≡ unsigned_at (input self.entry) at }
    {
        match kind_at(self.tokens, at) {
            TokenKind::Number { value, unsigned } => (value, unsigned),
            _ => (0, false),
        }
    }
}

/// What the token at a place is, past the last one a punctuator.
fn kind_at(tokens: &[Token<'_>], at: u32) -> TokenKind
    ensures { result ≡ kind_in (slice_get (lexemes tokens.now) at) }
{
    match tokens.get(at as usize) {
        Some(token) => token.kind,
        None => TokenKind::Punct,
    }
}
