//! Tokens, the ranges of bytes where they stand, and why a text has none (C11 6.4).

/// The bytes of an input from one place on up to before another.
#[derive(Clone, Copy, Debug, PartialEq, Eq)]
pub struct Span {
    pub from: u32,
    pub to: u32,
}

impl Span {
    ghost use Rattle.std.specs.Prelude.{◌≡◌};
    ghost use Rattle.tsa_base.specs.Spans.{span_text};

    /// The bytes of the span, none where it doesn't lie in the input.
    #[tactic(auto, unfolding(crate::specs::Spans::span_text))]
    pub fn text_in(self, bytes: &[u8]) -> &[u8]
        ensures { result.now ≡ span_text bytes.now self }
    {
        let from = self.from as usize;
        let to = self.to as usize;
        if from <= to && to <= bytes.len() {
            &bytes[from..to]
        } else {
            &[]
        }
    }
}

/// What a token is. A number without a suffix that is an `int` isn't `unsigned` (C11 6.4.4.1).
#[derive(Clone, Copy, Debug, PartialEq, Eq)]
pub enum TokenKind {
    Word,
    Number { value: u32, unsigned: bool },
    Text,
    Punct,
}

/// A token with its bytes and where they stand.
#[derive(Clone, Copy, Debug)]
pub struct Token<'s> {
    pub kind: TokenKind,
    pub text: &'s [u8],
    pub span: Span,
}

/// Why a text has no tokens. Each code stands at the first byte of what is refused.
#[derive(Clone, Copy, Debug, PartialEq, Eq)]
pub enum LexCode {
    /// The byte starts no token.
    LX1,
    /// A comment has no end.
    LX2,
    /// The run of a number is malformed, or its value is too wide.
    LX3,
    /// A preprocessing line isn't one of those that are skipped.
    LX4,
    /// A text has no closing quote.
    LX5,
}
