//! All tokens of a text.
ghost use Rattle.std.specs.Prelude.{◌≡◌, ◌≤◌, ◌+◌, IfOk, IsErrOf, Ok, Err, length, take, drop, map, vec_len};
ghost use Rattle.tsa_base.specs.declared.limits.TheConstants.{INPUT_LIMIT};
ghost use Rattle.tsa_base.specs.Tokens.{tokens_of, lexeme};

use crate::front::front;
use std::alloc::Global;
use thiserror::Error;
use tsa_base::{LexCode, Span, Token, TokenKind};

/// Why a text has no tokens: its first bad byte with a code, or want of memory.
#[derive(Clone, Copy, Debug, PartialEq, Eq, Error)]
pub enum LexRefusal {
    #[error("a bad byte")]
    At { code: LexCode, byte: u32 },
    #[error("no memory")]
    NoMemory,
}

/// The tokens of a text of at most `INPUT_LIMIT` bytes, in order, each with its slice of the text (C11 6.4). `At` is
/// exactly the first byte that makes the text bad, with its code.
pub fn lex<'s>(alloc: Global, source: &'s [u8]) -> Result<Vec<Token<'s>>, LexRefusal>
    requires { length source.now ≤ INPUT_LIMIT }
    ensures tokens { IfOk result (λ tokens. tokens_of source.now ≡ Ok (map lexeme tokens.items)) }
    ensures count { IfOk result (λ tokens. vec_len tokens ≤ length source.now) }
    ensures bad { (code byte : _) → IsErrOf result (LexRefusal.At code byte)
        → tokens_of source.now ≡ Err (record { code = code; byte = byte }) }
{
    let mut tokens = Vec::new(alloc);
    let mut at = 0;
    'pieces: while at < source.len() {
        let (kind, len) = match front(&source[..at], &source[at..]) {
            Ok(piece) => piece,
            Err(code) => {
                let byte = at as u32;
                return Err(LexRefusal::At { code, byte });
            }
        };
        let from = at;
        at += len;
        let Some(kind) = kind else {
            continue;
        };
        let token = token_at(source, from, len, kind);
        if tokens.push(token).is_err() {
            return Err(LexRefusal::NoMemory);
        }
    }
    Ok(tokens)
}

// The token of a kind and a length that stands at a place.
fn token_at<'s>(source: &'s [u8], at: usize, len: usize, kind: TokenKind) -> Token<'s>
    requires there { at + len ≤ length source.now }
    requires short { length source.now ≤ INPUT_LIMIT }
    ensures { lexeme result ≡ record {
      kind = kind;
      text = take len (drop at source.now);
      span = record { from = at; to = at + len };
    } }
{
    Token {
        kind,
        text: &source[at..at + len],
        span: Span {
            from: at as u32,
            to: (at + len) as u32,
        },
    }
}
