//! Texts with their tokens, as the other tests of this crate read them, and what writes what a test shows.
ghost use Rattle.std.specs.Prelude.{◌≤◌, vec_len, IfOk};
ghost use Rattle.tsa_base.specs.declared.limits.TheConstants.{INPUT_LIMIT as LONGEST};
ghost use Rattle.tsa_tree.specs.tokens.Signs.{lexemes};
ghost use Rattle.tsa_tree.specs.tokens.Texts.{AreOfText};

use crate::units::{Row, Shown, others};
use std::alloc::Global;
use std::test::Fail;
use tsa_base::{INPUT_LIMIT, Span, Token, TokenKind};
use tsa_lex::lex;

/// The tokens of a text that is no longer than an input may be.
#[tactic(auto, using(tsa_tree::proofs::tokens::Texts::of_text))]
pub fn tokens_of<'s>(alloc: Global, text: &'s [u8]) -> Result<Vec<Token<'s>>, Fail>
    ensures few { IfOk result (λ tokens. vec_len tokens ≤ LONGEST) }
    ensures text { IfOk result (λ tokens. AreOfText (lexemes tokens.items)) }
{
    if text.len() > INPUT_LIMIT {
        return Err(Fail::new("the text is too long"));
    }
    Ok(lex(alloc, text)?)
}

/// Adds a piece.
pub fn put(out: &mut Vec<u8>, piece: &[u8]) -> Result<(), Fail> {
    Ok(out.extend_from_slice(piece)?)
}

/// Adds a number and a blank.
pub fn put_number(out: &mut Vec<u8>, number: u32) -> Result<(), Fail> {
    let digits = number.to_string(*out.allocator())?;
    put(out, digits.as_bytes())?;
    put(out, b" ")
}

/// Adds the bytes of a span in quotes.
pub fn put_span(out: &mut Vec<u8>, text: &[u8], span: Span) -> Result<(), Fail> {
    put(out, b"'")?;
    put(out, span.text_in(text))?;
    put(out, b"' ")
}

// The kind of a token.
fn kind_text(kind: TokenKind) -> &'static [u8] {
    match kind {
        TokenKind::Word => b"w",
        TokenKind::Number { unsigned: true, .. } => b"u",
        TokenKind::Number {
            unsigned: false,
            ..
        } => b"n",
        TokenKind::Text => b"t",
        TokenKind::Punct => b"",
    }
}

// A token of a text: its kind, the bytes of its span, and the value of a number.
fn put_token(out: &mut Vec<u8>, text: &[u8], token: Token<'_>) -> Result<(), Fail> {
    put(out, kind_text(token.kind))?;
    put_span(out, text, token.span)?;
    match token.kind {
        TokenKind::Number { value, .. } => put_number(out, value),
        _ => Ok(()),
    }
}

/// Each token of a text.
pub fn put_tokens(out: &mut Vec<u8>, text: &[u8], tokens: &[Token<'_>]) -> Result<(), Fail> {
    'each: for token in tokens {
        put_token(out, text, *token)?;
    }
    Ok(())
}

// Texts with their tokens.
const TOKENS: [Row; 17] = [
    (b"", b""),
    (b"int x;", b"w'int' w'x' ';' "),
    (b"a 017u\"b\"->", b"w'a' u'017u' 15 t'\"b\"' '->' "),
    (b"0xE+1", b"n'0xE' 14 '+' n'1' 1 "),
    (b"a+++b", b"w'a' '++' '+' w'b' "),
    (b"f(\"a b\")", b"w'f' '(' t'\"a b\"' ')' "),
    (b"a/**/b//c\nd", b"w'a' w'b' w'd' "),
    (b"a / *b", b"w'a' '/' '*' w'b' "),
    (b"# 1 \"a.h\"\n\t#include <a.h>\nint", b"w'int' "),
    (b"#\n#pragma once\n#line 3\n_a1", b"w'_a1' "),
    (b"/* # */ // #\nx", b"w'x' "),
    (b"\x0B\x0C\r\n ", b""),
    (
        b"<<= >>= ... -> ++ -- << >> <= >= == != && || += -= *= /= %= &= |= ^=",
        b"'<<=' '>>=' '...' '->' '++' '--' '<<' '>>' '<=' '>=' '==' '!=' '&&' '||' '+=' '-=' '*=' '/=' '%=' '&=' '|=' '^=' ",
    ),
    (
        b"{ } ( ) [ ] ; , . & * + - ~ ! / % < > ^ | ? : =",
        b"'{' '}' '(' ')' '[' ']' ';' ',' '.' '&' '*' '+' '-' '~' '!' '/' '%' '<' '>' '^' '|' '?' ':' '=' ",
    ),
    (
        b"<<== <<a <a >>=a >>> ..a .. ....",
        b"'<<=' '=' '<<' w'a' '<' w'a' '>>=' w'a' '>>' '>' '.' '.' w'a' '.' '.' '...' '.' ",
    ),
    (
        b"-= --> -a &&= *** (== <",
        b"'-=' '--' '>' '-' w'a' '&&' '=' '*' '*' '*' '(' '==' '<' ",
    ),
    (b"<<=", b"'<<=' "),
];

#[test]
fn a_text_has_its_tokens(rt: HostRuntime) -> Result<(), Fail> {
    let others = others(rt.alloc(), Shown::Tokens, &TOKENS)?;
    assert_eq!(rt; others.as_slice(), b"".as_slice());
    Ok(())
}
