//! The expression that a word spells.
ghost use Rattle.std.specs.Prelude.{◌≡◌, ◌≤◌, List, [], length, vec_len, Some, None, Ok, IfOk, IfSome};
ghost use Rattle.tsa_base.specs.Tokens.{Lexeme, tokens_of};
ghost use Rattle.tsa_base.specs.declared.limits.TheConstants.{INPUT_LIMIT as LONGEST};
ghost use Rattle.tsa_tool_starts.specs.Words.{IsWhole, IsWordOf};
ghost use Rattle.tsa_tree.specs.expressions.Shapes.{shape};
ghost use Rattle.tsa_tree.specs.expressions.Syntax.{Expression};
ghost use Rattle.tsa_tree.specs.tokens.Signs.{lexemes};

use bumpalo::Bump;
use std::alloc::Global;
use tsa_base::{INPUT_LIMIT, NoMemory, Token};
use tsa_expr::{SyntaxRefusal, read_expr};
use tsa_lex::{LexRefusal, lex};
use tsa_tree::expr::Expr;

/// The tokens of a word, or none where one of its bytes is bad.
fn tokens_in<'s>(alloc: Global, word: &'s [u8]) -> Result<Option<Vec<Token<'s>>>, NoMemory>
    requires short { length word.now ≤ LONGEST }
    ensures tokens { IfOk result (λ found. IfSome found (λ tokens. tokens_of word.now ≡ Ok (lexemes tokens.items))) }
    ensures count { IfOk result (λ found. IfSome found (λ tokens. vec_len tokens ≤ LONGEST)) }
    ensures bad { IfOk result (λ found. found ≡ None → (tokens : List Lexeme) → tokens_of word.now ≡ Ok tokens → ⊥) }
{
    match lex(alloc, word) {
        Ok(tokens) => Ok(Some(tokens)),
        Err(LexRefusal::At { .. }) => Ok(None),
        Err(LexRefusal::NoMemory) => Err(NoMemory),
    }
}

/// The expression that all of some tokens spell, or none where they spell none, or one that is too deep.
fn whole<'a>(bump: &'a Bump, tokens: &[Token<'_>]) -> Result<Option<Expr<'a>>, NoMemory>
    requires room { length tokens.now ≤ LONGEST }
    ensures whole { IfOk result (λ found. IfSome found (λ e. IsWhole (lexemes tokens.now) (shape e))) }
    ensures none { IfOk result (λ found. found ≡ None → (e : Expression) → IsWhole (lexemes tokens.now) e → ⊥) }
{
    match read_expr(bump, tokens, 0, 0) {
        Ok((expr, next)) => {
            if next as usize == tokens.len() {
                Ok(Some(expr))
            } else {
                Ok(None)
            }
        }
        Err(SyntaxRefusal::At { .. }) => Ok(None),
        Err(SyntaxRefusal::Function { .. }) => Ok(None),
        Err(SyntaxRefusal::NoMemory) => Err(NoMemory),
    }
}

/// The expression that a word spells, in an arena, or none where it spells none.
pub fn expression_in<'a>(
    alloc: Global,
    bump: &'a Bump,
    word: &[u8],
) -> Result<Option<Expr<'a>>, NoMemory>
    ensures word { IfOk result (λ found. IfSome found (λ e. IsWordOf word.now (shape e))) }
    ensures none { IfOk result (λ found. found ≡ None → (e : Expression) → IsWordOf word.now e → ⊥) }
{
    if word.len() > INPUT_LIMIT {
        return Ok(None);
    }
    match tokens_in(alloc, word)? {
        Some(tokens) => whole(bump, &tokens),
        None => Ok(None),
    }
}
