//! What stands in the parentheses of statements, and the tokens that hold them together (C11 6.8.4, 6.8.5).
ghost use Rattle.std.specs.Prelude.{◌≡◌, ◌+◌, ◌≤◌, ◌<◌, length, true, IfOk};
ghost use Rattle.tsa_tree.specs.declared.sign.Keyword.TheVariants as key;
ghost use Rattle.tsa_tree.specs.Rows.{a_close, a_colon, a_keyword, sees};
ghost use Rattle.tsa_expr.specs.Source.{input, named};
ghost use Rattle.tsa_expr.specs.Gives.{Gives};
ghost use Rattle.tsa_decl_declarators.specs.Outcomes.{one_token};
ghost use Rattle.tsa_attr.specs.Readings.{passed};
ghost use Rattle.tsa_unit_simple.specs.Outcomes.{test_at, value_or_none_at};
ghost use Rattle.tsa_unit_simple.specs.Readings.{seen_tested, seen_value};

use tsa_decl_declarators::{kept_in, open, semicolon};
use tsa_expr::{Reader, SyntaxCode, SyntaxRefusal, refuse};
use tsa_tree::expr::Expr;
use tsa_tree::sign::{Keyword, Sign};

/// An expression that was in parentheses, and the token after them.
#[derive(Clone, Copy)]
pub struct Tested<'a> {
    pub tree: &'a Expr<'a>,
    pub next: u32,
}

/// An expression where one is read, and the token after its `;`.
#[derive(Clone, Copy)]
pub struct Value<'a> {
    pub tree: Option<&'a Expr<'a>>,
    pub next: u32,
}

/// Behind the parenthesis that has to stand at a place and closes a construct.
#[tactic(auto, using(crate::proofs::ConditionLaws::closings))]
pub fn close(reader: Reader<'_, '_>, at: u32) -> Result<u32, SyntaxRefusal>
    ensures gives { Gives passed result (one_token (input reader.entry) (a_close (named reader.entry)) at) }
    ensures ends { IfOk result (λ next. (next ≡ at + 1) × (next ≤ length reader.entry.tokens.now)) }
{
    match reader.sign(at) {
        Sign::Close => Ok(at + 1),
        _ => Err(refuse(SyntaxCode::SY1, at)),
    }
}

/// Behind the colon that has to stand at a place.
#[tactic(auto, using(crate::proofs::ConditionLaws::colons))]
pub fn colon(reader: Reader<'_, '_>, at: u32) -> Result<u32, SyntaxRefusal>
    ensures gives { Gives passed result (one_token (input reader.entry) (a_colon (named reader.entry)) at) }
    ensures ends { IfOk result (λ next. (next ≡ at + 1) × (next ≤ length reader.entry.tokens.now)) }
{
    match reader.sign(at) {
        Sign::Colon => Ok(at + 1),
        _ => Err(refuse(SyntaxCode::SY1, at)),
    }
}

/// Behind the `while` that has to stand after the body of a `do`.
#[tactic(auto, using(crate::proofs::ConditionLaws::whiles))]
pub fn while_word(reader: Reader<'_, '_>, at: u32) -> Result<u32, SyntaxRefusal>
    ensures gives { Gives passed result (one_token (input reader.entry) (a_keyword (named reader.entry) key.While) at) }
    ensures ends { IfOk result (λ next. (next ≡ at + 1) × (next ≤ length reader.entry.tokens.now)) }
{
    match reader.sign(at) {
        Sign::Keyword(Keyword::While) => Ok(at + 1),
        _ => Err(refuse(SyntaxCode::SY1, at)),
    }
}

/// Whether `else` stands at a place.
pub fn is_else_at(reader: Reader<'_, '_>, at: u32) -> bool
    ensures is { result ≡ sees (input reader.entry) (a_keyword (named reader.entry) key.Else) at }
    ensures inside { result ≡ true → at < length reader.entry.tokens.now }
{
    match reader.sign(at) {
        Sign::Keyword(Keyword::Else) => true,
        _ => false,
    }
}

/// A test or the value of a `switch`, in its parentheses.
#[tactic(auto, using(crate::proofs::ConditionLaws::tests))]
pub fn test<'a>(reader: Reader<'a, '_>, at: u32, depth: u32) -> Result<Tested<'a>, SyntaxRefusal>
    ensures gives { Gives seen_tested result (test_at (input reader.entry) (named reader.entry) depth at) }
    ensures ends { IfOk result (λ r. (at < r.next) × (r.next ≤ length reader.entry.tokens.now)) }
{
    let inside = open(reader, at, depth)?;
    let inner = reader.expression(inside, depth + 1, 0)?;
    let next = close(reader, inner.next)?;
    let tree = kept_in(reader.bump, inner.tree)?;
    Ok(Tested { tree, next })
}

/// An expression or nothing, and the `;` after it.
#[tactic(auto, using(crate::proofs::ConditionLaws::values))]
pub fn value_or_none<'a>(
    reader: Reader<'a, '_>,
    at: u32,
    depth: u32,
) -> Result<Value<'a>, SyntaxRefusal>
    ensures gives { Gives seen_value result (value_or_none_at (input reader.entry) (named reader.entry) depth at) }
    ensures ends { IfOk result (λ r. (at < r.next) × (r.next ≤ length reader.entry.tokens.now)) }
{
    if let Sign::Semicolon = reader.sign(at) {
        return Ok(Value {
            tree: None,
            next: at + 1,
        });
    }
    let inner = reader.expression(at, depth, 0)?;
    let next = semicolon(reader, inner.next)?;
    let tree = kept_in(reader.bump, inner.tree)?;
    Ok(Value {
        tree: Some(tree),
        next,
    })
}
