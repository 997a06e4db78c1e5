//! What declarations see at a place of the tokens.
ghost use Rattle.std.specs.Prelude.{◌≡◌, ◌≢◌, ◌+◌, ◌≤◌, ◌<◌, ◌&&◌, true, length, IfOk};
ghost use Rattle.tsa_base.specs.declared.limits.TheConstants.{NESTING_LIMIT};
ghost use Rattle.tsa_tree.specs.Rows.{a_keyword, is_keyword, a_semicolon, a_close_brace, sees};
ghost use Rattle.tsa_tree.specs.tokens.Signs.{sign_at, is_void, is_close};
ghost use Rattle.tsa_tree.specs.declared.sign.Keyword.TheVariants as key;
ghost use Rattle.tsa_expr.specs.Source.{input, named};
ghost use Rattle.tsa_expr.specs.Gives.{Gives};
ghost use Rattle.tsa_decl_declarators.specs.Outcomes.{name_at, tag_at, one_token, opening, opening_brace};
ghost use Rattle.tsa_attr.specs.Readings.{passed};
ghost use Rattle.tsa_decl_declarators.specs.Readings.{seen_name};

use tsa_base::NESTING_LIMIT;
use tsa_expr::{Reader, SyntaxCode, SyntaxRefusal, refuse};
use tsa_tree::expr::Name;
use tsa_tree::sign::{Keyword, Sign};

/// Whether a sign is that of `const`.
pub fn is_const(sign: Sign) -> bool
    ensures is { result ≡ is_keyword key.Const sign }
    ensures inside { result ≡ true → sign ≢ Sign.End }
{
    match sign {
        Sign::Keyword(Keyword::Const) => true,
        _ => false,
    }
}

/// Whether `int` stands at a place.
pub fn is_int_at(reader: Reader<'_, '_>, at: u32) -> bool
    ensures is { result ≡ sees (input reader.entry) (a_keyword (named reader.entry) key.Int) at }
    ensures inside { result ≡ true → at < length reader.entry.tokens.now }
{
    match reader.sign(at) {
        Sign::Keyword(Keyword::Int) => true,
        _ => false,
    }
}

/// Whether a closing brace stands at a place.
pub fn is_close_brace_at(reader: Reader<'_, '_>, at: u32) -> bool
    ensures is { result ≡ sees (input reader.entry) (a_close_brace (named reader.entry)) at }
    ensures inside { result ≡ true → at < length reader.entry.tokens.now }
{
    match reader.sign(at) {
        Sign::CloseBrace => true,
        _ => false,
    }
}

/// The name at a place, kept in the arena.
#[tactic(auto, using(crate::proofs::TokenLaws::names))]
pub fn name<'a>(reader: Reader<'a, '_>, at: u32) -> Result<Name<'a>, SyntaxRefusal>
    ensures gives { Gives (seen_name at) result (name_at (input reader.entry) (named reader.entry) at) }
    ensures inside { IfOk result (λ name. at < length reader.entry.tokens.now) }
{
    let Sign::Name = reader.sign(at) else {
        return Err(refuse(SyntaxCode::SY1, at));
    };
    let name = reader.name(at)?;
    Ok(name)
}

/// The tag at a place, kept in the arena (C11 6.2.3): a name or the name of a type.
#[tactic(auto, using(crate::proofs::TokenLaws::tags))]
pub fn tag<'a>(reader: Reader<'a, '_>, at: u32) -> Result<Name<'a>, SyntaxRefusal>
    ensures gives { Gives (seen_name at) result (tag_at (input reader.entry) (named reader.entry) at) }
    ensures inside { IfOk result (λ name. at < length reader.entry.tokens.now) }
{
    match reader.sign(at) {
        Sign::Name | Sign::TypeName => {
            let name = reader.name(at)?;
            Ok(name)
        }
        _ => Err(refuse(SyntaxCode::SY1, at)),
    }
}

/// Behind the `;` that has to stand at a place.
#[tactic(auto, using(crate::proofs::TokenLaws::semicolons))]
pub fn semicolon(reader: Reader<'_, '_>, at: u32) -> Result<u32, SyntaxRefusal>
    ensures gives { Gives passed result (one_token (input reader.entry) (a_semicolon (named reader.entry)) at) }
    ensures ends { IfOk result (λ next. (next ≡ at + 1) × (next ≤ length reader.entry.tokens.now)) }
{
    match reader.sign(at) {
        Sign::Semicolon => Ok(at + 1),
        _ => Err(refuse(SyntaxCode::SY1, at)),
    }
}

/// Behind the parenthesis that has to stand at a place and opens a construct, where `depth` are open.
#[tactic(auto, using(crate::proofs::TokenLaws::openings))]
pub fn open(reader: Reader<'_, '_>, at: u32, depth: u32) -> Result<u32, SyntaxRefusal>
    ensures gives { Gives passed result (opening (input reader.entry) (named reader.entry) depth at) }
    ensures ends { IfOk result (λ next. (next ≡ at + 1) × (next ≤ length reader.entry.tokens.now)) }
    ensures shallow { IfOk result (λ next. depth < NESTING_LIMIT) }
{
    let Sign::Open = reader.sign(at) else {
        return Err(refuse(SyntaxCode::SY1, at));
    };
    if depth >= NESTING_LIMIT {
        return Err(refuse(SyntaxCode::LM2, at));
    }
    Ok(at + 1)
}

/// Behind the brace that has to stand at a place and opens a construct, where `depth` are open.
#[tactic(auto, using(crate::proofs::TokenLaws::opening_braces))]
pub fn open_brace(reader: Reader<'_, '_>, at: u32, depth: u32) -> Result<u32, SyntaxRefusal>
    ensures gives { Gives passed result (opening_brace (input reader.entry) (named reader.entry) depth at) }
    ensures ends { IfOk result (λ next. (next ≡ at + 1) × (next ≤ length reader.entry.tokens.now)) }
    ensures shallow { IfOk result (λ next. depth < NESTING_LIMIT) }
{
    let Sign::OpenBrace = reader.sign(at) else {
        return Err(refuse(SyntaxCode::SY1, at));
    };
    if depth >= NESTING_LIMIT {
        return Err(refuse(SyntaxCode::LM2, at));
    }
    Ok(at + 1)
}
