//! Types are read, up to before their declarator (C11 6.7.2, 6.7.3).
ghost use Rattle.std.specs.Prelude.{◌≡◌, ◌≢◌, ◌≤◌, ◌<◌, length, Ok, IfOk, IsOkAnd};
ghost use Rattle.tsa_tree.specs.declarations.Shapes.{base_shape};
ghost use Rattle.tsa_tree.specs.Reads.{read};
ghost use Rattle.tsa_tree.specs.Rows.{a_specifier, specifier as specifier_call, a_keyword, sees};
ghost use Rattle.tsa_tree.specs.tokens.Signs.{sign_at};
ghost use Rattle.tsa_tree.specs.declared.sign.Keyword.TheVariants as key;
ghost use Rattle.tsa_expr.specs.Source.{input, named};
ghost use Rattle.tsa_expr.specs.Gives.{Gives};
ghost use Rattle.tsa_decl_declarators.specs.Outcomes.{consts_at, behind_int as spec_behind_int, base_by, specified_at as spec_specified};
ghost use Rattle.tsa_decl_declarators.specs.Readings.{seen_base, seen_specified};

use crate::view::{is_const, is_int_at, tag};
use tsa_expr::{Reader, SyntaxCode, SyntaxRefusal, refuse};
use tsa_tree::decl::BaseType;
use tsa_tree::sign::{Keyword, Sign};

/// A type before its declarator, and the token after it.
#[derive(Clone, Copy)]
pub struct Specified<'a> {
    pub base: BaseType<'a>,
    pub is_const: bool,
    pub next: u32,
}

/// Whether `const` stands at a place, the token after it and those that follow it, and that token's sign.
#[derive(Clone, Copy)]
pub struct ConstWords {
    pub is_const: bool,
    pub next: u32,
    pub sign: Sign,
}

/// A base, and the token after it.
#[derive(Clone, Copy)]
pub struct BaseReading<'a> {
    pub base: BaseType<'a>,
    pub next: u32,
}

/// A type: a base with `const` before and after it.
#[tactic(auto, using(crate::proofs::TypeLaws::specifiers))]
pub fn specifier<'a>(reader: Reader<'a, '_>, at: u32) -> Result<Specified<'a>, SyntaxRefusal>
    ensures gives { Gives seen_specified result (read (input reader.entry) a_specifier (specifier_call (named reader.entry)) at) }
    ensures ends { IfOk result (λ r. (at < r.next) × (r.next ≤ length reader.entry.tokens.now)) }
{
    let consts = consts(reader, at);
    let base = base(reader, consts.next, consts.sign)?;
    let behind = specified_at(reader, base.base, base.next);
    if consts.is_const {
        return Ok(Specified {
            base: behind.base,
            is_const: true,
            next: behind.next,
        });
    }
    Ok(behind)
}

/// Any number of `const`.
#[tactic(auto, using(crate::proofs::TypeLaws::skips))]
fn consts(reader: Reader<'_, '_>, at: u32) -> ConstWords
    ensures first { result.is_const ≡ sees (input reader.entry) (a_keyword (named reader.entry) key.Const) at }
    ensures is { consts_at (input reader.entry) (named reader.entry) at ≡ Ok (tt, result.next) }
    ensures there { result.sign ≡ sign_at (input reader.entry) (named reader.entry) result.next }
    ensures seen { result.sign ≢ Sign.End → result.next < length reader.entry.tokens.now }
    ensures ends { at ≤ result.next }
    ensures within { at ≤ length reader.entry.tokens.now → result.next ≤ length reader.entry.tokens.now }
{
    let first = reader.sign(at);
    let mut next = at;
    let mut sign = first;
    'consts: while is_const(sign) {
        next += 1;
        sign = reader.sign(next);
    }
    ConstWords {
        is_const: is_const(first),
        next,
        sign,
    }
}

/// A type whose base was read up to before a place, where `const` may follow.
#[tactic(auto, using(crate::proofs::TypeLaws::endings))]
pub fn specified_at<'a>(reader: Reader<'_, '_>, base: BaseType<'a>, at: u32) -> Specified<'a>
    ensures is { spec_specified (input reader.entry) (named reader.entry) (base_shape base.entry) at ≡ Ok (seen_specified result) }
    ensures ends { at ≤ result.next }
    ensures within { at ≤ length reader.entry.tokens.now → result.next ≤ length reader.entry.tokens.now }
{
    let consts = consts(reader, at);
    Specified {
        base,
        is_const: consts.is_const,
        next: consts.next,
    }
}

/// Behind an `int` that may stand at a place.
#[tactic(auto, using(crate::proofs::TypeLaws::ints))]
fn behind_int(reader: Reader<'_, '_>, at: u32) -> u32
    ensures is { result ≡ spec_behind_int (input reader.entry) (named reader.entry) at }
    ensures ends { at ≤ result }
    ensures within { at ≤ length reader.entry.tokens.now → result ≤ length reader.entry.tokens.now }
{
    if is_int_at(reader, at) { at + 1 } else { at }
}

/// A base, by its first sign (C11 6.7.2).
#[tactic(auto, using(crate::proofs::TypeLaws::bases))]
fn base<'a>(reader: Reader<'a, '_>, at: u32, sign: Sign) -> Result<BaseReading<'a>, SyntaxRefusal>
    requires within { sign ≢ Sign.End → at < length reader.tokens.now }
    ensures gives { Gives seen_base result (base_by (input reader.entry) (named reader.entry) at sign) }
    ensures ends { IfOk result (λ r. (at < r.next) × (r.next ≤ length reader.entry.tokens.now)) }
{
    match sign {
        Sign::Keyword(word) => keyword_base(reader, at, word),
        Sign::TypeName => {
            let name = reader.name(at)?;
            base_before(BaseType::Alias(name), at + 1)
        }
        _ => Err(refuse(SyntaxCode::SY1, at)),
    }
}

/// A base that begins with a keyword.
#[tactic(auto, using(crate::proofs::TypeLaws::words))]
fn keyword_base<'a>(
    reader: Reader<'a, '_>,
    at: u32,
    word: Keyword,
) -> Result<BaseReading<'a>, SyntaxRefusal>
    requires within { at < length reader.tokens.now }
    ensures gives { Gives seen_base result (base_by (input reader.entry) (named reader.entry) at (Sign.Keyword word)) }
    ensures ends { IfOk result (λ r. (at < r.next) × (r.next ≤ length reader.entry.tokens.now)) }
{
    let next = at + 1;
    match word {
        Keyword::Int => base_before(BaseType::Int, next),
        Keyword::Signed => base_before(BaseType::Int, behind_int(reader, next)),
        Keyword::Unsigned => base_before(BaseType::Unsigned, behind_int(reader, next)),
        Keyword::Void => base_before(BaseType::Void, next),
        Keyword::Struct => {
            let tag = tag(reader, next)?;
            base_before(BaseType::Structure(tag), next + 1)
        }
        Keyword::Enum => {
            let tag = tag(reader, next)?;
            base_before(BaseType::Enumerated(tag), next + 1)
        }
        _ => Err(refuse(SyntaxCode::SY1, at)),
    }
}

/// A base that ends before a token.
fn base_before<'a>(base: BaseType<'a>, next: u32) -> Result<BaseReading<'a>, SyntaxRefusal>
    ensures is { IsOkAnd result (λ r. (r.base ≡ base.entry) × (r.next ≡ next)) }
{
    Ok(BaseReading { base, next })
}
