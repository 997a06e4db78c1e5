//! What attributes see at a place of the tokens.
ghost use Rattle.std.specs.Prelude.{◌≡◌, ◌+◌, ◌<◌, length, Some, None, IfOk, OnOk};
ghost use Rattle.std.specs.Str.{bytes_eq};
ghost use Rattle.tsa_base.specs.declared.limits.TheConstants.{NESTING_LIMIT};
ghost use Rattle.tsa_tree.specs.attributes.Syntax.{try_value as spec_try, taking};
ghost use Rattle.tsa_tree.specs.Rows.{sees, a_close, is_attribute_sign, lacking_at, takes_result as spec_takes};
ghost use Rattle.tsa_tree.specs.tokens.Signs.{identifier_at, is_plain_sign, entry_meaning as spec_meaning};
ghost use Rattle.tsa_expr.specs.Gives.{Gives};
ghost use Rattle.tsa_expr.specs.Source.{input, named};
ghost use Rattle.tsa_attr.specs.Outcomes.{opening, one_token};
ghost use Rattle.tsa_attr.specs.Readings.{passed, taking_of};

use crate::reading::AttributeName;
use tsa_base::NESTING_LIMIT;
use tsa_expr::{Reader, SyntaxCode, SyntaxRefusal, refuse};
use tsa_tree::attr::AttrKind;
use tsa_tree::sign::{Meaning, Sign};

/// What an attribute takes in its parentheses.
#[derive(Clone, Copy)]
pub enum Content {
    /// One text.
    Text,
    /// One expression.
    Expression,
    /// One expression or more.
    Expressions,
    /// The result of a try that took its locks, and then one expression or more.
    Try,
}

/// What an attribute of a kind takes.
pub fn content_of(kind: AttrKind) -> Content
    ensures { taking kind ≡ taking_of result }
{
    match kind {
        AttrKind::Capability => Content::Text,
        AttrKind::GuardedBy => Content::Expression,
        AttrKind::TryAcquire | AttrKind::TryAcquireShared => Content::Try,
        AttrKind::Requires
        | AttrKind::RequiresShared
        | AttrKind::Acquire
        | AttrKind::AcquireShared
        | AttrKind::Release
        | AttrKind::ReleaseShared
        | AttrKind::ReleaseGeneric
        | AttrKind::Excludes
        | AttrKind::AcquiredBefore
        | AttrKind::AcquiredAfter => Content::Expressions,
    }
}

/// Whether a group of attributes can begin with a sign.
pub fn begins_group(sign: Sign) -> bool
    ensures { result ≡ is_attribute_sign sign }
{
    match sign {
        Sign::Attribute | Sign::Macro(_) | Sign::LeftOutMacro => true,
        _ => false,
    }
}

/// Whether a token opens and closes nothing.
pub fn is_plain(sign: Sign) -> bool
    ensures { result ≡ is_plain_sign sign }
{
    match sign {
        Sign::End
        | Sign::Open
        | Sign::Close
        | Sign::OpenBracket
        | Sign::CloseBracket
        | Sign::OpenBrace
        | Sign::CloseBrace => false,
        _ => true,
    }
}

/// Whether a closing parenthesis stands at a place.
pub fn is_close_at(reader: Reader<'_, '_>, at: u32) -> bool
    ensures { result ≡ sees (input reader.entry) (a_close (named reader.entry)) at }
{
    match reader.sign(at) {
        Sign::Close => true,
        _ => false,
    }
}

/// What the word at a place means in a list of attributes.
pub fn entry_meaning(reader: Reader<'_, '_>, at: u32) -> Meaning
    ensures { result ≡ spec_meaning (input reader.entry) (named reader.entry) at }
{
    match reader.sign(at) {
        Sign::LeftOutMacro => Meaning::LeftOut,
        _ => reader.meaning(at),
    }
}

/// Whether a text is a word.
fn is(text: &[u8], word: &[u8]) -> bool
    ensures { result ≡ bytes_eq text.now word.now }
{
    text == word
}

/// The result that a text names for a try.
#[tactic(auto, unfolding(tsa_tree::specs::attributes::Syntax::try_value))]
fn try_value(text: &[u8]) -> Option<bool>
    ensures { result ≡ spec_try text.now }
{
    if is(text, b"0") {
        Some(false)
    } else if is(text, b"1") {
        Some(true)
    } else if is(text, b"false") {
        Some(false)
    } else if is(text, b"true") {
        Some(true)
    } else {
        None
    }
}

/// The result that the token at a place names for a try.
#[tactic(auto, unfolding(tsa_tree::specs::tokens::Signs::identifier_at, tsa_tree::specs::attributes::Syntax::try_value))]
pub fn try_value_at(reader: Reader<'_, '_>, at: u32) -> Option<bool>
    ensures { result ≡ spec_try (identifier_at (input reader.entry) at).text }
{
    match reader.tokens.get(at as usize) {
        Some(token) => try_value(token.text),
        None => None,
    }
}

/// Whether an attribute of a kind takes the result of a try.
fn takes_result(kind: AttrKind) -> bool
    ensures { result ≡ spec_takes (taking kind) }
{
    match content_of(kind) {
        Content::Try => true,
        _ => false,
    }
}

/// Whether the parenthesis of an attribute has nothing in it, or the result of a try alone.
pub fn lacks_inside(reader: Reader<'_, '_>, name: AttributeName) -> bool
    ensures { result ≡ lacking_at (input reader.entry) (named reader.entry) name.kind name.at Sign.Open }
{
    let at = name.at + 1 + 1;
    if is_close_at(reader, at) {
        return true;
    }
    if !takes_result(name.kind) {
        return false;
    }
    match try_value_at(reader, at) {
        Some(_) => is_close_at(reader, at + 1),
        None => false,
    }
}

/// The place after a parenthesis that opens a construct.
#[tactic(auto, using(crate::proofs::Openings::openings))]
pub fn open(reader: Reader<'_, '_>, at: u32, depth: u32) -> Result<u32, SyntaxRefusal>
    ensures gives { Gives passed result (opening (input reader.entry) (named reader.entry) depth at) }
    ensures ends { IfOk result (λ next. (next ≡ at + 1) × (at < length reader.entry.tokens.now)) }
    ensures low { OnOk result (depth < NESTING_LIMIT) }
{
    let Sign::Open = reader.sign(at) else {
        return Err(refuse(SyntaxCode::SY1, at));
    };
    if depth >= NESTING_LIMIT {
        return Err(refuse(SyntaxCode::LM2, at));
    }
    Ok(at + 1)
}

/// The place after a closing parenthesis.
#[tactic(auto, using(crate::proofs::Openings::closings))]
pub fn close(reader: Reader<'_, '_>, at: u32) -> Result<u32, SyntaxRefusal>
    ensures gives { Gives passed result (one_token (input reader.entry) (a_close (named reader.entry)) at) }
    ensures ends { IfOk result (λ next. (next ≡ at + 1) × (at < length reader.entry.tokens.now)) }
{
    let Sign::Close = reader.sign(at) else {
        return Err(refuse(SyntaxCode::SY1, at));
    };
    Ok(at + 1)
}
