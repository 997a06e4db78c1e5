//! The pieces of declarators are read: a star, a name, and the length of an array (C11 6.7.6).
ghost use Rattle.std.specs.Prelude.{◌≡◌, ◌≢◌, ◌≤◌, ◌<◌, length as count, Some, IfOk, OnErr, Err};
ghost use Rattle.tsa_tree.specs.Reads.{read};
ghost use Rattle.tsa_tree.specs.Rows.{a_declarator, declarator as declarator_call};
ghost use Rattle.tsa_tree.specs.expressions.Shapes.{shape};
ghost use Rattle.tsa_tree.specs.tokens.Signs.{sign_at};
ghost use Rattle.tsa_expr.specs.Source.{input, named};
ghost use Rattle.tsa_expr.specs.Gives.{Gives};
ghost use Rattle.tsa_decl_declarators.specs.Outcomes.{star_at as spec_star, length_at as spec_length};
ghost use Rattle.tsa_decl_declarators.specs.Readings.{seen_star, seen_declarator, seen_length};

use crate::declarator::Declarator;
use crate::nodes::kept_in;
use crate::view::is_const;
use bumpalo::Bump;
use tsa_base::NESTING_LIMIT;
use tsa_expr::{Reader, SyntaxCode, SyntaxRefusal, refuse};
use tsa_tree::expr::{BinaryOp, Expr};
use tsa_tree::sign::Sign;

/// Whether a star stands at a place, with `const` or without, the token after it, and that token's sign.
#[derive(Clone, Copy)]
pub struct Star {
    pub pointer: bool,
    pub constant: bool,
    pub next: u32,
    pub sign: Sign,
}

/// The length of an array where one is written, and the token after it.
#[derive(Clone, Copy)]
pub struct Length<'a> {
    pub length: Option<&'a Expr<'a>>,
    pub next: u32,
}

/// The star that may stand at a place.
#[tactic(auto, using(crate::proofs::DeclaratorLaws::stars))]
pub fn star_at(reader: Reader<'_, '_>, at: u32) -> Star
    ensures is { spec_star (input reader.entry) (named reader.entry) at ≡ seen_star result }
    ensures there { result.sign ≡ sign_at (input reader.entry) (named reader.entry) result.next }
    ensures seen { result.sign ≢ Sign.End → result.next < count reader.entry.tokens.now }
    ensures ends { at ≤ result.next }
    ensures within { at ≤ count reader.entry.tokens.now → result.next ≤ count reader.entry.tokens.now }
{
    let sign = reader.sign(at);
    let Sign::Operator(BinaryOp::Times) = sign else {
        return Star {
            pointer: false,
            constant: false,
            next: at,
            sign,
        };
    };
    let behind = reader.sign(at + 1);
    if !is_const(behind) {
        return Star {
            pointer: true,
            constant: false,
            next: at + 1,
            sign: behind,
        };
    }
    Star {
        pointer: true,
        constant: true,
        next: at + 2,
        sign: reader.sign(at + 2),
    }
}

/// A pointer's star and a name.
#[tactic(auto, using(crate::proofs::DeclaratorLaws::named))]
pub fn declarator_at<'a>(reader: Reader<'a, '_>, at: u32) -> Result<Declarator<'a>, SyntaxRefusal>
    ensures gives { Gives seen_declarator result (read (input reader.entry) a_declarator (declarator_call (named reader.entry)) at) }
    ensures start { IfOk result (λ r. r.start ≡ at) }
    ensures ends { IfOk result (λ r. (at < r.next) × (r.next ≤ count reader.entry.tokens.now)) }
{
    let star = star_at(reader, at);
    let Sign::Name = star.sign else {
        return Err(refuse(SyntaxCode::SY1, star.next));
    };
    let name = reader.name(star.next)?;
    Ok(Declarator {
        name,
        pointer: star.pointer,
        pointer_const: star.constant,
        start: at,
        next: star.next + 1,
    })
}

/// The length that may stand at a place, where `depth` constructs are open.
#[tactic(auto, using(crate::proofs::DeclaratorLaws::lengths))]
pub fn length_at<'a>(
    reader: Reader<'a, '_>,
    at: u32,
    depth: u32,
) -> Result<Length<'a>, SyntaxRefusal>
    ensures gives { Gives seen_length result (spec_length (input reader.entry) (named reader.entry) depth at) }
    ensures ends { IfOk result (λ r. at ≤ r.next) }
    ensures within { IfOk result (λ r. at ≤ count reader.entry.tokens.now → r.next ≤ count reader.entry.tokens.now) }
{
    let Sign::OpenBracket = reader.sign(at) else {
        return Ok(Length {
            length: None,
            next: at,
        });
    };
    if depth >= NESTING_LIMIT {
        return Err(refuse(SyntaxCode::LM2, at));
    }
    let inner = reader.expression(at + 1, depth + 1, 0)?;
    let Sign::CloseBracket = reader.sign(inner.next) else {
        return Err(refuse(SyntaxCode::SY1, inner.next));
    };
    length_before(reader.bump, inner.tree, inner.next + 1)
}

/// The length of an array, kept in the arena, and the token after its bracket.
fn length_before<'a>(bump: &'a Bump, tree: Expr<'a>, next: u32) -> Result<Length<'a>, SyntaxRefusal>
    ensures is { IfOk result (λ r. seen_length r ≡ (Some (shape tree.entry), next)) }
    ensures next_is { IfOk result (λ r. r.next ≡ next) }
    ensures memory { OnErr result (result ≡ Err SyntaxRefusal.NoMemory) }
{
    let length = kept_in(bump, tree)?;
    Ok(Length {
        length: Some(length),
        next,
    })
}
