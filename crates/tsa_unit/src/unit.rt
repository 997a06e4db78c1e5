//! A whole unit is read (C11 6.9).
ghost use Rattle.std.specs.Prelude.{◌≡◌, ◌≢◌, ◌≤◌, ◌<◌, ℕ, None, length, Err, IfOk, OnErr, IsErrOf};
ghost use Rattle.tsa_base.specs.declared.token.Span.{Span as span_type};
ghost use Rattle.tsa_tree.specs.attributes.Refusals as reason;
ghost use Rattle.tsa_tree.specs.tokens.Signs.{lexemes};
ghost use Rattle.tsa_tree.specs.tokens.Texts.{AreOfText};
ghost use Rattle.tsa_tree.specs.units.Answers.{IsNoUnit, read_unit};
ghost use Rattle.tsa_tree.specs.units.Limits.{past_functions, past_points};
ghost use Rattle.tsa_tree.specs.units.Shapes.{item_shapes, HaveTheirPoints};
ghost use Rattle.tsa_tree.specs.units.WellRead.{IsWellRead};
ghost use Rattle.tsa_expr.specs.declared.refusal.SyntaxCode.{SyntaxCode as code_type};
ghost use Rattle.tsa_expr.specs.Gives.{Gives, Leads};
ghost use Rattle.tsa_unit.specs.Items.{passed, on_from};
ghost use Rattle.tsa_unit.specs.Parsing.{IsParsed, IsLongest, IsBroken, IsRefused, IsTooDeep, HasTooManyFunctions, HasTooManyPoints};
ghost use Rattle.tsa_unit.specs.Parsing.{IsOfUnits, IsTold};

use crate::items::item;
use crate::limits::within_limits;
use crate::names::learn_from;
use crate::text::Text;
use bumpalo::Bump;
use std::alloc::Global;
use tsa_base::Token;
use tsa_decl_declarators::{in_arena, kept_in};
use tsa_expr::{Aliases, SyntaxCode, SyntaxRefusal};
use tsa_tree::Parsed;
use tsa_tree::item::{Item, UnitTree};

/// The unit that the tokens of a text spell, kept in the arena. A name of a type is known from the item after its own one on.
/// Of the tokens the longest list of first ones that begins a unit
/// decides: SY1 stands at the token after it where it is no unit; AT1, AT2 and LM2 stand at the first such token in it, or
/// at the one after it. Where all the tokens spell a unit, LM5 stands at the name of the 1025th function, and else LM3 at
/// that of the first function of more than 4096 points (C11 6.9).
pub fn parse<'a>(
    alloc: Global,
    bump: &'a Bump,
    tokens: &[Token<'_>],
) -> Result<Parsed<'a>, SyntaxRefusal>
    requires text { AreOfText (lexemes tokens.now) }
    ensures gives { IsParsed result (lexemes tokens.now) }
    ensures well_read { IfOk result (λ parsed. IsWellRead parsed.unit.now.items.now) }

    // The unit.
    ensures found { IfOk result (λ parsed. IsLongest (lexemes tokens.now) (item_shapes parsed.unit.now.items.now) (length tokens.now)) }
    ensures points { IfOk result (λ parsed. HaveTheirPoints parsed.unit.now.items.now) }
    ensures few { IfOk result (λ parsed. (past_functions (item_shapes parsed.unit.now.items.now) ≡ None)
        × (past_points (item_shapes parsed.unit.now.items.now) ≡ None)) }

    // A token is refused.
    ensures broken { (token : ℕ) → IsErrOf result (SyntaxRefusal.At SyntaxCode.SY1 token) → IsBroken (lexemes tokens.now) token }
    ensures left_out { (token : ℕ) → IsErrOf result (SyntaxRefusal.At SyntaxCode.AT1 token)
        → IsRefused (lexemes tokens.now) reason.left_out token }
    ensures lacking { (token : ℕ) → IsErrOf result (SyntaxRefusal.At SyntaxCode.AT2 token)
        → IsRefused (lexemes tokens.now) reason.lacking token }
    ensures too_deep { (token : ℕ) → IsErrOf result (SyntaxRefusal.At SyntaxCode.LM2 token) → IsTooDeep (lexemes tokens.now) token }
    ensures no_unit { (code : code_type) (token : ℕ) → IsErrOf result (SyntaxRefusal.At code token) → code ≢ SyntaxCode.LM2
        → IsNoUnit (lexemes tokens.now) }

    // A function is refused.
    ensures too_many { (span : span_type) → IsErrOf result (SyntaxRefusal.Function SyntaxCode.LM5 span)
        → HasTooManyFunctions (lexemes tokens.now) span }
    ensures too_long { (span : span_type) → IsErrOf result (SyntaxRefusal.Function SyntaxCode.LM3 span)
        → HasTooManyPoints (lexemes tokens.now) span }
    ensures no_other { (refusal : _) → IsErrOf result refusal → IsOfUnits refusal }
{
    read_parsed(alloc, bump, Text { tokens })
}

/// The unit that the rows give, where it is within the limits of a unit.
fn read_parsed<'a>(
    alloc: Global,
    bump: &'a Bump,
    text: Text<'_>,
) -> Result<Parsed<'a>, SyntaxRefusal>
    ensures told { IsTold (λ parsed. item_shapes parsed.unit.now.items.now) result (lexemes text.entry.tokens.now) }
    ensures points { IfOk result (λ parsed. HaveTheirPoints parsed.unit.now.items.now) }
{
    let list = read_items(alloc, bump, text)?;
    within_limits(&list)?;
    in_parsed(bump, &list)
}

/// The unit of items that are well read, kept in the arena.
fn in_parsed<'a>(bump: &'a Bump, list: &Vec<Item<'a>>) -> Result<Parsed<'a>, SyntaxRefusal>
    requires well_read { ∥ IsWellRead list.now.items ∥₁ }
    ensures is { IfOk result (λ parsed. parsed.unit.now.items.now ≡ list.now.items) }
    ensures memory { OnErr result (result ≡ Err SyntaxRefusal.NoMemory) }
{
    let items = in_arena(bump, list)?;
    let unit = kept_in(bump, UnitTree { items })?;
    Ok(Parsed::new(unit))
}

/// The items one after another, up to the last token.
#[tactic(auto, using(crate::proofs::UnitLaws::whole))]
fn read_items<'a>(
    alloc: Global,
    bump: &'a Bump,
    text: Text<'_>,
) -> Result<Vec<Item<'a>>, SyntaxRefusal>
    ensures gives { Gives (λ list. (item_shapes list.items, length text.entry.tokens.now)) result
        (read_unit (lexemes text.entry.tokens.now)) }
    ensures points { IfOk result (λ list. HaveTheirPoints list.items) }
{
    let mut aliases = Aliases::new(alloc);
    let mut list = Vec::new(alloc);
    let mut next = 0;
    'items: while (next as usize) < text.tokens.len() {
        next = next_item(bump, text, next, &mut aliases, &mut list)?;
    }
    Ok(list)
}

/// How many stand in a list, which is lent whole: a shared reference of a list of items costs the check ten seconds.
fn length_of<T: Copy>(list: &mut Vec<T>) -> usize
    ensures is { result ≡ length list.new.items }
    ensures same { list.new.items ≡ list.old.items }
{
    list.len()
}

/// One item, and the names of types that it gives are known after it.
#[tactic(auto, using(crate::proofs::UnitLaws::steps))]
fn next_item<'a>(
    bump: &'a Bump,
    text: Text<'_>,
    at: u32,
    aliases: &mut Aliases,
    list: &mut Vec<Item<'a>>,
) -> Result<u32, SyntaxRefusal>
    requires within { at < length text.tokens.now }
    ensures leads { Leads passed result (on_from (lexemes text.entry.tokens.now) list.old.items aliases.old at)
        (λ u next. on_from (lexemes text.entry.tokens.now) list.new.items aliases.new next) }
    ensures pointed { IfOk result (λ next. HaveTheirPoints list.old.items → HaveTheirPoints list.new.items) }
    ensures ends { IfOk result (λ next. (at < next) × (next ≤ length text.entry.tokens.now)) }
{
    let before = length_of(list);
    let next = item(bump, text, at, Some(&*aliases), list)?;
    learn_from(aliases, list, before)?;
    Ok(next)
}
