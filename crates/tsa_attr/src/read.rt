//! Attributes, as the parts of a unit ask for them.
ghost use Rattle.std.specs.Prelude.{◌≤◌, ◌<◌, ℕ, length, [], IfOk, IsErrOf};
ghost use Rattle.tsa_base.specs.declared.limits.TheConstants.{INPUT_LIMIT};
ghost use Rattle.tsa_tree.specs.attributes.Answers.{IsLongest, IsBroken, IsRefused, IsTooDeep, read_any};
ghost use Rattle.tsa_tree.specs.attributes.Refusals as reason;
ghost use Rattle.tsa_tree.specs.attributes.Syntax.{attr_shapes};
ghost use Rattle.tsa_tree.specs.tokens.Signs.{lexemes};
ghost use Rattle.tsa_expr.specs.Gives.{Gives};
ghost use Rattle.tsa_expr.specs.Source.{input, named};
ghost use Rattle.tsa_attr.specs.Outcomes.{IsOfAttributes, after};

use crate::nodes::into_arena;
use crate::reader::groups;
use crate::view::begins_group;
use bumpalo::Bump;
use tsa_base::Token;
use tsa_expr::{Reader, SyntaxCode, SyntaxRefusal};
use tsa_tree::attr::Attr;

/// All attributes that begin at a token, where `depth` constructs are open and no names of types are known, and the token
/// after them; none where no group begins there. Of the tokens from `at` on the longest list that begins attributes decides:
/// SY1 stands at the token after it where it spells none; AT1 and AT2 at the first attribute, up to that token, that is left
/// out or has no argument; LM2 at the first token of the list that passes the limit, where no attribute up to there is
/// refused.
pub fn read_attributes<'a>(
    bump: &'a Bump,
    tokens: &[Token<'_>],
    at: u32,
    depth: u32,
) -> Result<(&'a [Attr<'a>], u32), SyntaxRefusal>
    requires room { length tokens.now ≤ INPUT_LIMIT }
    requires within { at ≤ length tokens.now }
    ensures found { IfOk result (λ found. IsLongest (lexemes tokens.now) [] depth at (attr_shapes found.0.now) found.1) }
    ensures broken { (token : ℕ) → IsErrOf result (SyntaxRefusal.At SyntaxCode.SY1 token)
        → IsBroken (lexemes tokens.now) [] depth at token }
    ensures left_out { (token : ℕ) → IsErrOf result (SyntaxRefusal.At SyntaxCode.AT1 token)
        → IsRefused (lexemes tokens.now) [] depth at reason.left_out token }
    ensures lacking { (token : ℕ) → IsErrOf result (SyntaxRefusal.At SyntaxCode.AT2 token)
        → IsRefused (lexemes tokens.now) [] depth at reason.lacking token }
    ensures too_deep { (token : ℕ) → IsErrOf result (SyntaxRefusal.At SyntaxCode.LM2 token)
        → IsTooDeep (lexemes tokens.now) [] depth at token }
    ensures no_other { (refusal : _) → IsErrOf result refusal → IsOfAttributes refusal }
    ensures next { IfOk result (λ found. (at ≤ found.1) × (found.1 ≤ length tokens.now)) }
{
    let reader = Reader {
        bump,
        tokens,
        aliases: None,
    };
    read_groups(reader, at, depth)
}

/// All attributes that begin at a token, and the token after them, as reading by the rows gives them.
#[tactic(auto, using(crate::proofs::Groups::any))]
pub fn read_groups<'a>(
    reader: Reader<'a, '_>,
    at: u32,
    depth: u32,
) -> Result<(&'a [Attr<'a>], u32), SyntaxRefusal>
    requires within { at ≤ length reader.tokens.now }
    ensures gives { Gives (λ found. (attr_shapes found.0.now, found.1)) result (read_any (input reader.entry) (named reader.entry) depth at) }
    ensures ends { IfOk result (λ found. (at ≤ found.1) × (found.1 ≤ length reader.entry.tokens.now)) }
{
    if !begins_group(reader.sign(at)) {
        return Ok((&[], at));
    }
    let mut items = Vec::new(reader.bump);
    let next = groups(reader, at, depth, &mut items)?;
    Ok((into_arena(items), next))
}

/// A list with the groups at a token, none or more, after those that it has, and the token after them.
pub fn read_more<'a>(
    reader: Reader<'a, '_>,
    at: u32,
    depth: u32,
    list: Vec<Attr<'a>, &'a Bump>,
) -> Result<(Vec<Attr<'a>, &'a Bump>, u32), SyntaxRefusal>
    requires within { at ≤ length reader.tokens.now }
    ensures gives { Gives (λ found. (attr_shapes found.0.items, found.1)) result
        (after (attr_shapes list.entry.items) (read_any (input reader.entry) (named reader.entry) depth at)) }
    ensures ends { IfOk result (λ found. (at ≤ found.1) × (found.1 ≤ length reader.entry.tokens.now)) }
{
    let mut list = list;
    let next = groups(reader, at, depth, &mut list)?;
    Ok((list, next))
}
