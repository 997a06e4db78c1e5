//! Items without a body, heads of functions and locals, as the parts of a unit ask for them.
ghost use Rattle.std.specs.Prelude.{◌≡◌, ◌≤◌, ◌<◌, ℕ, length, [], None, option_map, IfOk, IsErrOf, false};
ghost use Rattle.std.specs.Option.{ForSome};
ghost use Rattle.tsa_base.specs.declared.limits.TheConstants.{INPUT_LIMIT};
ghost use Rattle.tsa_tree.specs.attributes.Refusals as reason;
ghost use Rattle.tsa_tree.specs.declarations.Answers.{an_item, a_head_alone, some_locals, IsLongest, IsBroken, IsRefused, IsTooDeep};
ghost use Rattle.tsa_tree.specs.declarations.Shapes.{decl_shapes, head_shape};
ghost use Rattle.tsa_tree.specs.units.Shapes.{item_shapes};
ghost use Rattle.tsa_tree.specs.tokens.Signs.{lexemes};
ghost use Rattle.tsa_tree.specs.Reads.{read};
ghost use Rattle.tsa_tree.specs.Rows.{some_items, item as item_call};
ghost use Rattle.tsa_expr.specs.Gives.{Gives};
ghost use Rattle.tsa_expr.specs.Source.{input, named};
ghost use Rattle.tsa_attr.specs.Outcomes.{IsOfAttributes};
ghost use Rattle.tsa_decl_declarators.specs.Outcomes.{after};
ghost use Rattle.tsa_decl.specs.Outcomes.{finished};

use crate::heads::head;
use crate::items::{Begun, begin_item};
use crate::nodes::keep_function;
use bumpalo::Bump;
use tsa_base::Token;
use tsa_decl_declarators::{in_arena_read, read_locals, semicolon};
use tsa_expr::{Aliases, Reader, SyntaxCode, SyntaxRefusal};
use tsa_tree::decl::Decl;
use tsa_tree::item::{FnTree, Item};

/// The item without a body that begins at a token, and the token after it: no node for a tag alone, and one for each of
/// several globals. Of the tokens from `at` on the longest list that begins such an item decides: SY1 stands at the token
/// after it where it spells none; AT1, AT2 and LM2 stand at the first such token in it, or at the one after it (C11 6.7,
/// 6.9).
pub fn read_declaration<'a>(
    bump: &'a Bump,
    tokens: &[Token<'_>],
    at: u32,
    aliases: &Aliases,
) -> Result<(&'a [Item<'a>], u32), SyntaxRefusal>
    requires room { length tokens.now ≤ INPUT_LIMIT }
    requires within { at ≤ length tokens.now }
    ensures found { IfOk result (λ found. IsLongest (lexemes tokens.now) aliases.now an_item at (item_shapes found.0.now) found.1) }
    ensures broken { (token : ℕ) → IsErrOf result (SyntaxRefusal.At SyntaxCode.SY1 token)
        → IsBroken (lexemes tokens.now) aliases.now an_item at token }
    ensures left_out { (token : ℕ) → IsErrOf result (SyntaxRefusal.At SyntaxCode.AT1 token)
        → IsRefused (lexemes tokens.now) aliases.now an_item at reason.left_out token }
    ensures lacking { (token : ℕ) → IsErrOf result (SyntaxRefusal.At SyntaxCode.AT2 token)
        → IsRefused (lexemes tokens.now) aliases.now an_item at reason.lacking token }
    ensures too_deep { (token : ℕ) → IsErrOf result (SyntaxRefusal.At SyntaxCode.LM2 token)
        → IsTooDeep (lexemes tokens.now) aliases.now an_item at token }
    ensures no_other { (refusal : _) → IsErrOf result refusal → IsOfAttributes refusal }
    ensures next { IfOk result (λ found. (at < found.1) × (found.1 ≤ length tokens.now)) }
{
    let reader = Reader {
        bump,
        tokens,
        aliases: Some(aliases),
    };
    read_items(reader, at, aliases)
}

/// The items that the rows give.
#[tactic(auto, using(crate::proofs::Exact::items))]
fn read_items<'a>(
    reader: Reader<'a, '_>,
    at: u32,
    aliases: &Aliases,
) -> Result<(&'a [Item<'a>], u32), SyntaxRefusal>
    ensures gives { Gives (λ found. (item_shapes found.0.now, found.1)) result
        (read (input reader.entry) some_items (item_call (named reader.entry) false) at) }
    ensures ends { IfOk result (λ found. (at < found.1) × (found.1 ≤ length reader.entry.tokens.now)) }
{
    let mut list = Vec::new(aliases.allocator());
    let read = whole_item(reader, at, &mut list);
    in_arena_read(reader.bump, list, read)
}

/// The items that the rows give, at the end of a list.
fn whole_item<'a>(
    reader: Reader<'a, '_>,
    at: u32,
    list: &mut Vec<Item<'a>>,
) -> Result<u32, SyntaxRefusal>
    ensures gives { Gives (λ next. (item_shapes list.new.items, next)) result
        (after (item_shapes list.old.items) (read (input reader.entry) some_items (item_call (named reader.entry) false) at)) }
    ensures ends { IfOk result (λ next. (at < next) × (next ≤ length reader.entry.tokens.now)) }
{
    let begun = begin_item(reader, at, list)?;
    finish(reader, &begun, list)
}

/// The end of an item without a body: a function ends with its `;`, and is then at the end of the list.
#[tactic(auto, using(crate::proofs::BegunLaws::finishes))]
fn finish<'a>(
    reader: Reader<'_, '_>,
    begun: &Begun<'a>,
    list: &mut Vec<Item<'a>>,
) -> Result<u32, SyntaxRefusal>
    requires bodiless { ForSome begun.now.head (λ head. head.body ≡ None) }
    ensures gives { Gives (λ next. (item_shapes list.new.items, next)) result
        (finished (input reader.entry) (named reader.entry) false (item_shapes list.old.items, option_map head_shape begun.now.head)
        begun.now.next) }
    ensures ends { IfOk result (λ next. begun.now.next ≤ next) }
    ensures within { IfOk result (λ next. begun.now.next ≤ length reader.entry.tokens.now → next ≤ length reader.entry.tokens.now) }
{
    let Some(head) = &begun.head else {
        return Ok(begun.next);
    };
    let next = semicolon(reader, begun.next)?;
    keep_function(list, head)?;
    Ok(next)
}

/// The head of the function that begins at a token, up to before its `;` or block, and that token; refused as
/// `read_declaration` refuses. It has no body and no points (C11 6.9.1).
pub fn read_head<'a>(
    bump: &'a Bump,
    tokens: &[Token<'_>],
    at: u32,
    aliases: &Aliases,
) -> Result<(FnTree<'a>, u32), SyntaxRefusal>
    requires room { length tokens.now ≤ INPUT_LIMIT }
    requires within { at ≤ length tokens.now }
    ensures found { IfOk result (λ found. IsLongest (lexemes tokens.now) aliases.now a_head_alone at (head_shape found.0) found.1) }
    ensures bodiless { IfOk result (λ found. (found.0.body ≡ None) × (found.0.points.now ≡ [])) }
    ensures broken { (token : ℕ) → IsErrOf result (SyntaxRefusal.At SyntaxCode.SY1 token)
        → IsBroken (lexemes tokens.now) aliases.now a_head_alone at token }
    ensures left_out { (token : ℕ) → IsErrOf result (SyntaxRefusal.At SyntaxCode.AT1 token)
        → IsRefused (lexemes tokens.now) aliases.now a_head_alone at reason.left_out token }
    ensures lacking { (token : ℕ) → IsErrOf result (SyntaxRefusal.At SyntaxCode.AT2 token)
        → IsRefused (lexemes tokens.now) aliases.now a_head_alone at reason.lacking token }
    ensures too_deep { (token : ℕ) → IsErrOf result (SyntaxRefusal.At SyntaxCode.LM2 token)
        → IsTooDeep (lexemes tokens.now) aliases.now a_head_alone at token }
    ensures no_other { (refusal : _) → IsErrOf result refusal → IsOfAttributes refusal }
    ensures next { IfOk result (λ found. (at < found.1) × (found.1 ≤ length tokens.now)) }
{
    let reader = Reader {
        bump,
        tokens,
        aliases: Some(aliases),
    };
    head(reader, at)
}

/// The locals that begin at a token with their type, up to before their `;`, and that token, where `depth` constructs are
/// open: one alone where `single` is true, as in a `for`. Refused as `read_declaration`
/// refuses (C11 6.8.2, 6.8.5).
pub fn read_local<'a>(
    bump: &'a Bump,
    tokens: &[Token<'_>],
    at: u32,
    aliases: &Aliases,
    depth: u32,
    single: bool,
) -> Result<(&'a [Decl<'a>], u32), SyntaxRefusal>
    requires room { length tokens.now ≤ INPUT_LIMIT }
    requires within { at ≤ length tokens.now }
    ensures found { IfOk result (λ found. IsLongest (lexemes tokens.now) aliases.now (some_locals single depth) at (decl_shapes found.0.now)
        found.1) }
    ensures broken { (token : ℕ) → IsErrOf result (SyntaxRefusal.At SyntaxCode.SY1 token)
        → IsBroken (lexemes tokens.now) aliases.now (some_locals single depth) at token }
    ensures left_out { (token : ℕ) → IsErrOf result (SyntaxRefusal.At SyntaxCode.AT1 token)
        → IsRefused (lexemes tokens.now) aliases.now (some_locals single depth) at reason.left_out token }
    ensures lacking { (token : ℕ) → IsErrOf result (SyntaxRefusal.At SyntaxCode.AT2 token)
        → IsRefused (lexemes tokens.now) aliases.now (some_locals single depth) at reason.lacking token }
    ensures too_deep { (token : ℕ) → IsErrOf result (SyntaxRefusal.At SyntaxCode.LM2 token)
        → IsTooDeep (lexemes tokens.now) aliases.now (some_locals single depth) at token }
    ensures no_other { (refusal : _) → IsErrOf result refusal → IsOfAttributes refusal }
    ensures next { IfOk result (λ found. (at < found.1) × (found.1 ≤ length tokens.now)) }
{
    let reader = Reader {
        bump,
        tokens,
        aliases: Some(aliases),
    };
    read_locals(reader, at, depth, single)
}
