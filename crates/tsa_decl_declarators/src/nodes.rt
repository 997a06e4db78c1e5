//! Lists of nodes, and where they are kept.
ghost use Rattle.std.specs.Prelude.{◌≡◌, ◌++◌, ◌+◌, length, ◌∷◌, [], OnOk, OnErr, IfOk, MatchResult, Err};

use bumpalo::Bump;
use bumpalo::collections::into_bump_slice;
use std::alloc::Allocator;
use tsa_expr::SyntaxRefusal;

/// One more at the end of a list, which takes room for one first and then for twice as many: most lists are short. A refused
/// call leaves the list as it was.
pub fn keep<T: Copy, A: Allocator>(list: &mut Vec<T, A>, item: T) -> Result<(), SyntaxRefusal>
    ensures gives { OnOk result (list.new.items ≡ list.old.items ++ item ∷ []) }
    ensures grown { OnOk result (length list.new.items ≡ length list.old.items + 1) }
    ensures kept { OnErr result (list.new.items ≡ list.old.items) }
    ensures memory { OnErr result (result ≡ Err SyntaxRefusal.NoMemory) }
{
    if list.len() == list.capacity() {
        list.reserve_exact(list.len().max(1))?;
    }
    list.push(item)?;
    Ok(())
}

/// A node, kept in the arena.
pub fn kept_in<'a, T: Copy>(bump: &'a Bump, node: T) -> Result<&'a T, SyntaxRefusal>
    ensures is { IfOk result (λ kept. kept.now ≡ node) }
    ensures memory { OnErr result (result ≡ Err SyntaxRefusal.NoMemory) }
{
    let kept: &'a T = bump.try_alloc(node)?;
    Ok(kept)
}

/// A list, kept in the arena.
pub fn listed<'a, T: Copy>(items: Vec<T, &'a Bump>) -> &'a [T]
    ensures { result.now ≡ items.entry.items }
{
    into_bump_slice(items)
}

/// A list, kept in the arena with no more room than it needs.
pub fn in_arena<'a, T: Copy, A: Allocator>(
    bump: &'a Bump,
    items: &Vec<T, A>,
) -> Result<&'a [T], SyntaxRefusal>
    ensures is { IfOk result (λ kept. kept.now ≡ items.now.items) }
    ensures memory { OnErr result (result ≡ Err SyntaxRefusal.NoMemory) }
{
    let kept: &'a [T] = bump.try_alloc_slice_copy(items)?;
    Ok(kept)
}

/// A list, kept in the arena, and the token after it.
pub fn in_arena_before<'a, T: Copy, A: Allocator>(
    bump: &'a Bump,
    items: &Vec<T, A>,
    next: u32,
) -> Result<(&'a [T], u32), SyntaxRefusal>
    ensures is { IfOk result (λ found. (found.0.now ≡ items.now.items) × (found.1 ≡ next)) }
    ensures memory { OnErr result (result ≡ Err SyntaxRefusal.NoMemory) }
{
    let kept = in_arena(bump, items)?;
    Ok((kept, next))
}

/// A list whose nodes were read up to before a token, kept in the arena, and that token. The list is taken whole: a shared
/// reference of a list of items costs the check ten seconds.
pub fn in_arena_read<'a, T: Copy, A: Allocator>(
    bump: &'a Bump,
    items: Vec<T, A>,
    read: Result<u32, SyntaxRefusal>,
) -> Result<(&'a [T], u32), SyntaxRefusal>
    ensures is { MatchResult read (λ next. MatchResult result (λ found. (found.0.now ≡ items.items) × (found.1 ≡ next))
        (λ refusal. refusal ≡ SyntaxRefusal.NoMemory)) (λ refusal. result ≡ Err refusal) }
{
    let next = read?;
    in_arena_before(bump, &items, next)
}
