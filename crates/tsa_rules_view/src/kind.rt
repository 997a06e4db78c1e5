//! What kinds of locks the structs of a unit are: a struct is a lock by its first capability, whose text says of which kind.
ghost use Rattle.std.specs.Prelude.{◌≡◌, ◌++◌, List, ◌∷◌, take, codes, option_map, IfOk, OnOk};
ghost use Rattle.std.specs.Str.{bytes_eq};
ghost use Rattle.tsa_core.specs.Programs.{lock_text, lock_kind as spec_lock_kind, lock_of as spec_lock_of, lock_kinds as spec_lock_kinds};
ghost use Rattle.tsa_rules_view.specs.Kinds.{kind_of, kinds_of, kind_in, is_taken_again};
ghost use Rattle.tsa_tree.specs.attributes.Syntax.{attr_shapes};
ghost use Rattle.tsa_tree.specs.types.Units.{is_capability as spec_is_capability};
ghost use Rattle.tsa_tree.specs.units.Shapes.{item_shape, item_shapes};
ghost use Rattle.tsa_tree.specs.units.Syntax.{UnitItem};

use std::alloc::Global;
use tsa_base::NoMemory;
use tsa_tree::attr::{Attr, AttrKind};
use tsa_tree::item::Item;

/// What kind of lock a struct is, and whether its holder may take it again.
#[derive(Clone, Copy)]
pub struct LockKind<'a> {
    pub text: &'a [u8],
    pub is_reentrant: bool,
}

/// Whether an attribute is a capability.
fn is_capability(kind: AttrKind) -> bool
    ensures { result ≡ spec_is_capability kind }
{
    matches!(kind, AttrKind::Capability)
}

/// Whether a text begins with `reentrant` and a space.
fn begins_reentrant(text: &[u8]) -> bool
    ensures { result ≡ bytes_eq (take 10 text.now) (codes "reentrant ") }
{
    text.starts_with(b"reentrant ")
}

/// The kind of lock that a text says.
fn lock_kind<'a>(text: &'a [u8]) -> LockKind<'a>
    ensures { kind_of result ≡ spec_lock_kind text.now }
{
    LockKind {
        text,
        is_reentrant: begins_reentrant(text),
    }
}

/// The text of an attribute, which is empty where it has none.
fn text_of<'a>(attr: &Attr<'a>) -> &'a [u8]
    ensures { result.now ≡ lock_text (option_map (λ text. text.now) attr.now.text) }
{
    attr.text.unwrap_or(&[])
}

/// The kind of lock that the first capability among attributes says, where there is one.
#[tactic(auto, unfolding(tsa_core::specs::Programs::lock_of))]
fn lock_of<'a>(attrs: &[Attr<'a>]) -> Option<LockKind<'a>>
    ensures { option_map kind_of result ≡ spec_lock_of (attr_shapes attrs.now) }
{
    'each: for attr in attrs {
        if is_capability(attr.kind) {
            return Some(lock_kind(text_of(attr)));
        }
    }
    None
}

/// Adds what kind of lock an item is, where it is a struct.
#[tactic(auto, unfolding(tsa_core::specs::Programs::lock_kinds))]
fn add_item<'a>(kinds: &mut Vec<Option<LockKind<'a>>>, item: &Item<'a>) -> Result<(), NoMemory>
    ensures { OnOk result ((rest : List UnitItem) → kinds_of kinds.new.items ++ spec_lock_kinds rest ≡ kinds_of kinds.old.items
        ++ spec_lock_kinds (item_shape item.now ∷ rest)) }
{
    if let Item::Structure(def) = item {
        kinds.push(lock_of(def.attrs))?;
    }
    Ok(())
}

/// Of each struct of a unit in order, what kind of lock it is, where it is one.
#[tactic(auto, unfolding(tsa_core::specs::Programs::lock_kinds))]
pub fn lock_kinds<'a>(
    alloc: Global,
    items: &[Item<'a>],
) -> Result<Vec<Option<LockKind<'a>>>, NoMemory>
    ensures { IfOk result (λ kinds. kinds_of kinds.items ≡ spec_lock_kinds (item_shapes items.now)) }
{
    let mut kinds = Vec::new(alloc);
    'each: for item in items {
        add_item(&mut kinds, item)?;
    }
    Ok(kinds)
}

/// What kind of lock a struct is by its number, where there is one that is a lock.
pub fn kind_at<'a>(kinds: &[Option<LockKind<'a>>], structure: Option<u32>) -> Option<LockKind<'a>>
    ensures { option_map kind_of result ≡ kind_in (kinds_of kinds.now) structure }
{
    *kinds.get(structure? as usize)?
}

/// Whether the holder of a lock may take it again; what is no lock isn't taken.
pub fn is_reentrant(kind: Option<LockKind<'_>>) -> bool
    ensures { result ≡ is_taken_again (option_map kind_of kind.entry) }
{
    match kind {
        Some(kind) => kind.is_reentrant,
        None => false,
    }
}
