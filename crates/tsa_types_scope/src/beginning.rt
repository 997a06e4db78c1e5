//! What is known before the first item: the tags of the whole unit, and which of its structs are locks (C11 6.2.3, 6.7.2.3).
ghost use Rattle.std.specs.Prelude.{◌≡◌, ◌+◌, List, [], ◌∷◌, option_map, OnOk, IfOk};
ghost use Rattle.tsa_tree.specs.attributes.Syntax.{attr_shapes};
ghost use Rattle.tsa_tree.specs.expressions.Shapes.{name_shape};
ghost use Rattle.tsa_tree.specs.units.Shapes.{item_shape, item_shapes};
ghost use Rattle.tsa_tree.specs.units.Syntax.{UnitItem};
ghost use Rattle.tsa_tree.specs.types.Units.{with_tag, tags_behind, is_capability as spec_is_capability, is_marked as spec_is_marked};
ghost use Rattle.tsa_tree.specs.types.Units.{locks_of as spec_locks_of, outset as spec_outset};

use crate::names::Names;
use crate::scope::Scope;
use std::alloc::Global;
use tsa_base::NoMemory;
use tsa_tree::attr::{Attr, AttrKind};
use tsa_tree::expr::Name;
use tsa_tree::item::Item;
use tsa_tree::meaning::Tag;

/// Notes what a tag means, by its first item; an item may have none.
fn note_tag<'a>(tags: &mut Names<'a, Tag>, name: Option<Name<'a>>, tag: Tag) -> Result<(), NoMemory>
    ensures { OnOk result (tags.new ≡ with_tag (option_map name_shape name.entry) tag tags.old) }
{
    if let Some(name) = name {
        tags.declare(name.text, tag)?;
    }
    Ok(())
}

/// The number after another.
pub fn next_number(number: u32) -> Result<u32, NoMemory>
    ensures { IfOk result (λ n. n ≡ number + 1) }
{
    number.checked_add(1).ok_or(NoMemory)
}

/// Notes the tag of an item. A struct takes the number, and what is told is the number of the next one.
fn note_item<'a>(tags: &mut Names<'a, Tag>, number: u32, item: &Item<'a>) -> Result<u32, NoMemory>
    ensures { IfOk result (λ next. (rest : List UnitItem)
        → tags_behind tags.new next rest ≡ tags_behind tags.old number (item_shape item.now ∷ rest)) }
{
    match item {
        Item::Structure(def) => {
            note_tag(tags, def.tag, Tag::Structure(number))?;
            next_number(number)
        }
        Item::Enumeration(def) => {
            note_tag(tags, def.tag, Tag::Enumeration(def.span.from))?;
            Ok(number)
        }
        _ => Ok(number),
    }
}

/// The tags of a unit, its structs by their numbers and its enums by where their items stand.
fn tags_of<'a>(alloc: Global, items: &[Item<'a>]) -> Result<Names<'a, Tag>, NoMemory>
    ensures { IfOk result (λ tags. tags ≡ tags_behind [] 0 (item_shapes items.now)) }
{
    let mut tags = Names::new(alloc);
    let mut number = 0;
    'each: for item in items {
        number = note_item(&mut tags, number, item)?;
    }
    Ok(tags)
}

/// Whether an attribute is `capability`.
fn is_capability(kind: AttrKind) -> bool
    ensures { result ≡ spec_is_capability kind }
{
    matches!(kind, AttrKind::Capability)
}

/// Whether attributes make a struct a lock.
fn is_marked(attrs: &[Attr<'_>]) -> bool
    ensures { result ≡ spec_is_marked (attr_shapes attrs.now) }
{
    attrs.iter().any(|attr| is_capability(attr.kind))
}

/// Which structs are locks, by their numbers.
fn locks_of(alloc: Global, items: &[Item<'_>]) -> Result<Vec<bool>, NoMemory>
    ensures { IfOk result (λ locks. locks.items ≡ spec_locks_of (item_shapes items.now)) }
{
    let mut locks = Vec::new(alloc);
    'each: for item in items {
        if let Item::Structure(def) = item {
            locks.push(is_marked(def.attrs))?;
        }
    }
    Ok(locks)
}

/// What is known before the first item of a unit: its tags, which hold in all of it, and which of its structs are locks
/// (C11 6.7.2.3p4).
pub fn outset<'a>(alloc: Global, items: &[Item<'a>]) -> Result<Scope<'a>, NoMemory>
    ensures { IfOk result (λ scope. scope ≡ spec_outset (item_shapes items.now)) }
{
    let tags = tags_of(alloc, items)?;
    let locks = locks_of(alloc, items)?;
    Ok(Scope {
        alloc,
        tags,
        locks,
        structs: Vec::new(alloc),
        owned: Names::new(alloc),
        names: Names::new(alloc),
        functions: Vec::new(alloc),
        globals: 0,
        locals: 0,
    })
}
