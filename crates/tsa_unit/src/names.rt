//! The names of types that items give are known from the next item on (C11 6.7.8).
ghost use Rattle.std.specs.Prelude.{◌≡◌, ◌≤◌, OnOk, OnErr, Err, option_map, length, drop};
ghost use Rattle.tsa_tree.specs.expressions.Shapes.{name_shape};
ghost use Rattle.tsa_tree.specs.units.Syntax.{name_of, names_of_item, names_of};
ghost use Rattle.tsa_tree.specs.units.Shapes.{item_shape, item_shapes};
ghost use Rattle.tsa_expr.specs.TypeNames.{with_name};
ghost use Rattle.tsa_unit.specs.Names.{with_names};

use tsa_expr::{Aliases, SyntaxRefusal};
use tsa_tree::expr::Name;
use tsa_tree::item::Item;

/// The name of a type that an item gives.
fn type_name<'a>(item: &Item<'a>) -> Option<Name<'a>>
    ensures { name_of (option_map name_shape result) ≡ names_of_item (item_shape item.now) }
{
    match item {
        Item::Structure(structure) => structure.alias,
        Item::Alias(alias) => Some(alias.name),
        Item::Enumeration(enumeration) => enumeration.alias,
        Item::Global(_) | Item::Function(_) => None,
    }
}

/// Adds one name of a type.
fn add(aliases: &mut Aliases, name: Name<'_>) -> Result<(), SyntaxRefusal>
    ensures added { OnOk result (aliases.new ≡ with_name aliases.old name.entry.text.now) }
    ensures memory { OnErr result (result ≡ Err SyntaxRefusal.NoMemory) }
{
    match aliases.add(name.text) {
        Ok(()) => Ok(()),
        Err(_) => Err(SyntaxRefusal::NoMemory),
    }
}

/// Adds the names of types that items give.
#[tactic(auto, using(crate::proofs::NameLaws::learning))]
fn learn(aliases: &mut Aliases, items: &[Item<'_>]) -> Result<(), SyntaxRefusal>
    ensures added { OnOk result (aliases.new ≡ with_names aliases.old (names_of (item_shapes items.now))) }
    ensures memory { OnErr result (result ≡ Err SyntaxRefusal.NoMemory) }
{
    'items: for item in items {
        if let Some(name) = type_name(item) {
            add(aliases, name)?;
        }
    }
    Ok(())
}

/// Adds the names of types that the items from one on give.
#[tactic(auto, using(crate::proofs::NameLaws::behind_others))]
pub fn learn_from(
    aliases: &mut Aliases,
    items: &Vec<Item<'_>>,
    from: usize,
) -> Result<(), SyntaxRefusal>
    requires within { from ≤ length items.now.items }
    ensures added { OnOk result (aliases.new ≡ with_names aliases.old (names_of (item_shapes (drop from items.now.items)))) }
    ensures memory { OnErr result (result ≡ Err SyntaxRefusal.NoMemory) }
{
    learn(aliases, &items[from..])
}
