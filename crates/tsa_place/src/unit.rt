//! The items of a unit one by one, with their places (C11 6.9).
ghost use Rattle.std.specs.Prelude.{◌≡◌, length};
ghost use Rattle.tsa_place.specs.Answers.{Places, Gives, GivesAll};
ghost use Rattle.tsa_place_model.specs.Units.{placed_behind, placed_in};
ghost use Rattle.tsa_tree.specs.declarations.Shapes.{decl_shape};
ghost use Rattle.tsa_tree.specs.units.Shapes.{item_shape, item_shapes};
ghost use Rattle.tsa_tree.specs.units.Syntax.{global_item};

use crate::{Globals, PlaceRefusal, know_alias, know_enum, know_global};
use std::alloc::Global;
use tsa_tree::decl::Decl;
use tsa_tree::item::Item;
use tsa_types_scope::{Scope, outset};

/// A global with its places.
fn place_global<'a>(
    globals: &mut Globals,
    scope: &mut Scope<'a>,
    decl: &Decl<'a>,
) -> Result<(), PlaceRefusal>
    requires { length scope.old.structs ≡ length globals.old.structs }
    ensures { Places scope.old globals.old (global_item (decl_shape decl.now)) scope.new globals.new result }
{
    let part = know_global(scope, decl)?;
    if let Err(refusal) = globals.add(scope, part, decl.init.as_ref()) {
        return Err(refusal);
    }
    scope.count_global()?;
    Ok(())
}

/// An item, of which no function has places.
fn place_item<'a>(
    globals: &mut Globals,
    scope: &mut Scope<'a>,
    item: &Item<'a>,
) -> Result<(), PlaceRefusal>
    requires { length scope.old.structs ≡ length globals.old.structs }
    ensures { Places scope.old globals.old (item_shape item.now) scope.new globals.new result }
{
    match item {
        Item::Structure(def) => {
            globals.define(scope, def)?;
            Ok(())
        }
        Item::Alias(def) => {
            know_alias(scope, def)?;
            Ok(())
        }
        Item::Enumeration(def) => {
            know_enum(scope, def)?;
            Ok(())
        }
        Item::Global(decl) => place_global(globals, scope, decl),
        Item::Function(_) => Ok(()),
    }
}

/// Items in order.
fn place_items<'a>(
    globals: &mut Globals,
    scope: &mut Scope<'a>,
    items: &[Item<'a>],
) -> Result<(), PlaceRefusal>
    requires { length scope.old.structs ≡ length globals.old.structs }
    ensures { GivesAll (placed_behind scope.old globals.old (item_shapes items.now)) globals.new result }
{
    'each: for item in items {
        if let Err(refusal) = place_item(globals, scope, item) {
            return Err(refusal);
        }
    }
    Ok(())
}

/// The places of all items of a unit, or the declarator at which there are too many.
pub fn placed<'a>(alloc: Global, items: &[Item<'a>]) -> Result<Globals, PlaceRefusal>
    ensures { Gives (placed_in (item_shapes items.now)) result }
{
    let mut scope = outset(alloc, items)?;
    let mut globals = Globals::new(alloc);
    match place_items(&mut globals, &mut scope, items) {
        Ok(()) => Ok(globals),
        Err(refusal) => Err(refusal),
    }
}
