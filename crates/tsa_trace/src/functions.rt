//! The functions of a unit by their numbers: names, and points of bodies.
ghost use Rattle.std.specs.Prelude.{◌≡◌, ◌∷◌, [], None, map, IfOk, OnOk};
ghost use Rattle.tsa_trace.specs.FunctionTexts.{function_texts};
ghost use Rattle.tsa_trace.specs.Views.{text_of};
ghost use Rattle.tsa_trace.specs.Tables.{bodies_behind, functions_behind, with_body, with_function};
ghost use Rattle.tsa_tree.specs.units.Shapes.{HasItsPoints, HaveTheirPoints, function_shape, item_shape, item_shapes};
ghost use Rattle.tsa_tree.specs.types.FirstFailing.{first_failing};

use crate::table::{Function, Table};
use std::alloc::Global;
use tsa_base::NoMemory;
use tsa_tree::item::{FnTree, Item};

/// The functions of some items, and those that have a body.
struct Tables<'a> {
    functions: Table<'a>,
    bodies: Table<'a>,
}

impl Drop for Tables<'_> {
    /// Lets its parts go, in one call for all who let one go.
    fn drop(self) {
        let Tables {
            functions: _,
            bodies: _,
        } = self;
    }
}

impl<'a> Tables<'a> {
    /// Keeps a function, and its body where it has one.
    fn keep_function(&mut self, function: &FnTree<'a>) -> Result<(), NoMemory>
        requires points { HasItsPoints function.now }
        ensures functions { OnOk result (self.new.functions ≡ with_function (function_shape function.now) self.old.functions) }
        ensures bodies { OnOk result (self.new.bodies ≡ with_body (function_shape function.now) self.old.bodies) }
    {
        self.functions.keep(function.name.text, function.points)?;
        if function.body.is_some() {
            self.bodies.keep(function.name.text, function.points)?;
        }
        Ok(())
    }

    /// Keeps what an item declares, where that is a function.
    fn keep_item(&mut self, item: &Item<'a>) -> Result<(), NoMemory>
        requires points { HaveTheirPoints (item.now ∷ []) }
        ensures functions { OnOk result (self.new.functions ≡ with_function (item_shape item.now) self.old.functions) }
        ensures bodies { OnOk result (self.new.bodies ≡ with_body (item_shape item.now) self.old.bodies) }
    {
        match item {
            Item::Function(function) => self.keep_function(function),
            _ => Ok(()),
        }
    }
}

/// The functions of some items, in order.
fn tables_of<'a>(alloc: Global, items: &[Item<'a>]) -> Result<Tables<'a>, NoMemory>
    requires points { HaveTheirPoints items.now }
    ensures functions { IfOk result (λ tables. tables.functions ≡ functions_behind (item_shapes items.now) []) }
    ensures bodies { IfOk result (λ tables. tables.bodies ≡ bodies_behind (item_shapes items.now) []) }
{
    let mut tables = Tables {
        functions: Table::new(alloc),
        bodies: Table::new(alloc),
    };
    'each: for item in items {
        tables.keep_item(item)?;
    }
    Ok(tables)
}

/// The functions of a unit in the order of their first declarations, each with the points of its body.
pub fn functions_of<'a>(alloc: Global, items: &[Item<'a>]) -> Result<Vec<Function<'a>>, NoMemory>
    requires typed { first_failing (item_shapes items.now) ≡ None }
    requires points { HaveTheirPoints items.now }
    ensures { IfOk result (λ list. map text_of list.items ≡ function_texts (item_shapes items.now)) }
{
    let tables = tables_of(alloc, items)?;
    tables.functions.with_points(alloc, &tables.bodies)
}
