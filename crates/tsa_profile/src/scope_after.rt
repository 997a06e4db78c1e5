//! What is known behind all items of a typed unit (C11 6.2.1p4, 6.9).
ghost use Rattle.std.specs.Prelude.{◌≡◌, None, IfOk, OnOk};
ghost use Rattle.tsa_profile.specs.Arguments.{behind_items, behind_unit as spec_behind_unit};
ghost use Rattle.tsa_tree.specs.types.Premises.{first};
ghost use Rattle.tsa_tree.specs.types.Units.{items_premises, refusal_of_types};
ghost use Rattle.tsa_tree.specs.units.Shapes.{item_shapes};

use std::alloc::Global;
use tsa_base::NoMemory;
use tsa_profile_items::know_item;
use tsa_tree::item::Item;
use tsa_types_scope::{Scope, outset};

/// Items that are typed, in order, behind each of which what it declares is known.
fn know_items<'a>(scope: &mut Scope<'a>, items: &[Item<'a>]) -> Result<(), NoMemory>
    requires typed { first (items_premises scope.old (item_shapes items.now)) ≡ None }
    ensures { OnOk result (scope.new ≡ behind_items scope.old (item_shapes items.now)) }
{
    'each: for item in items {
        know_item(scope, item)?;
    }
    Ok(())
}

/// What is known behind all items of a unit that is typed.
pub fn behind_unit<'a>(alloc: Global, items: &[Item<'a>]) -> Result<Scope<'a>, NoMemory>
    requires typed { refusal_of_types (item_shapes items.now) ≡ None }
    ensures { IfOk result (λ scope. scope ≡ spec_behind_unit (item_shapes items.now)) }
{
    let mut scope = outset(alloc, items)?;
    know_items(&mut scope, items)?;
    Ok(scope)
}
