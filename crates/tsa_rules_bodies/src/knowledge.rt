//! What is known in front of an item and behind it.
ghost use Rattle.std.specs.Prelude.{◌≡◌, None, is_some, IfOk, OnOk};
ghost use Rattle.tsa_core.specs.Programs.{attrs_of};
ghost use Rattle.tsa_core_environment.specs.Functions.{outside_of};
ghost use Rattle.tsa_profile_accesses.specs.Expressions.{attributes_at};
ghost use Rattle.tsa_profile.specs.Judging.{unit_at};
ghost use Rattle.tsa_profile.specs.Units.{Unit as Given, stable_of};
ghost use Rattle.tsa_rules_bodies.specs.Knowing.{behind, entered, outset_of, with_function};
ghost use Rattle.tsa_tree.specs.declarations.Shapes.{head_shape};
ghost use Rattle.tsa_tree.specs.types.Heads as heads;
ghost use Rattle.tsa_tree.specs.types.Premises as types;
ghost use Rattle.tsa_tree.specs.types.Units as typed;
ghost use Rattle.tsa_tree.specs.units.Shapes.{function_shape, item_shape};
ghost use Rattle.tsa_place_model.specs.LockPaths.{stable_in};

use std::alloc::Global;
use std::marker::Model;
use tsa_base::NoMemory;
use tsa_core_environment::{Outside, enter, know_item, leave};
use tsa_place_paths::Sight;
use tsa_profile::{Ground, named_locks};
use tsa_profile_accesses::{NamedLock, NamedLocks};
use tsa_tree::item::{FnTree, Item};
use tsa_types_scope::Scope;

/// What is known by name, and the locks that the declared functions name, by their numbers.
pub struct Knowledge<'a> {
    pub scope: Scope<'a>,
    pub attributes: Vec<NamedLocks>,
}

impl Drop for Knowledge<'_> {
    /// Lets its parts go, in one call for all who let one go.
    fn drop(self) {
        let Knowledge {
            scope: _,
            attributes: _,
        } = self;
    }
}

impl<'a> Model for Knowledge<'a> {
    ghost use Rattle.tsa_rules_bodies.specs.Knowing.{Knowledge};

    ghost Value = { Knowledge };

    ghost view = { λ k. record { here = k.scope; attributes = k.attributes.items } };
}

impl<'a> Knowledge<'a> {
    /// The locks that a function names, by its number.
    pub fn locks_of(&self, function: u32) -> &[NamedLock]
        ensures { result.now ≡ attributes_at self.now.attributes function }
    {
        match self.attributes.get(function as usize) {
            Some(locks) => &locks.locks,
            None => &[],
        }
    }
}

/// What is known in front of the first item of a unit.
pub fn outset<'a>(alloc: Global, ground: &Ground<'_, 'a>) -> Result<Knowledge<'a>, NoMemory>
    ensures { IfOk result (λ known. known ≡ outset_of (unit_at ground.now)) }
{
    Ok(Knowledge {
        scope: tsa_types_scope::outset(alloc, ground.items)?,
        attributes: Vec::new(alloc),
    })
}

/// Which locals of a function never change.
pub(crate) fn stable_locals(
    ground: &Ground<'_, '_>,
    head: &FnTree<'_>,
) -> Result<Vec<bool>, NoMemory>
    ensures { IfOk result (λ stable. stable_in stable.items ≡ stable_of (unit_at ground.now) (head_shape head.now)) }
{
    ground.bodies.stable(head)
}

/// Keeps the locks that a function names which is declared for the first time.
fn keep_locks<'a>(
    known: &mut Knowledge<'a>,
    head: &FnTree<'a>,
    stable: &[bool],
) -> Result<(), NoMemory>
    ensures { OnOk result (known.new ≡ with_function (attrs_of (stable_in stable.now) known.old.here (head_shape head.now).attrs) known.old) }
{
    let sight = Sight {
        scope: &known.scope,
        stable,
    };
    let locks = named_locks(sight, head.attrs)?;
    known.attributes.push(locks)?;
    Ok(())
}

/// Enters a function whose head is typed, where some of its locals never change. What is left behind it.
pub(crate) fn enter_head<'a>(
    known: &mut Knowledge<'a>,
    head: &FnTree<'a>,
    stable: &[bool],
) -> Result<Outside, NoMemory>
    requires typed { types.first (heads.head_premises known.old.here (head_shape head.now) (is_some head.now.body)) ≡ None }
    ensures entered { (unit : Given) → stable_in stable.now ≡ stable_of unit (head_shape head.now)
        → OnOk result (known.new ≡ entered unit known.old (head_shape head.now) (is_some head.now.body)) }
    ensures outside { IfOk result (λ outside. outside ≡ outside_of known.old.here (head_shape head.now) (is_some head.now.body)) }
{
    let is_first = known.scope.declared(head.name.text).is_none();
    let outside = enter(&mut known.scope, head)?;
    if is_first {
        keep_locks(known, head, stable)?;
    }
    Ok(outside)
}

/// A function, which is known behind its item with the locks that it names.
pub(crate) fn pass_function<'a>(
    ground: &Ground<'_, 'a>,
    known: &mut Knowledge<'a>,
    head: &FnTree<'a>,
) -> Result<(), NoMemory>
    requires typed { types.first (typed.item_premises known.old.here (function_shape head.now)) ≡ None }
    ensures { OnOk result (known.new ≡ behind (unit_at ground.now) known.old (function_shape head.now)) }
{
    let stable = stable_locals(ground, head)?;
    let outside = enter_head(known, head, &stable)?;
    leave(&mut known.scope, outside);
    Ok(())
}

/// An item that is typed where it stands: behind it what it declares is known.
pub fn pass<'a>(
    ground: &Ground<'_, 'a>,
    known: &mut Knowledge<'a>,
    item: &Item<'a>,
) -> Result<(), NoMemory>
    requires typed { types.first (typed.item_premises known.old.here (item_shape item.now)) ≡ None }
    ensures { OnOk result (known.new ≡ behind (unit_at ground.now) known.old (item_shape item.now)) }
{
    match item {
        Item::Function(head) => pass_function(ground, known, head),
        _ => know_item(&mut known.scope, item),
    }
}
