//! The tables by which the bodies of a unit are gone through.
ghost use Rattle.std.specs.Prelude.{◌≡◌, None, Ok, IfOk};
ghost use Rattle.tsa_core.specs.Programs.{program_of};
ghost use Rattle.tsa_place_model.specs.Units.{placed_in};
ghost use Rattle.tsa_flow_function.specs.Kinds.{kinds_of};
ghost use Rattle.tsa_tree.specs.types.FirstFailing.{first_failing};
ghost use Rattle.tsa_tree.specs.units.Shapes.{item_shapes};

use crate::passage::Pass;
use std::alloc::Global;
use tsa_base::NoMemory;
use tsa_core_environment::Bodies;
use tsa_flow_function::{LockKind, lock_kinds};
use tsa_place::Places;
use tsa_place_layout::Layout;
use tsa_profile_context::Ground;
use tsa_rules_bodies::Fit;
use tsa_tree::item::Item;

/// The items of a typed unit with its layout, its bodies by name, and what kinds of locks its structs are.
pub struct UnitTables<'w, 'a> {
    pub(crate) items: &'a [Item<'a>],
    layout: Layout<'w>,
    bodies: Bodies<'a>,
    kinds: Vec<Option<LockKind<'a>>>,
    ghost typed: { first_failing (item_shapes items.now) ≡ None },
    ghost laid: { layout ≡ (program_of (item_shapes items.now)).layout },
    ghost bodied: { bodies.items ≡ items },
    ghost locks: { kinds_of kinds.items ≡ (program_of (item_shapes items.now)).locks },
}

impl Drop for UnitTables<'_, '_> {
    /// Lets its parts go, in one call for all who let one go.
    fn drop(self) {
        let UnitTables {
            items: _,
            layout: _,
            bodies: _,
            kinds: _,
        } = self;
    }
}

/// The items of a unit in the profile.
fn items_of<'a>(unit: &Fit<'a>) -> &'a [Item<'a>]
    ensures { result ≡ unit.now.typed.unit.now.items }
{
    unit.unit().items
}

/// The tables by their parts.
fn tables_of<'w, 'a>(
    items: &'a [Item<'a>],
    layout: Layout<'w>,
    bodies: Bodies<'a>,
    kinds: Vec<Option<LockKind<'a>>>,
) -> UnitTables<'w, 'a>
    requires typed { first_failing (item_shapes items.now) ≡ None }
    requires laid { layout ≡ (program_of (item_shapes items.now)).layout }
    requires bodied { bodies.items ≡ items }
    requires locks { kinds_of kinds.items ≡ (program_of (item_shapes items.now)).locks }
    ensures { result.items ≡ items.entry }
{
    UnitTables {
        items,
        layout,
        bodies,
        kinds,
    }
}

/// The tables, where there was memory for the bodies.
fn tables_with<'w, 'a>(
    items: &'a [Item<'a>],
    layout: Layout<'w>,
    kinds: Vec<Option<LockKind<'a>>>,
    bodies: Result<Bodies<'a>, NoMemory>,
) -> Result<UnitTables<'w, 'a>, NoMemory>
    requires typed { first_failing (item_shapes items.now) ≡ None }
    requires laid { layout ≡ (program_of (item_shapes items.now)).layout }
    requires locks { kinds_of kinds.items ≡ (program_of (item_shapes items.now)).locks }
    requires bodied { IfOk bodies (λ bodies. bodies.items ≡ items) }
    ensures { IfOk result (λ tables. tables.items ≡ items.entry) }
{
    match bodies {
        Ok(bodies) => Ok(tables_of(items, layout, bodies, kinds)),
        Err(refusal) => Err(refusal),
    }
}

/// The tables of typed items by their layout.
fn tables_in<'w, 'a>(
    alloc: Global,
    items: &'a [Item<'a>],
    layout: Layout<'w>,
) -> Result<UnitTables<'w, 'a>, NoMemory>
    requires typed { first_failing (item_shapes items.now) ≡ None }
    requires laid { layout ≡ (program_of (item_shapes items.now)).layout }
    ensures { IfOk result (λ tables. tables.items ≡ items.entry) }
{
    let kinds = lock_kinds(alloc, items)?;
    tables_with(items, layout, kinds, Bodies::new(alloc, items))
}

impl<'w, 'a> UnitTables<'w, 'a> {
    /// The tables of a unit in the profile. The places are those of the unit.
    pub fn new(
        alloc: Global,
        unit: &Fit<'a>,
        places: &'w Places,
    ) -> Result<UnitTables<'w, 'a>, NoMemory>
        requires placed { placed_in (item_shapes unit.now.typed.unit.now.items.now) ≡ Ok places.now }
        ensures { IfOk result (λ tables. tables.items ≡ unit.now.typed.unit.now.items) }
    {
        tables_in(alloc, items_of(unit), places.layout())
    }

    /// A pass along the bodies of the unit by its tables.
    pub fn pass<'s>(&'s self, unit: &'s Fit<'a>) -> Pass<'s, 'a>
        requires { unit.now.typed.unit.now.items ≡ self.now.items }
        ensures { result.fit.now ≡ unit.now }
    {
        let ground = Ground {
            items: self.items,
            layout: &self.layout,
            bodies: &self.bodies,
            outside: &[],
        };
        Pass {
            items: self.items,
            ground,
            kinds: &self.kinds,
            fit: unit,
        }
    }
}
