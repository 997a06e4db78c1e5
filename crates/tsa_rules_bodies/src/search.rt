//! The body of a function by its number.
ghost use Rattle.std.specs.Prelude.{◌≡◌, ◌∷◌, [], None, Ok, Some, option_map, IfOk};
ghost use Rattle.tsa_place_model.specs.Units.{placed_in};
ghost use Rattle.tsa_profile.specs.Judging.{unit_at};
ghost use Rattle.tsa_rules_bodies.specs.Entering.{IsAt, Seeks};
ghost use Rattle.tsa_rules_bodies.specs.Finding.{IsFound};
ghost use Rattle.tsa_rules_bodies.specs.Knowing.{outset_of};
ghost use Rattle.tsa_rules_bodies.specs.Sites.{site_of};
ghost use Rattle.tsa_profile.specs.Units.{unit_of};
ghost use Rattle.tsa_tree.specs.types.Premises as types;
ghost use Rattle.tsa_tree.specs.types.Units as typed;
ghost use Rattle.tsa_tree.specs.units.Shapes.{item_shape, item_shapes, HaveTheirPoints};

use crate::entries::{enter_item, leave_body};
use crate::inside::Inside;
use crate::knowledge::{Knowledge, outset};
use std::alloc::Global;
use tsa_base::NoMemory;
use tsa_core_environment::Bodies;
use tsa_place::Places;
use tsa_profile::Ground;
use tsa_tree::item::Item;
use tsa_types::Typed;

/// The body of a function, with what is known where its statements begin.
#[derive(Drop)]
pub struct BodySite<'a> {
    pub known: Knowledge<'a>,
    pub inside: Inside<'a>,
}

/// Enters the body of a function where an item is that, and passes any other item.
fn seek_in<'a>(
    ground: &Ground<'_, 'a>,
    known: &mut Knowledge<'a>,
    item: &'a Item<'a>,
    function: u32,
) -> Result<Option<Inside<'a>>, NoMemory>
    requires typed { types.first (typed.item_premises known.old.here (item_shape item.now)) ≡ None }
    requires points { ∥ HaveTheirPoints (item.now ∷ []) ∥₁ }
    ensures { IfOk result (λ inside. Seeks (unit_at ground.now) function known.old (item_shape item.now) known.new inside) }
{
    match enter_item(ground, known, item)? {
        Some(inside) => {
            if inside.number == function {
                return Ok(Some(inside));
            }
            leave_body(known, &inside);
            Ok(None)
        }
        None => Ok(None),
    }
}

/// Walks along the items up to the body of a function, which is entered.
fn seek<'a>(
    ground: &Ground<'_, 'a>,
    known: &mut Knowledge<'a>,
    function: u32,
) -> Result<Option<Inside<'a>>, NoMemory>
    requires outset { known.old ≡ outset_of (unit_at ground.now) }
    requires points { ∥ HaveTheirPoints ground.now.items.now ∥₁ }
    ensures { IfOk result (λ inside. IsAt (unit_at ground.now) function (site_of (item_shapes ground.now.items.now) function) known.new
        inside) }
{
    'each: for item in ground.items {
        if let Some(inside) = seek_in(ground, known, item, function)? {
            return Ok(Some(inside));
        }
    }
    Ok(None)
}

/// The body of a function by its number on the ground of a typed unit, with what is known there. None where the function has no body in the
/// unit.
pub fn site<'a>(
    alloc: Global,
    ground: &Ground<'_, 'a>,
    function: u32,
) -> Result<Option<BodySite<'a>>, NoMemory>
    requires points { ∥ HaveTheirPoints ground.now.items.now ∥₁ }
    ensures { IfOk result (λ site. IsFound (unit_at ground.now) function (site_of (item_shapes ground.now.items.now) function) site) }
{
    let mut known = outset(alloc, ground)?;
    match seek(ground, &mut known, function)? {
        Some(inside) => Ok(Some(BodySite { known, inside })),
        None => Ok(None),
    }
}

/// The body of a function of a typed unit by its number, with what is known there. None where the function has none. The places are those
/// of the unit.
pub fn site_in<'a>(
    alloc: Global,
    unit: &Typed<'a>,
    places: &Places,
    function: u32,
) -> Result<Option<BodySite<'a>>, NoMemory>
    requires placed { placed_in (item_shapes unit.now.unit.now.items.now) ≡ Ok places.now }
    ensures { IfOk result (λ found. IsFound (unit_of [] (item_shapes unit.now.unit.now.items.now)) function
        (site_of (item_shapes unit.now.unit.now.items.now) function) found) }
{
    let items = unit.unit().items;
    let layout = places.layout();
    let bodies = Bodies::new(alloc, items)?;
    let ground = Ground {
        items,
        layout: &layout,
        bodies: &bodies,
        outside: &[],
    };
    site(alloc, &ground, function)
}
