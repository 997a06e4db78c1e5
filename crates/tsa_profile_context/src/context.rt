//! What the items of a unit are judged with.
ghost use Rattle.std.specs.Prelude.{◌≡◌, None};
ghost use Rattle.tsa_core.specs.Programs.{program_of};
ghost use Rattle.tsa_tree.specs.types.FirstFailing.{first_failing};
ghost use Rattle.tsa_tree.specs.units.Shapes.{item_shapes};

use tsa_core_environment::Bodies;
use tsa_place_layout::Layout;
use tsa_tree::item::Item;

/// A typed unit: its items, its layout, its bodies by name, and the numbers of functions whose bodies are said to stand elsewhere.
#[derive(Clone, Copy)]
pub struct Ground<'t, 'a> {
    pub items: &'a [Item<'a>],
    pub layout: &'t Layout<'t>,
    pub bodies: &'t Bodies<'a>,
    pub outside: &'t [u32],
    pub ghost laid: { layout.now ≡ (program_of (item_shapes items.now)).layout },
    pub ghost bodied: { bodies.now.items ≡ items },
    pub ghost typed: { first_failing (item_shapes items.now) ≡ None },
}
