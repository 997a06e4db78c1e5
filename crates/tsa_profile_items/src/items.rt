//! All items of a unit, each with what is known in front of it.
ghost use Rattle.std.specs.Prelude.{◌≡◌, [], None, IfOk, OnOk};
ghost use Rattle.tsa_profile_context.specs.ItemJudgements.{Judges, forget};
ghost use Rattle.tsa_profile_context.specs.Judging.{behind, behind_all, outset_of, unit_at};
ghost use Rattle.tsa_profile_context.specs.Tables.{tables_of_all};
ghost use Rattle.tsa_profile_context.specs.Units.{attributes_behind, item_premises, items_premises, refusal_with, unit_of};
ghost use Rattle.tsa_profile_accesses.specs.Premises.{first};
ghost use Rattle.tsa_tree.specs.types.Premises as types;
ghost use Rattle.tsa_tree.specs.types.Units as typed;
ghost use Rattle.tsa_tree.specs.units.Shapes.{item_shape, item_shapes};

use crate::functions::function;
use std::alloc::Global;
use tsa_base::NoMemory;
use tsa_core_environment::{know_alias, know_enum};
use tsa_path::PathTable;
use tsa_profile_context::{Ground, Knowledge, ProfileRefusal, answer_of, or_else};
use tsa_tree::item::Item;
use tsa_types_scope::outset;

/// An item.
fn item<'a>(
    ground: &Ground<'_, 'a>,
    known: &mut Knowledge<'a>,
    item: &Item<'a>,
) -> Result<(), ProfileRefusal>
    requires outside { known.old.here.owned ≡ [] }
    requires typed { types.first (typed.item_premises known.old.here (item_shape item.now)) ≡ None }
    ensures judged { Judges (first (item_premises (unit_at ground.now) known.old.attributes
        (attributes_behind (unit_at ground.now) known.old.attributes known.old.here (item_shape item.now)) known.old.here
        (item_shape item.now))) result }
    ensures behind { OnOk result (known.new ≡ behind (unit_at ground.now) known.old (item_shape item.now)) }
{
    match item {
        Item::Structure(def) => ground.structure(known, def),
        Item::Global(decl) => ground.global(known, decl),
        Item::Function(head) => function(ground, known, head),
        Item::Alias(def) => Ok(know_alias(&mut known.scope, def)?),
        Item::Enumeration(def) => Ok(know_enum(&mut known.scope, def)?),
    }
}

/// All items in order.
fn each_item<'a>(ground: &Ground<'_, 'a>, known: &mut Knowledge<'a>) -> Result<(), ProfileRefusal>
    requires outset { known.old ≡ outset_of (unit_at ground.now) }
    ensures judged { Judges (first (items_premises (unit_at ground.now) [] (typed.outset (item_shapes ground.now.items.now))
        (item_shapes ground.now.items.now))) result }
    ensures behind { OnOk result (known.new ≡ behind_all (unit_at ground.now) (outset_of (unit_at ground.now))
        (item_shapes ground.now.items.now)) }
{
    'each: for next in ground.items {
        item(ground, known, next)?;
    }
    Ok(())
}

/// What is known in front of the first item.
fn at_outset<'a>(alloc: Global, ground: &Ground<'_, 'a>) -> Result<Knowledge<'a>, NoMemory>
    ensures { IfOk result (λ known. known ≡ outset_of (unit_at ground.now)) }
{
    Ok(Knowledge {
        scope: outset(alloc, ground.items)?,
        attributes: Vec::new(alloc),
        tables: Vec::new(alloc),
        tries: None,
        paths: None,
    })
}

/// All items, and behind them the first function that passes a limit.
fn all<'a>(ground: &Ground<'_, 'a>, known: &mut Knowledge<'a>) -> Result<(), ProfileRefusal>
    requires outset { known.old ≡ outset_of (unit_at ground.now) }
    ensures judged { Judges (refusal_with ground.now.outside.now (item_shapes ground.now.items.now)) result }
    ensures behind { OnOk result (known.new ≡ behind_all (unit_at ground.now) (outset_of (unit_at ground.now))
        (item_shapes ground.now.items.now)) }
{
    each_item(ground, known)?;
    answer_of(or_else(known.tries, known.paths))?;
    Ok(())
}

/// The whole unit: the paths of its functions by their numbers, or why it isn't in the profile.
pub fn judge(
    alloc: Global,
    ground: &Ground<'_, '_>,
) -> Result<Vec<Option<PathTable>>, ProfileRefusal>
    ensures judged { Judges (refusal_with ground.now.outside.now (item_shapes ground.now.items.now)) (forget result) }
    ensures tables { IfOk result (λ tables. tables.items ≡ tables_of_all (unit_of ground.now.outside.now (item_shapes ground.now.items.now))
        [] [] (typed.outset (item_shapes ground.now.items.now)) (item_shapes ground.now.items.now)) }
{
    let mut known = at_outset(alloc, ground)?;
    all(ground, &mut known)?;
    Ok(known.into_tables())
}
