//! Typed units are in the profile, or a node or a function of them is refused.
ghost use Rattle.std.specs.Prelude.{◌≡◌, [], Ok, map, IfOk};
ghost use Rattle.tsa_core.specs.Programs.{program_of};
ghost use Rattle.tsa_profile_items.specs.ItemJudgements.{Judges, forget};
ghost use Rattle.tsa_profile_items.specs.Units.{refusal_of_profile, refusal_with};
ghost use Rattle.tsa_place_model.specs.Units.{placed_in};
ghost use Rattle.tsa_profile.specs.Paths.{paths_if};
ghost use Rattle.tsa_tree.specs.units.Shapes.{item_shapes};

use crate::unit::Fit;
use std::alloc::Global;
use tsa_base::NoMemory;
use tsa_path::PathTable;
use tsa_place::Places;
use tsa_profile_items::{Bodies, Ground, ProfileRefusal, Typed, judge};

/// The same numbers once more.
fn copied(alloc: Global, numbers: &[u32]) -> Result<Vec<u32>, NoMemory>
    ensures { IfOk result (λ copy. copy.items ≡ numbers.now) }
{
    Ok(numbers.to_vec(alloc)?)
}

/// The paths of the functions of a typed unit by their numbers, or why it isn't in the profile.
fn tables(
    alloc: Global,
    unit: &Typed<'_>,
    places: &Places,
    outside: &[u32],
) -> Result<Vec<Option<PathTable>>, ProfileRefusal>
    requires placed { placed_in (item_shapes unit.now.unit.now.items.now) ≡ Ok places.now }
    ensures judged { Judges (refusal_with outside.now (item_shapes unit.now.unit.now.items.now)) (forget result) }
    ensures tables { IfOk result (λ tables. tables.items ≡ map (paths_if (program_of (item_shapes unit.now.unit.now.items.now)))
        (program_of (item_shapes unit.now.unit.now.items.now)).functions) }
{
    let items = unit.unit().items;
    let layout = places.layout();
    let bodies = Bodies::new(alloc, items)?;
    let ground = Ground {
        items,
        layout: &layout,
        bodies: &bodies,
        outside,
    };
    judge(alloc, &ground)
}

/// A typed unit that is in the profile, or its first failing node with the smallest code that fails there, or the first function that
/// passes a limit. The places are those of the unit, and of the functions of some numbers no body is asked for.
pub fn fit_with<'a>(
    alloc: Global,
    unit: Typed<'a>,
    places: &Places,
    outside: &[u32],
) -> Result<Fit<'a>, ProfileRefusal>
    requires placed { placed_in (item_shapes unit.unit.now.items.now) ≡ Ok places.now }
    ensures judged { Judges (refusal_with outside.now (item_shapes unit.entry.unit.now.items.now)) (forget result) }
    ensures gives { IfOk result (λ fit. fit.typed ≡ unit.entry) }
    ensures outside { IfOk result (λ fit. fit.outside.items ≡ outside.now) }
{
    let tables = tables(alloc, &unit, places, outside)?;
    let outside = copied(alloc, outside)?;
    Ok(Fit {
        typed: unit,
        outside,
        tables,
    })
}

/// The same where every function without a body has to be a lock function or one of the environment.
pub fn fit<'a>(alloc: Global, unit: Typed<'a>, places: &Places) -> Result<Fit<'a>, ProfileRefusal>
    requires placed { placed_in (item_shapes unit.unit.now.items.now) ≡ Ok places.now }
    ensures judged { Judges (refusal_of_profile (item_shapes unit.entry.unit.now.items.now)) (forget result) }
    ensures gives { IfOk result (λ fit. fit.typed ≡ unit.entry) }
    ensures outside { IfOk result (λ fit. fit.outside.items ≡ []) }
{
    fit_with(alloc, unit, places, &[])
}
