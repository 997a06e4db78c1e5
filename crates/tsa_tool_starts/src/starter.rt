//! Starters: what is known of a unit, by which words say how its threads begin.
ghost use Rattle.std.specs.Prelude.{◌≡◌, Ok, IfOk};
ghost use Rattle.tsa_place_model.specs.Units.{placed_in};
ghost use Rattle.tsa_profile.specs.Arguments.{behind_unit as spec_behind_unit};
ghost use Rattle.tsa_tree.specs.units.Shapes.{item_shapes};

use std::alloc::Global;
use tsa_base::NoMemory;
use tsa_place::Places;
use tsa_profile::{Fit, behind_unit};
use tsa_types_scope::Scope;

/// A unit in the profile with its places, and what is known behind all its items.
#[derive(Drop)]
pub struct Starter<'f, 'a> {
    pub(crate) alloc: Global,
    pub(crate) unit: &'f Fit<'a>,
    pub(crate) places: &'f Places,
    pub(crate) scope: Scope<'a>,
    pub ghost placed: { placed_in (item_shapes unit.now.typed.unit.now.items.now) ≡ Ok places.now },
    pub ghost behind: { scope ≡ spec_behind_unit (item_shapes unit.now.typed.unit.now.items.now) },
}

impl<'f, 'a> Starter<'f, 'a> {
    /// Reads what is known behind all items of a unit. The places are those of the unit.
    #[tactic(auto, using(tsa_tree::proofs::types::UnitNodes::premises_tell_it))]
    pub fn new(
        alloc: Global,
        unit: &'f Fit<'a>,
        places: &'f Places,
    ) -> Result<Starter<'f, 'a>, NoMemory>
        requires placed { placed_in (item_shapes unit.now.typed.unit.now.items.now) ≡ Ok places.now }
        ensures unit { IfOk result (λ starter. starter.unit.now ≡ unit.now) }
        ensures places { IfOk result (λ starter. starter.places.now ≡ places.now) }
    {
        let scope = behind_unit(alloc, unit.unit().items)?;
        Ok(Starter {
            alloc,
            unit,
            places,
            scope,
        })
    }
}
