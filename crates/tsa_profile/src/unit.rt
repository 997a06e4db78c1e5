//! Units in the profile.
ghost use Rattle.std.specs.Prelude.{◌≡◌, None, Ok, map, option_map, option_and_then, slice_get, IfOk};
ghost use Rattle.tsa_profile.specs.Arguments.{argument_of};
ghost use Rattle.tsa_core.specs.Programs.{program_of};
ghost use Rattle.tsa_place_model.specs.Units.{placed_in};
ghost use Rattle.tsa_profile.specs.Paths.{paths_if};
ghost use Rattle.tsa_profile_items.specs.Units.{refusal_with};
ghost use Rattle.tsa_tree.specs.expressions.Shapes.{shape};
ghost use Rattle.tsa_tree.specs.units.Shapes.{item_shapes};

use crate::{Parameter, Unit};
use std::alloc::Global;
use tsa_base::{NoMemory, Value};
use tsa_path::PathTable;
use tsa_place::Places;
use tsa_profile_items::Typed;
use tsa_tree::expr::Expr;
use tsa_tree::item::UnitTree;

/// A typed unit of which no premise of the profile fails, where the functions of some numbers may have their bodies elsewhere, with the
/// paths of its functions.
pub struct Fit<'a> {
    pub(crate) typed: Typed<'a>,
    pub(crate) outside: Vec<u32>,
    pub(crate) tables: Vec<Option<PathTable>>,
    pub ghost profiled: { refusal_with outside.items (item_shapes typed.unit.now.items.now) ≡ None },
    ghost tabled: { tables.items ≡ map (paths_if (program_of (item_shapes typed.unit.now.items.now))) (program_of (item_shapes typed.unit.now.items.now)).functions },
}

impl Drop for Fit<'_> {
    /// Lets its parts go, in one call for all who let one go.
    fn drop(self) {
        let Fit {
            typed: _,
            outside: _,
            tables: _,
        } = self;
    }
}

impl<'a> Fit<'a> {
    /// The tree.
    pub fn unit(&self) -> &'a UnitTree<'a>
        ensures { result ≡ self.now.typed.unit }
    {
        self.typed.unit()
    }

    /// The unit without what its profile tells.
    pub fn typed(&self) -> &Typed<'a>
        ensures { result.now ≡ self.now.typed }
    {
        &self.typed
    }

    /// The paths of a function by its number, numbered in their order: first those of its attributes. None where it has no body.
    #[tactic(auto, using(crate::proofs::TableLists::tables))]
    pub fn paths(&self, function: u32) -> Option<&PathTable>
        ensures { option_map (λ table. table.now) result
            ≡ option_and_then (paths_if (program_of (item_shapes self.now.typed.unit.now.items.now)))
            (slice_get (program_of (item_shapes self.now.typed.unit.now.items.now)).functions function) }
    {
        match self.tables.get(function as usize) {
            Some(Some(table)) => Some(table),
            _ => None,
        }
    }

    /// The value that an expression has as the initialiser of a global of the type of a function's parameter, by the numbers of both, where
    /// the global is declared behind all items. Its names are looked up by their texts, and its spans aren't used. None where a premise of
    /// types or of the profile fails for such an initialiser, or where there is no such parameter. The places are those of the unit.
    pub fn argument(
        &self,
        alloc: Global,
        places: &Places,
        function: u32,
        number: u32,
        expr: &Expr<'_>,
    ) -> Result<Option<Value>, NoMemory>
        requires placed { placed_in (item_shapes self.now.typed.unit.now.items.now) ≡ Ok places.now }
        ensures { IfOk result (λ value. value ≡ argument_of (item_shapes self.now.typed.unit.now.items.now) places.now
            (record { function = function; number = number }) (shape expr.now)) }
    {
        let layout = places.layout();
        let unit = Unit {
            items: self.typed.unit().items,
            layout: &layout,
        };
        unit.argument(alloc, Parameter { function, number }, expr)
    }
}
