//! Typed units, behind whose items a global of a parameter's type is initialised (C11 6.7.9).
ghost use Rattle.std.specs.Prelude.{◌≡◌, None, IfOk};
ghost use Rattle.tsa_profile.specs.Arguments.{argument_of, behind_unit as spec_behind_unit, parameter_type as spec_parameter_type};
ghost use Rattle.tsa_tree.specs.expressions.Shapes.{shape};
ghost use Rattle.tsa_tree.specs.types.FirstFailing.{first_failing};
ghost use Rattle.tsa_tree.specs.units.Shapes.{item_shapes};

use crate::scope_after::behind_unit;
use crate::unit_end::Ending;
use std::alloc::Global;
use tsa_base::{NoMemory, Value};
use tsa_place_layout::Layout;
use tsa_tree::expr::Expr;
use tsa_tree::item::Item;
use tsa_tree::kind::ThingType;
use tsa_types_scope::Scope;

/// A parameter of a function, by their numbers.
#[derive(Clone, Copy)]
pub struct Parameter {
    pub function: u32,
    pub number: u32,
}

/// The items of a typed unit, with its layout.
#[derive(Clone, Copy)]
pub struct Unit<'t, 'a> {
    pub items: &'t [Item<'a>],
    pub layout: &'t Layout<'t>,
    pub ghost typed: { first_failing (item_shapes items.now) ≡ None },
}

/// The type of a parameter, where there is one of its number.
fn parameter_type(scope: &Scope<'_>, parameter: Parameter) -> Option<ThingType>
    ensures { result ≡ spec_parameter_type scope.now parameter }
{
    let params = scope.params(parameter.function);
    params.get(parameter.number as usize).copied()
}

impl<'t, 'a> Unit<'t, 'a> {
    /// What is known behind all items.
    #[tactic(auto, using(tsa_tree::proofs::types::UnitNodes::premises_tell_it))]
    fn scope(self, alloc: Global) -> Result<Scope<'a>, NoMemory>
        ensures { IfOk result (λ scope. scope ≡ spec_behind_unit (item_shapes self.entry.items.now)) }
    {
        behind_unit(alloc, self.items)
    }

    /// The value that an expression has as the initialiser of a global of a parameter's type, which is declared behind all items. None
    /// where a premise of types or of the profile fails for such an initialiser.
    pub fn argument(
        self,
        alloc: Global,
        parameter: Parameter,
        expr: &Expr<'_>,
    ) -> Result<Option<Value>, NoMemory>
        ensures { IfOk result (λ value. value ≡ argument_of (item_shapes self.entry.items.now) self.entry.layout.now parameter
            (shape expr.now)) }
    {
        let scope = self.scope(alloc)?;
        let Some(thing) = parameter_type(&scope, parameter) else {
            return Ok(None);
        };
        let ending = Ending {
            scope: &scope,
            layout: self.layout,
        };
        ending.value_seen(thing, expr)
    }
}
