//! The end of a unit, where a further global is initialised by an expression (C11 6.7.9).
ghost use Rattle.std.specs.Prelude.{◌≡◌, List, Some, IfOk};
ghost use Rattle.tsa_profile.specs.Arguments.{is_in_profile as spec_is_in_profile, value_seen as spec_value_seen, view_with};
ghost use Rattle.tsa_core.specs.Programs.{Attr};
ghost use Rattle.tsa_place_model.specs.GlobalPlaces.{address_in, values_in};
ghost use Rattle.tsa_tree.specs.declarations.Syntax.{value};
ghost use Rattle.tsa_tree.specs.expressions.Shapes.{shape};

use crate::initialiser_types::is_typed;
use tsa_base::{NoMemory, Value};
use tsa_place::or_zero;
use tsa_place_layout::Layout;
use tsa_place_paths::Sight;
use tsa_profile_accesses::Body;
use tsa_profile_items::init_failure;
use tsa_tree::decl::Init;
use tsa_tree::expr::Expr;
use tsa_tree::kind::{Kind, ThingType};
use tsa_types_scope::Scope;

/// What is known behind all items of a unit, and the unit's layout.
#[derive(Clone, Copy)]
pub struct Ending<'w, 'a> {
    pub scope: &'w Scope<'a>,
    pub layout: &'w Layout<'w>,
}

impl<'w, 'a> Ending<'w, 'a> {
    /// Whether no premise of the profile fails for an initialiser. Which attributes functions have makes no difference: in an initialiser
    /// none is called.
    fn is_in_profile(self, expr: &Expr<'_>) -> Result<bool, NoMemory>
        ensures { IfOk result (λ allows. (attributes : List (List Attr))
            → allows ≡ spec_is_in_profile (view_with attributes self.entry.layout.now self.entry.scope.now) (shape expr.now)) }
    {
        let body = Body {
            sight: Sight {
                scope: self.scope,
                stable: &[],
            },
            layout: self.layout,
            attributes: &[],
            is_run: false,
        };
        let failure = init_failure(body, &Init::Value(*expr))?;
        Ok(failure.is_none())
    }

    /// The place whose address an expression is, where it is one.
    fn address(self, expr: &Expr<'_>) -> Result<Option<u32>, NoMemory>
        ensures { IfOk result (λ place. place ≡ address_in self.entry.scope.now self.entry.layout.now (shape expr.now)) }
    {
        let sight = Sight {
            scope: self.scope,
            stable: &[],
        };
        let Some(path) = sight.address_path(expr)? else {
            return Ok(None);
        };
        Ok(self.layout.evaluate(&[], None, &path))
    }

    /// What a cell of a kind holds by an expression.
    fn value(self, kind: Kind, expr: &Expr<'_>) -> Result<Value, NoMemory>
        ensures { IfOk result (λ held. held ≡ values_in self.entry.scope.now self.entry.layout.now kind (Some (value (shape expr.now)))) }
    {
        if let Kind::Pointer { .. } = kind {
            return Ok(Value::Pointer(self.address(expr)?));
        }
        let sight = Sight {
            scope: self.scope,
            stable: &[],
        };
        Ok(or_zero(kind, sight.value_at(expr)?))
    }

    /// The value of an expression as the initialiser of a global of a type; none where a premise fails for it.
    pub fn value_seen(self, thing: ThingType, expr: &Expr<'_>) -> Result<Option<Value>, NoMemory>
        ensures { IfOk result (λ held. (attributes : List (List Attr))
            → held ≡ spec_value_seen (view_with attributes self.entry.layout.now self.entry.scope.now) thing (shape expr.now)) }
    {
        if !is_typed(self.scope, thing, expr)? {
            return Ok(None);
        }
        if !self.is_in_profile(expr)? {
            return Ok(None);
        }
        Ok(Some(self.value(thing.kind, expr)?))
    }
}
