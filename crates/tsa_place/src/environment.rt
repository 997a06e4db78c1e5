//! What is known where the places of a global are put, with what its cells hold at the start (C11 6.7.9).
ghost use Rattle.std.specs.Prelude.{◌≡◌, ◌≤◌, length, option_map, IfOk};
ghost use Rattle.tsa_place_model.specs.Calls.{evaluated, no_locals};
ghost use Rattle.tsa_place.specs.Filling.{before, values_by};
ghost use Rattle.tsa_place_model.specs.Parts.{place_limit};
ghost use Rattle.tsa_place_model.specs.GlobalPlaces.{address_in, cell_value};
ghost use Rattle.tsa_tree.specs.declarations.Shapes.{init_shape};
ghost use Rattle.tsa_tree.specs.expressions.Shapes.{shape};

use crate::{or_zero, zero_of};
use tsa_base::{NoMemory, Value};
use tsa_place_layout::{Layout, Part, Sight, Structures};
use tsa_place_model::Placed;
use tsa_tree::decl::Init;
use tsa_tree::expr::Expr;
use tsa_tree::kind::Kind;
use tsa_types_scope::Scope;

/// What is known by name, the structs, and the globals before this one with the first place of each and how many places they take together.
#[derive(Clone, Copy)]
pub struct Known<'t, 'a> {
    pub scope: &'t Scope<'a>,
    pub structs: &'t Structures,
    pub globals: &'t [Part],
    pub starts: &'t [u32],
    pub count: usize,
}

impl<'t, 'a> Known<'t, 'a> {
    /// The place whose address an expression is, among those of earlier globals.
    fn address(self, places: &[Placed], expr: &Expr<'_>) -> Result<Option<u32>, NoMemory>
        requires { length places.now ≤ place_limit }
        ensures { IfOk result (λ place. place
            ≡ address_in self.entry.scope.now
            (record {
              structs = self.entry.structs.now;
              globals = self.entry.globals.now;
              starts = self.entry.starts.now;
              places =
                  places.now;
            }) (shape expr.now)) }
    {
        let sight = Sight {
            scope: self.scope,
            stable: &[],
        };
        let Some(path) = sight.address_path(expr)? else {
            return Ok(None);
        };
        let layout = Layout::new(self.structs, self.globals, self.starts, places);
        Ok(layout.evaluate(&[], None, &path))
    }

    /// What a cell of a kind holds by an expression, where the places of earlier globals are known.
    fn cell(self, places: &[Placed], kind: Kind, expr: &Expr<'_>) -> Result<Value, NoMemory>
        requires { length places.now ≤ place_limit }
        ensures { IfOk result (λ value. value
            ≡ cell_value self.entry.scope.now
            (record {
              structs = self.entry.structs.now;
              globals = self.entry.globals.now;
              starts = self.entry.starts.now;
              places =
                  places.now;
            }) kind (shape expr.now)) }
    {
        if let Kind::Pointer { .. } = kind {
            return Ok(Value::Pointer(self.address(places, expr)?));
        }
        let sight = Sight {
            scope: self.scope,
            stable: &[],
        };
        Ok(or_zero(kind, sight.value_at(expr)?))
    }

    /// What a cell of a kind holds by an initialiser, or none, where some places are put already.
    pub fn value(
        self,
        places: &[Placed],
        kind: Kind,
        init: Option<&Init<'_>>,
    ) -> Result<Value, NoMemory>
        requires few { self.count ≤ place_limit }
        ensures { IfOk result (λ value. value ≡ values_by self.entry places.now kind (option_map (λ x. init_shape x.now) init.entry)) }
    {
        match init {
            Some(Init::Value(expr)) => {
                let earlier = places.get(..self.count).unwrap_or(places);
                self.cell(earlier, kind, expr)
            }
            _ => Ok(zero_of(kind)),
        }
    }
}
