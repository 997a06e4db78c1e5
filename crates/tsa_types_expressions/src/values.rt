//! What an expression is worth where it is a constant (C11 6.6).
ghost use Rattle.std.specs.Prelude.{◌≡◌, IfOk};
ghost use Rattle.tsa_types_expressions.specs.Found.{found_value};

use crate::constants::Found;
use crate::expressions::View;
use tsa_base::NoMemory;
use tsa_tree::expr::Expr;
use tsa_tree::number::Number;
use tsa_tree::premise::Failure;
use tsa_types_row::Row;

/// What an expression is worth by what it was found to be; what has no type has no value.
pub fn value_of(found: Result<Found, Failure>) -> Option<Number>
    ensures { result ≡ found_value found }
{
    found.ok()?.value()
}

impl View<'_, '_> {
    ghost use Rattle.tsa_tree.specs.expressions.Shapes.{shape};
    ghost use Rattle.tsa_tree.specs.types.DeclaredTypes.{value_in};
    ghost use Rattle.tsa_tree.specs.types.Scopes.{context_of};

    /// What an expression is worth, where it is a constant. It is put into the row elsewhere.
    #[tactic(auto, using(crate::proofs::ValueLaws::values))]
    pub fn value(self, expr: &Expr<'_>) -> Result<Option<Number>, NoMemory>
        ensures { IfOk result (λ value. value ≡ value_in (context_of self.entry.scope.now) (shape expr.now)) }
    {
        let mut unheard = Row::new(self.scope.allocator());
        let found = self.expression(&mut unheard, expr)?;
        Ok(value_of(found))
    }
}
