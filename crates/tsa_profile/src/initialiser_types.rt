//! What types ask of the initialiser of the next global (C11 6.7.9p4).
ghost use Rattle.std.specs.Prelude.{◌≡◌, IfOk};
ghost use Rattle.tsa_profile.specs.Arguments.{is_typed as spec_is_typed};
ghost use Rattle.tsa_tree.specs.expressions.Shapes.{shape};

use tsa_base::NoMemory;
use tsa_tree::decl::Init;
use tsa_tree::expr::Expr;
use tsa_tree::kind::ThingType;
use tsa_types_declarations::initialiser;
use tsa_types_expressions::View;
use tsa_types_row::Row;
use tsa_types_scope::Scope;

/// Whether no premise of types fails for an expression as the initialiser of the next global, which has a type. Its names are noted
/// nowhere.
pub fn is_typed(scope: &Scope<'_>, thing: ThingType, expr: &Expr<'_>) -> Result<bool, NoMemory>
    ensures { IfOk result (λ typed. typed ≡ spec_is_typed scope.now thing (shape expr.now)) }
{
    let view = View { scope, function: 0 };
    let mut unheard = Row::new(scope.allocator());
    let failure = initialiser(view, &mut unheard, Some(thing), &Init::Value(*expr))?;
    Ok(failure.is_none())
}
