//! The calls of expressions (C11 6.5.2.2).
ghost use Rattle.std.specs.Prelude.{◌≡◌, option_map, option_and_then};
ghost use Rattle.tsa_core.specs.Meanings.{call_in};
ghost use Rattle.tsa_tree.specs.expressions.Shapes.{shape};
ghost use Rattle.tsa_tree.specs.types.Expressions.{function_of as spec_function_of};
ghost use Rattle.tsa_tree.specs.types.Scopes.{known_in};

use tsa_tree::expr::{BinaryOp, Expr, ExprKind, UnaryOp};
use tsa_types_expressions::function_of;
use tsa_types_scope::Scope;

/// The function that a name stands for, by its number.
fn function_named(scope: &Scope<'_>, name: &[u8]) -> Option<u32>
    ensures { result ≡ option_and_then (λ e. spec_function_of e.meaning) (known_in scope.now name.now) }
{
    function_of(scope.known(name)?)
}

/// The function that an expression's call calls, by its number: the whole of it is the call, or in a condition what stands behind `!` or
/// beside `==` or `!=`.
#[tactic(auto, using(crate::proofs::NodeCalls::node_calls), unfolding(tsa_core::specs::Meanings::call_in))]
pub fn function_called(scope: &Scope<'_>, expr: &Expr<'_>) -> Option<u32>
    ensures { result ≡ option_map (λ c. c.function) (call_in scope.now (shape expr.now)) }
{
    match &expr.kind {
        ExprKind::Call { callee, .. } => function_named(scope, callee.text),
        ExprKind::Unary {
            op: UnaryOp::Not,
            inner,
        } => function_called(scope, inner),
        ExprKind::Binary {
            op: BinaryOp::Equal | BinaryOp::Unequal,
            left,
            right,
        } => match function_called(scope, left) {
            Some(function) => Some(function),
            None => function_called(scope, right),
        },
        _ => None,
    }
}
