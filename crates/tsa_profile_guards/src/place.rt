//! What the profile asks of an expression that stands as a place inside of others, as a lock expression does (C11 6.5.3.2).
ghost use Rattle.std.specs.Prelude.{◌≡◌, false, not, ◌++◌, IfOk};
ghost use Rattle.tsa_tree.specs.expressions.Shapes.{shape};
ghost use Rattle.tsa_tree.specs.expressions.Syntax.{unary};
ghost use Rattle.tsa_profile_accesses.specs.declared.standing.Standing.TheVariants.{Inside};
ghost use Rattle.tsa_profile_accesses.specs.declared.premise.ProfileCode.TheVariants.{PF3};
ghost use Rattle.tsa_profile_accesses.specs.Expressions.{guards, own, parts};
ghost use Rattle.tsa_profile_accesses.specs.Locks.{is_empty};
ghost use Rattle.tsa_profile_accesses.specs.Premises.{first, told as spec_told};
ghost use Rattle.tsa_profile_accesses.specs.NodeAnswers.{code_if as spec_code_if, view_of};
ghost use Rattle.tsa_profile_guards.specs.Failures.{is_address as spec_is_address};

use crate::walking::{as_place, walk};
use tsa_base::{NoMemory, Span};
use tsa_profile_accesses::{
    Body, Failure, ProfileCode, Standing, Uses, are_some, code_if, operator_at,
};
use tsa_tree::expr::{Expr, ExprKind, UnaryOp};

/// A code that is told at a span, where there is one.
fn told(code: Option<ProfileCode>, span: Span) -> Option<Failure>
    ensures { result ≡ spec_told span code }
{
    match code {
        Some(code) => Some(Failure { code, span }),
        None => None,
    }
}

/// Whether a prefix operator is `&`.
fn is_address(op: UnaryOp) -> bool
    ensures { result ≡ spec_is_address op }
{
    matches!(op, UnaryOp::Address)
}

/// What fails in an expression as a place inside of others.
#[tactic(auto, using(crate::proofs::Places::nothing_behind))]
pub fn place_failure(body: Body<'_, '_>, expr: &Expr<'_>) -> Result<Option<Failure>, NoMemory>
    ensures { IfOk result (λ failure. failure
        ≡ first (own (view_of body.entry) Inside false (shape expr.now) ++ parts (view_of body.entry) Inside (shape expr.now))) }
{
    let mut uses = Uses::new(body.sight.scope.allocator());
    walk(body, &mut uses, as_place(), expr)?;
    Ok(uses.failure)
}

/// What fails at `&` before an expression: what has guards has no address.
fn address_code(body: Body<'_, '_>, inner: &Expr<'_>) -> Result<Option<ProfileCode>, NoMemory>
    ensures { IfOk result (λ code. code ≡ spec_code_if (not (is_empty (guards (view_of body.entry) (shape inner.now)))) PF3) }
{
    let mut uses = Uses::new(body.sight.scope.allocator());
    let seen = walk(body, &mut uses, as_place(), inner)?;
    Ok(code_if(are_some(&seen.guards), ProfileCode::PF3))
}

/// What fails at a prefix operator itself there, and not in its operand.
#[tactic(auto, using(crate::proofs::Places::prefixes))]
fn prefix_failure(
    body: Body<'_, '_>,
    op: UnaryOp,
    inner: &Expr<'_>,
    span: Span,
) -> Result<Option<Failure>, NoMemory>
    ensures { IfOk result (λ failure. failure ≡ first (own (view_of body.entry) Inside false (unary op (shape inner.now) span))) }
{
    if is_address(op) {
        Ok(told(address_code(body, inner)?, span))
    } else {
        Ok(None)
    }
}

/// What fails at an expression itself there, and not in its parts.
#[tactic(auto, using(crate::proofs::Places::places))]
pub fn own_failure(body: Body<'_, '_>, expr: &Expr<'_>) -> Result<Option<Failure>, NoMemory>
    ensures { IfOk result (λ failure. failure ≡ first (own (view_of body.entry) Inside false (shape expr.now))) }
{
    match &expr.kind {
        ExprKind::Call { .. } => Ok(told(Some(ProfileCode::PF1), expr.span)),
        ExprKind::Unary { op, inner } => prefix_failure(body, *op, inner, expr.span),
        ExprKind::Binary { op, left, right } => {
            let sides = body.sides_of(operator_at(*op, Standing::Inside), left, right)?;
            Ok(told(sides.code, expr.span))
        }
        ExprKind::Number { .. } => Ok(None),
        ExprKind::Null => Ok(None),
        ExprKind::Named(_) => Ok(None),
        ExprKind::Field { .. } => Ok(None),
        ExprKind::Index { .. } => Ok(None),
    }
}
