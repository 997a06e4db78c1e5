//! What a test looks at and which answer it means, and which answer a return gives.
ghost use Rattle.std.specs.Prelude.{◌≡◌, option_map};
ghost use Rattle.tsa_core.specs.Meanings.{as_kind as spec_given_as, beside as spec_side, loaded, meaning, of_binary};
ghost use Rattle.tsa_tree.specs.expressions.Shapes.{shape};
ghost use Rattle.tsa_rules.specs.Conditions.{answer_in as spec_answer_in, answer_of, as_kind as spec_as_kind, beside as spec_beside};
ghost use Rattle.tsa_rules.specs.Conditions.{comparison, condition, condition_in, subject_in};
ghost use Rattle.tsa_rules.specs.Effects.{same_answer};
ghost use Rattle.tsa_rules_roles.specs.ValueAnswers.{answer_beside as spec_answer_beside, compared as spec_compared, condition_of};
ghost use Rattle.tsa_rules_roles.specs.ValueAnswers.{converted as spec_converted, given as spec_given, number as spec_number, subject};
ghost use Rattle.tsa_rules_roles.specs.ValueAnswers.{subject_of};

use crate::gist::{Gist, gist_at};
use crate::worth::Worth;
use tsa_tree::expr::{BinaryOp, Expr, ExprKind, UnaryOp};
use tsa_tree::kind::Kind;
use tsa_tree::number::Number;
use tsa_types_scope::Scope;

/// What a test looks at: the answer of the call that is made at its point, or a local by its number.
#[derive(Clone, Copy)]
pub enum Looked {
    Call,
    Local(u32),
}

/// A test that tells an answer: what it looks at, and the answer that is meant where it holds; where it doesn't, the other one is.
#[derive(Clone, Copy)]
pub struct Told {
    pub asked: Looked,
    pub yes_means: bool,
}

/// The answer that a number is.
fn answer_in(number: Number) -> Option<bool>
    ensures { result ≡ spec_answer_in number }
{
    match number {
        Number::Int(1) | Number::Unsigned(1) => Some(true),
        Number::Int(0) | Number::Unsigned(0) => Some(false),
        _ => None,
    }
}

/// A number as one of a kind, modulo 2^32 (C11 6.3.1.3).
fn as_kind(kind: Kind, number: Number) -> Number
    ensures { result ≡ spec_as_kind kind number }
{
    match (kind, number) {
        (Kind::Unsigned, _) => Number::Unsigned(number.to_unsigned()),
        (_, Number::Unsigned(n)) => Number::Int(n.cast_signed()),
        (_, Number::Int(_)) => number,
    }
}

impl Worth {
    /// What may be looked at there.
    fn looked(self) -> Option<Looked>
        ensures { option_map subject_of result ≡ subject self }
    {
        match self {
            Worth::Call => Some(Looked::Call),
            Worth::Local(number) => Some(Looked::Local(number)),
            _ => None,
        }
    }

    /// The number that it is.
    fn number(self) -> Option<Number>
        ensures { result ≡ spec_number self }
    {
        match self {
            Worth::Number(Ok(number)) => Some(number),
            _ => None,
        }
    }

    /// The answer beside which another value stands.
    fn answer_beside(self) -> Option<bool>
        ensures { result ≡ spec_answer_beside self }
    {
        match self {
            Worth::Null => Some(false),
            _ => answer_in(self.number()?),
        }
    }
}

/// What is told of what a test looks at, where it looks at something.
fn tell(asked: Option<Looked>, yes_means: bool) -> Option<Told>
    ensures { option_map condition_of result ≡ option_map (condition yes_means) (option_map subject_of asked) }
{
    Some(Told {
        asked: asked?,
        yes_means,
    })
}

/// The same by an expression that stands alone, or behind `!`.
#[tactic(auto, using(crate::proofs::Conditions::looked_at))]
fn alone_told(scope: &Scope<'_>, expr: &Expr<'_>, yes_means: bool) -> Option<Told>
    ensures { option_map condition_of result ≡ option_map (condition yes_means) (subject_in (loaded (meaning scope.now (shape expr.now)))) }
{
    tell(gist_at(scope, expr).worth.looked(), yes_means)
}

/// The same by a value beside another one.
fn told_beside(is_same: bool, side: Worth, other: Worth) -> Option<Told>
    ensures { option_map condition_of result ≡ spec_beside (same_answer is_same) (subject side) (spec_answer_beside other) }
{
    let asked = side.looked()?;
    let answer = other.answer_beside()?;
    Some(Told {
        asked,
        yes_means: if is_same { answer } else { !answer },
    })
}

/// The same by one of two values beside the other one.
fn compared(is_same: bool, left: Worth, right: Worth) -> Option<Told>
    ensures { option_map condition_of result ≡ spec_compared is_same left right }
{
    match told_beside(is_same, left, right) {
        Some(told) => Some(told),
        None => told_beside(is_same, right, left),
    }
}

/// The same by `==`, or by `!=`.
#[tactic(auto, using(crate::proofs::Conditions::compares))]
fn comparison_told(
    scope: &Scope<'_>,
    is_same: bool,
    left: &Expr<'_>,
    right: &Expr<'_>,
) -> Option<Told>
    ensures { option_map condition_of result
        ≡ comparison (same_answer is_same)
        (spec_side (meaning scope.now (shape right.entry.now)).type.thing.kind (meaning scope.now (shape left.entry.now)))
        (spec_side (meaning scope.now (shape left.entry.now)).type.thing.kind (meaning scope.now (shape right.entry.now))) }
{
    let left = gist_at(scope, left);
    let right = gist_at(scope, right);
    let first = left.beside(right.expression.thing.kind);
    let second = right.beside(left.expression.thing.kind);
    compared(is_same, first, second)
}

/// The same by a binary operator: no other than `==` and `!=` tells an answer.
fn operator_told(scope: &Scope<'_>, op: BinaryOp, left: &Expr<'_>, right: &Expr<'_>) -> Option<Told>
    ensures { option_map condition_of result
        ≡ condition_in (loaded (of_binary op (meaning scope.now (shape left.entry.now)) (meaning scope.now (shape right.entry.now)))) }
{
    match op {
        BinaryOp::Equal => comparison_told(scope, true, left, right),
        BinaryOp::Unequal => comparison_told(scope, false, left, right),
        _ => None,
    }
}

/// What a test looks at and the answer that it means where it holds: a call or a local by itself, behind `!`, or beside a constant 0 or 1
/// with `==` or `!=`.
#[tactic(auto, using(crate::proofs::Conditions::conditions), unfolding(tsa_core::specs::Meanings::meaning))]
pub fn test_told(scope: &Scope<'_>, expr: &Expr<'_>) -> Option<Told>
    ensures { option_map condition_of result ≡ condition_in (loaded (meaning scope.now (shape expr.now))) }
{
    match &expr.kind {
        ExprKind::Named(_) | ExprKind::Call { .. } => alone_told(scope, expr, true),
        ExprKind::Unary {
            op: UnaryOp::Not,
            inner,
        } => alone_told(scope, inner, false),
        ExprKind::Binary { op, left, right } => operator_told(scope, *op, left, right),
        _ => None,
    }
}

/// A number where one of a kind is wanted: where the kinds of integers differ it is converted (C11 6.3.1.3).
fn converted(kind: Kind, from: Kind, number: Number) -> Number
    ensures { result ≡ spec_converted kind from number }
{
    match (kind, from) {
        (Kind::Int, Kind::Unsigned) | (Kind::Unsigned, Kind::Int) => as_kind(kind, number),
        _ => number,
    }
}

/// The number that is given where a value of a kind is wanted.
fn given(kind: Kind, gist: Gist) -> Option<Number>
    ensures { result ≡ spec_given kind gist }
{
    match kind {
        Kind::Int | Kind::Unsigned => {
            let number = gist.worth.number()?;
            Some(converted(kind, gist.expression.thing.kind, number))
        }
        _ => gist.beside(kind).number(),
    }
}

/// The answer that a return gives with an expression, of a function whose result has a kind.
#[tactic(auto, using(crate::proofs::ReturnAnswers::answers))]
pub fn answer_told(scope: &Scope<'_>, kind: Kind, expr: &Expr<'_>) -> Option<bool>
    ensures { result ≡ answer_of (spec_given_as kind (meaning scope.now (shape expr.now))) }
{
    answer_in(given(kind, gist_at(scope, expr))?)
}
