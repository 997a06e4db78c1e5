//! Numbers of points.
ghost use Rattle.std.specs.Prelude.{◌≡◌, length};
ghost use Rattle.tsa_core.specs.Control.{or_follow as spec_or_follow};
ghost use Rattle.tsa_tree.specs.points.Syntax.{points_of_init, points_of_step};
ghost use Rattle.tsa_tree.specs.statements.Shapes.{init_given, step_given};
ghost use Rattle.tsa_tree.specs.types.Arithmetic.{int_of as spec_int_of};

use tsa_tree::number::Number;
use tsa_tree::stmt::{Stmt, StmtKind};

/// The first of so many points, or what follows where there is none.
pub fn or_follow(points: u32, at: u32, follow: u32) -> u32
    ensures { result ≡ spec_or_follow points at follow }
{
    if points == 0 { follow } else { at }
}

/// The value as an `int`, modulo 2^32.
pub fn int_of(number: Number) -> i32
    ensures { result ≡ spec_int_of number }
{
    match number {
        Number::Int(z) => z,
        Number::Unsigned(n) => n.cast_signed(),
    }
}

/// How many points the first part of a `for` has.
pub fn init_points(init: Option<&Stmt<'_>>) -> u32
    ensures { result ≡ length (points_of_init (init_given init.entry)) }
{
    let Some(init) = init else {
        return 0;
    };
    match &init.kind {
        StmtKind::Local(_) => 1,
        StmtKind::Eval(_) => 1,
        StmtKind::Assign { .. } => 1,
        _ => 0,
    }
}

/// How many points the third part of a `for` has.
pub fn step_points(step: Option<&Stmt<'_>>) -> u32
    ensures { result ≡ length (points_of_step (step_given step.entry)) }
{
    let Some(step) = step else {
        return 0;
    };
    match &step.kind {
        StmtKind::Eval(_) => 1,
        StmtKind::Assign { .. } => 1,
        _ => 0,
    }
}
