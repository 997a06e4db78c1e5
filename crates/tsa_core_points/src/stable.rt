//! Which locals of a body never change.
ghost use Rattle.std.specs.Prelude.{◌≡◌, true, false, map, replicate, slice_set, IfOk, OnOk};
ghost use Rattle.tsa_tree.specs.expressions.Shapes.{shape};
ghost use Rattle.tsa_tree.specs.statements.Shapes.{action_shape};
ghost use Rattle.tsa_tree.specs.types.Scopes.{known_in};
ghost use Rattle.tsa_core.specs.Bodies.{changed, stable_by};
ghost use Rattle.tsa_core.specs.Meanings.{meaning, of_name};
ghost use Rattle.tsa_core_points.specs.Steps.{step_shape};
ghost use Rattle.tsa_core_points.specs.Stable.{local_number, stable_at, stable_along};
ghost use Rattle.tsa_core_points.specs.Walks.{walk_behind};

use crate::Step;
use crate::walk::Walk;
use tsa_base::NoMemory;
use tsa_tree::expr::{Expr, ExprKind};
use tsa_tree::meaning::Meaning;
use tsa_tree::stmt::Action;
use tsa_types_scope::Scope;

/// The number of the local that a name means; of nothing else.
fn local_named(scope: &Scope<'_>, text: &[u8]) -> Option<u32>
    ensures { result ≡ local_number (of_name (known_in scope.now text.now)).term }
{
    match scope.known(text)?.meaning {
        Meaning::Local(number) => Some(number),
        _ => None,
    }
}

/// The number of the local that an expression is; of nothing else.
fn local_of(scope: &Scope<'_>, expr: &Expr<'_>) -> Option<u32>
    ensures { result ≡ local_number (meaning scope.now (shape expr.now)).term }
{
    match &expr.kind {
        ExprKind::Named(name) => local_named(scope, name.text),
        _ => None,
    }
}

/// A local of a number changes; there may be none of that number.
fn clear(stable: &mut Vec<bool>, number: usize)
    ensures { stable.new.items ≡ slice_set stable.old.items number false }
{
    if let Some(slot) = stable.get_mut(number) {
        *slot = false;
    }
}

/// What is assigned to changes, where it is a local.
fn change(stable: &mut Vec<bool>, scope: &Scope<'_>, left: &Expr<'_>)
    ensures { stable.new.items ≡ changed stable.old.items (meaning scope.now (shape left.now)).term }
{
    if let Some(number) = local_of(scope, left) {
        clear(stable, number as usize);
    }
}

/// What is done at a point begins a local, changes one, or does neither.
fn note_action(
    stable: &mut Vec<bool>,
    scope: &Scope<'_>,
    action: &Action<'_>,
) -> Result<(), NoMemory>
    ensures { OnOk result (stable.new.items ≡ stable_by stable.old.items scope.now (action_shape action.now)) }
{
    match action {
        Action::Declare(_) => stable.push(true)?,
        Action::Assign { left, .. } => change(stable, scope, left),
        _ => {}
    }
    Ok(())
}

/// The same at a step of a walk.
fn note_step(stable: &mut Vec<bool>, scope: &Scope<'_>, step: &Step<'_>) -> Result<(), NoMemory>
    ensures { OnOk result (stable.new.items ≡ stable_at stable.old.items scope.now (step_shape step.now)) }
{
    match step {
        Step::Point(point) => note_action(stable, scope, &point.action),
        _ => Ok(()),
    }
}

/// The locals that are known already, none of which changed so far.
fn unchanged(scope: &Scope<'_>) -> Result<Vec<bool>, NoMemory>
    ensures { IfOk result (λ stable. stable.items ≡ replicate scope.now.locals true) }
{
    Ok(vec![in scope.allocator(); true; scope.next_local() as usize]?)
}

/// Whether each local of a body never changes, along the body's steps: first those that are known where it begins.
pub fn stable_locals<'a>(walk: &mut Walk<'a>, steps: &[Step<'a>]) -> Result<Vec<bool>, NoMemory>
    ensures stable { IfOk result (λ stable. stable.items ≡ stable_along (replicate walk.old.here.locals true) walk.old
        (map step_shape steps.now)) }
    ensures behind { OnOk result (walk.new ≡ walk_behind walk.old (map step_shape steps.now)) }
{
    let mut stable = unchanged(walk.scope())?;
    'each: for step in steps {
        note_step(&mut stable, walk.scope(), step)?;
        walk.pass(step)?;
    }
    Ok(stable)
}
