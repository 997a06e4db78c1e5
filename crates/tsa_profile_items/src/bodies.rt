//! What the profile asks of the bodies of functions, and the paths of each.
ghost use Rattle.std.specs.Prelude.{◌≡◌, ◌∷◌, [], filter, length, map, slice_set, IfOk, OnOk};
ghost use Rattle.tsa_profile_context.specs.Bodies.{is_try_variable, points_premises};
ghost use Rattle.tsa_profile_context.specs.PointAnswers.{around_of};
ghost use Rattle.tsa_profile_context.specs.Ways.{function_paths};
ghost use Rattle.tsa_profile_context.specs.ItemJudgements.{Judges};
ghost use Rattle.tsa_profile_context.specs.Judging.{around_at, unit_at, with_body, with_scope, without_body};
ghost use Rattle.tsa_profile_accesses.specs.Expressions.{attributes_at};
ghost use Rattle.tsa_core_points.specs.Points.{placed_all};
ghost use Rattle.tsa_core_points.specs.Walks.{points_along, walk, walk_behind};
ghost use Rattle.tsa_profile_accesses.specs.Locks.{tries as spec_tries};
ghost use Rattle.tsa_profile_accesses.specs.Premises.{first, premise};
ghost use Rattle.tsa_core_points.specs.Steps.{step_shape};
ghost use Rattle.tsa_tree.specs.statements.Shapes.{stmt_shapes};
ghost use Rattle.tsa_tree.specs.types.Scopes.{further};
ghost use Rattle.tsa_tree.specs.types.Targets.{declared_in_all};
ghost use Rattle.tsa_place_model.specs.LockPaths.{stable_in};

use tsa_base::{NoMemory, Span, TRY_LIMIT};
use tsa_core_points::{Step, Walk, body_steps};
use tsa_path::PathTable;
use tsa_profile_accesses::{Failure, NamedLock, NamedLocks, ProfileCode};
use tsa_profile_context::{
    Around, Ground, Judged, Knowledge, ProfileRefusal, answer_of, attribute_paths, or_else,
    put_scope, take_scope,
};
use tsa_tree::stmt::Stmt;

/// A function whose head is entered: its number, where its name stands, where its body ends, and which of its locals never change.
#[derive(Clone, Copy)]
pub struct Inside<'s> {
    pub number: u32,
    pub name: Span,
    pub close: Span,
    pub stable: &'s [bool],
}

/// A limit that a function passes, told at its name.
fn limit(passes: bool, code: ProfileCode, name: Span) -> Option<Failure>
    ensures { result ≡ first (premise code name passes ∷ []) }
{
    if passes {
        Some(Failure { code, span: name })
    } else {
        None
    }
}

/// The locks that a function names, by its number.
fn locks_of(attributes: &[NamedLocks], number: u32) -> &[NamedLock]
    ensures { result.now ≡ attributes_at attributes.now number }
{
    match attributes.get(number as usize) {
        Some(locks) => &locks.locks,
        None => &[],
    }
}

/// Whether a function tries, by its number.
fn tries_of(attributes: &[NamedLocks], number: u32) -> bool
    ensures { result ≡ spec_tries (attributes_at attributes.now number) }
{
    match attributes.get(number as usize) {
        Some(locks) => locks.tries(),
        None => false,
    }
}

/// Sets the paths of a function.
fn set_paths(tables: &mut Vec<Option<PathTable>>, number: u32, paths: Option<PathTable>)
    ensures { tables.new.items ≡ slice_set tables.old.items number paths }
{
    if let Some(slot) = tables.get_mut(number as usize) {
        *slot = paths;
    }
}

/// What is around the body of a function.
fn around<'t, 'w>(
    ground: &Ground<'t, '_>,
    attributes: &'w [NamedLocks],
    inner: Inside<'w>,
) -> Around<'w>
where
    't: 'w,
    ensures { around_of result ≡ record {
      layout = (unit_at ground.now).program.layout;
      attributes = attributes.now;
      tries = spec_tries
          (attributes_at attributes.now inner.entry.number);
      stable = stable_in inner.entry.stable.now;
    } }
{
    Around {
        layout: ground.layout,
        attributes,
        tries: tries_of(attributes, inner.number),
        stable: inner.stable,
    }
}

/// Judges a function along the steps of its body, and makes known what they leave known.
fn along<'a>(
    ground: &Ground<'_, 'a>,
    known: &mut Knowledge<'a>,
    inner: Inside<'_>,
    steps: &[Step<'a>],
) -> Result<Judged, NoMemory>
    ensures known { OnOk result (known.new ≡ with_scope (walk_behind (walk known.old.here []) (map step_shape steps.now)).here known.old) }
    ensures failure { IfOk result (λ judged. judged.failure
        ≡ first (points_premises (around_at ground.now known.old inner.entry.number inner.entry.stable.now)
        (points_along (walk known.old.here []) (map step_shape steps.now)))) }
    ensures tries { IfOk result (λ judged. judged.tries
        ≡ length (filter (is_try_variable (around_at ground.now known.old inner.entry.number inner.entry.stable.now))
        (points_along (walk known.old.here []) (map step_shape steps.now)))) }
    ensures paths { IfOk result (λ judged. judged.paths
        ≡ function_paths (around_at ground.now known.old inner.entry.number inner.entry.stable.now)
        (attributes_at known.old.attributes inner.entry.number) (points_along (walk known.old.here []) (map step_shape steps.now))) }
{
    let mut walk = Walk::new(take_scope(&mut known.scope)?);
    let own = locks_of(&known.attributes, inner.number);
    let around = around(ground, &known.attributes, inner);
    let judged = around.judge(&mut walk, steps, own)?;
    put_scope(&mut known.scope, walk.into_scope());
    Ok(judged)
}

/// The body of a function whose head is entered.
pub fn judge_body<'a>(
    ground: &Ground<'_, 'a>,
    known: &mut Knowledge<'a>,
    inner: Inside<'_>,
    body: &'a [Stmt<'a>],
) -> Result<(), ProfileRefusal>
    ensures judged { Judges (first (points_premises (around_at ground.now known.old inner.entry.number inner.entry.stable.now)
        (placed_all known.old.here (stmt_shapes body.now)))) result }
    ensures found { OnOk result (known.new
        ≡ with_body known.old inner.entry.number inner.entry.name (around_at ground.now known.old inner.entry.number inner.entry.stable.now)
        (further (declared_in_all (stmt_shapes body.now)) known.old.here) (placed_all known.old.here (stmt_shapes body.now))) }
{
    let steps = body_steps(known.scope.allocator(), body, inner.close)?;
    let found = along(ground, known, inner, &steps)?;
    answer_of(found.failure)?;
    let passes_tries = limit(found.tries > TRY_LIMIT, ProfileCode::LM7, inner.name);
    let passes_paths = limit(found.paths.is_none(), ProfileCode::LM4, inner.name);
    known.tries = or_else(known.tries, passes_tries);
    known.paths = or_else(known.paths, passes_paths);
    set_paths(&mut known.tables, inner.number, found.paths);
    Ok(())
}

/// A function without a body, which may pass a limit where this is its first declaration and it has a body nowhere.
pub fn alone(
    ground: &Ground<'_, '_>,
    known: &mut Knowledge<'_>,
    inner: Inside<'_>,
    is_alone: bool,
) -> Result<(), NoMemory>
    ensures { OnOk result (known.new ≡ without_body known.old inner.entry.number inner.entry.name
        (around_at ground.now known.old inner.entry.number inner.entry.stable.now) is_alone) }
{
    if !is_alone {
        return Ok(());
    }
    let own = locks_of(&known.attributes, inner.number);
    let is_full = attribute_paths(known.scope.allocator(), own)?.is_none();
    known.paths = or_else(known.paths, limit(is_full, ProfileCode::LM4, inner.name));
    Ok(())
}
