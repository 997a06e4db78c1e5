//! Arguments of attributes: each is no call, has a path, and names no lock that was named before.
ghost use Rattle.std.specs.Prelude.{◌≡◌, ◌&&◌, false, not, Some, None, is_none, IfOk};
ghost use Rattle.tsa_profile_declarations.specs.Declarations.{argument as spec_argument, attribute_arguments, is_among};
ghost use Rattle.tsa_profile_declarations.specs.Declarations.{is_call as spec_is_call, is_named_once as spec_is_named_once};
ghost use Rattle.tsa_profile_declarations.specs.Declarations.{is_order as spec_is_order, way, ways_behind, with_way};
ghost use Rattle.tsa_tree.specs.expressions.Shapes.{shape, shapes};
ghost use Rattle.tsa_profile_accesses.specs.declared.premise.ProfileCode.TheVariants.{PF9};
ghost use Rattle.tsa_profile_accesses.specs.declared.standing.Standing.TheVariants.{Inside};
ghost use Rattle.tsa_profile_accesses.specs.Expressions.{own};
ghost use Rattle.tsa_profile_accesses.specs.Premises.{first, or_else};
ghost use Rattle.tsa_profile_accesses.specs.NodeAnswers.{view_of};

use tsa_base::NoMemory;
use tsa_path::PathSet;
use tsa_place_model::Path;
use tsa_profile_accesses::{Body, Failure, ProfileCode};
use tsa_profile_guards::{own_failure, place_failure};
use tsa_tree::attr::AttrKind;
use tsa_tree::expr::{Expr, ExprKind};

/// Whether attributes of a kind tell the order of locks, which need have no path there.
fn is_order(kind: AttrKind) -> bool
    ensures { result ≡ spec_is_order kind }
{
    matches!(kind, AttrKind::AcquiredBefore | AttrKind::AcquiredAfter)
}

/// Whether a function names each lock once in its attributes of such kinds.
fn is_named_once(kind: AttrKind) -> bool
    ensures { result ≡ spec_is_named_once kind }
{
    match kind {
        AttrKind::Requires
        | AttrKind::RequiresShared
        | AttrKind::Acquire
        | AttrKind::AcquireShared
        | AttrKind::Release
        | AttrKind::ReleaseShared
        | AttrKind::ReleaseGeneric
        | AttrKind::TryAcquire
        | AttrKind::TryAcquireShared => true,
        AttrKind::Capability
        | AttrKind::GuardedBy
        | AttrKind::Excludes
        | AttrKind::AcquiredBefore
        | AttrKind::AcquiredAfter => false,
    }
}

/// Whether an expression is a call.
fn is_call(expr: &Expr<'_>) -> bool
    ensures { result ≡ spec_is_call (shape expr.now) }
{
    matches!(&expr.kind, ExprKind::Call { .. })
}

/// Whether a lock is named again by its path; from now on it is named, where it counts.
fn name_again(paths: &mut PathSet, kind: AttrKind, path: Option<Path>) -> Result<bool, NoMemory>
    ensures again { IfOk result (λ again. again ≡ (spec_is_named_once kind && is_among paths.old path)) }
    ensures named { IfOk result (λ again. again ≡ false → paths.new ≡ with_way (spec_is_named_once kind) paths.old path) }
{
    match path {
        Some(path) => {
            if is_named_once(kind) {
                Ok(!paths.insert(path)?)
            } else {
                Ok(false)
            }
        }
        None => Ok(false),
    }
}

/// Whether an argument of an attribute wants a path and has none.
fn lacks_path(kind: AttrKind, path: &Option<Path>) -> bool
    ensures { result ≡ (not (spec_is_order kind) && is_none path.now) }
{
    !is_order(kind) && path.is_none()
}

/// What fails at an argument that names a lock again: what is asked of it itself comes first.
fn again_failure(body: Body<'_, '_>, arg: &Expr<'_>) -> Result<Option<Failure>, NoMemory>
    ensures { IfOk result (λ failure. failure ≡ or_else (first (own (view_of body.entry) Inside false (shape arg.now)))
        (Some (record { code = PF9; span = arg.now.span }))) }
{
    match own_failure(body, arg)? {
        Some(failure) => Ok(Some(failure)),
        None => Ok(Some(Failure {
            code: ProfileCode::PF9,
            span: arg.span,
        })),
    }
}

/// What fails at an argument of an attribute beside the paths that were named before, to which its own comes where nothing fails.
pub fn argument(
    body: Body<'_, '_>,
    kind: AttrKind,
    paths: &mut PathSet,
    arg: &Expr<'_>,
) -> Result<Option<Failure>, NoMemory>
    ensures failure { IfOk result (λ failure. failure ≡ first (spec_argument (view_of body.entry) kind paths.old (shape arg.now))) }
    ensures named { IfOk result (λ failure. failure ≡ None
        → paths.new ≡ with_way (spec_is_named_once kind) paths.old (way (view_of body.entry) (shape arg.now))) }
{
    if is_call(arg) {
        return Ok(Some(Failure {
            code: ProfileCode::PF1,
            span: arg.span,
        }));
    }
    let path = body.sight.lock_path(arg)?;
    if lacks_path(kind, &path) {
        return Ok(Some(Failure {
            code: ProfileCode::PF2,
            span: arg.span,
        }));
    }
    if name_again(paths, kind, path)? {
        again_failure(body, arg)
    } else {
        place_failure(body, arg)
    }
}

/// What fails first at the arguments of an attribute, each beside the paths that were named before it.
pub fn arguments(
    body: Body<'_, '_>,
    kind: AttrKind,
    paths: &mut PathSet,
    args: &[Expr<'_>],
) -> Result<Option<Failure>, NoMemory>
    ensures failure { IfOk result (λ failure. failure ≡ first (attribute_arguments (view_of body.entry) kind paths.old (shapes args.now))) }
    ensures named { IfOk result (λ failure. failure ≡ None → paths.new ≡ ways_behind (view_of body.entry) kind paths.old (shapes args.now)) }
{
    'each: for arg in args {
        if let Some(failure) = argument(body, kind, paths, arg)? {
            return Ok(Some(failure));
        }
    }
    Ok(None)
}
