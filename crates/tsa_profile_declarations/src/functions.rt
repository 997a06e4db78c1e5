//! What functions without a body are, by their heads (C11 6.7.6.3): they take, try or give back one lock, or are the environment's.
ghost use Rattle.std.specs.Prelude.{◌≡◌, ◌∷◌, ◌&&◌, [], not, is_some, option_map, IfOk};
ghost use Rattle.std.specs.Str.{bytes_eq};
ghost use Rattle.tsa_tree.specs.attributes.Syntax.{attr_shape, attr_shapes};
ghost use Rattle.tsa_tree.specs.declarations.Shapes.{head_shape, param_shape, param_shapes, type_shape};
ghost use Rattle.tsa_tree.specs.types.DeclaredTypes.{thing_type};
ghost use Rattle.tsa_tree.specs.expressions.Shapes.{name_shape, shape, shapes};
ghost use Rattle.tsa_tree.specs.types.Runnable.{bare, gives as spec_gives, change_of, gives_number as spec_gives_number};
ghost use Rattle.tsa_tree.specs.types.Runnable.{is_environment as spec_is_environment, is_integer_kind};
ghost use Rattle.tsa_tree.specs.types.Runnable.{is_lock_function as spec_is_lock_function, is_named as spec_is_named};
ghost use Rattle.tsa_tree.specs.types.Runnable.{is_scalar_kind as spec_is_scalar_kind, is_small as spec_is_small};
ghost use Rattle.tsa_tree.specs.types.Runnable.{leaves_all as spec_leaves_all, names_alone as spec_names_alone};
ghost use Rattle.tsa_tree.specs.types.Runnable.{parameter_named as spec_parameter_named, points_to_lock as spec_points_to_lock};
ghost use Rattle.tsa_tree.specs.types.Runnable.{takes_integers as spec_takes_integers};

use tsa_base::NoMemory;
use tsa_profile_accesses::declared_thing;
use tsa_tree::attr::{Attr, AttrKind};
use tsa_tree::expr::{Expr, ExprKind, Name, UnaryOp};
use tsa_tree::item::{FnTree, Param};
use tsa_tree::kind::{Kind, ThingType};
use tsa_types_scope::Scope;

/// Whether a kind is that of a number or of a pointer.
fn is_scalar_kind(kind: Kind) -> bool
    ensures { result ≡ spec_is_scalar_kind kind }
{
    !matches!(kind, Kind::Structure(_))
}

/// Whether a type is that of a number or of a pointer: neither a struct nor an array is one.
pub fn is_small(thing: ThingType) -> bool
    ensures { result ≡ spec_is_small thing }
{
    is_scalar_kind(thing.kind) && thing.length.is_none()
}

/// Whether two texts are the same.
fn is(text: &[u8], other: &[u8]) -> bool
    ensures { result ≡ bytes_eq text.now other.now }
{
    text == other
}

/// Whether an expression, behind its `*` and `&`, is a name alone.
fn is_named(text: &[u8], expr: &Expr<'_>) -> bool
    ensures { result ≡ spec_is_named text.now (bare (shape expr.now)) }
{
    match &expr.kind {
        ExprKind::Named(name) => is(text, name.text),
        ExprKind::Unary {
            op: UnaryOp::Follow | UnaryOp::Address,
            inner,
        } => is_named(text, inner),
        _ => false,
    }
}

/// Whether arguments are one, which is a name alone.
fn names_alone(text: &[u8], args: &[Expr<'_>]) -> bool
    ensures { result ≡ spec_names_alone text.now (shapes args.now) }
{
    match args {
        [arg] => is_named(text, arg),
        _ => false,
    }
}

/// Whether arguments are the name of a parameter alone.
fn parameter_named(name: Option<Name<'_>>, args: &[Expr<'_>]) -> bool
    ensures { result ≡ spec_parameter_named (option_map name_shape name.entry) (shapes args.now) }
{
    match name {
        Some(name) => names_alone(name.text, args),
        None => false,
    }
}

/// Whether attributes of a kind say that a function takes or gives back locks, or tries to, and give its result.
fn gives(kind: AttrKind, result_kind: Kind) -> bool
    ensures { result ≡ spec_gives (change_of kind) result_kind }
{
    match kind {
        AttrKind::Acquire
        | AttrKind::AcquireShared
        | AttrKind::Release
        | AttrKind::ReleaseShared
        | AttrKind::ReleaseGeneric => matches!(result_kind, Kind::Void | Kind::Int),
        AttrKind::TryAcquire | AttrKind::TryAcquireShared => matches!(result_kind, Kind::Int),
        _ => false,
    }
}

/// Whether a type is that of a pointer to a lock.
fn points_to_lock(scope: &Scope<'_>, thing: ThingType) -> bool
    ensures { result ≡ spec_points_to_lock scope.now thing }
{
    match thing.kind {
        Kind::Pointer { target, .. } => scope.is_lock(Some(target)) && thing.length.is_none(),
        _ => false,
    }
}

/// Whether a function with one parameter and one attribute takes, tries or gives back the lock that the parameter points to.
fn changes_lock(
    scope: &Scope<'_>,
    head: &FnTree<'_>,
    param: &Param<'_>,
    attr: &Attr<'_>,
) -> Result<bool, NoMemory>
    ensures { IfOk result (λ changes. changes
        ≡ (spec_points_to_lock scope.now (thing_type scope.now (param_shape param.now).ctype)
        && (spec_gives (change_of attr.now.kind) (thing_type scope.now (head_shape head.now).result).kind
        && spec_parameter_named (param_shape param.now).name (attr_shape attr.now).args))) }
{
    let thing = declared_thing(scope, &param.ctype)?;
    let result = declared_thing(scope, &head.result)?;
    Ok(
        points_to_lock(scope, thing)
            && (gives(attr.kind, result.kind) && parameter_named(param.name, attr.args)),
    )
}

/// Whether a function with one parameter has one attribute, and takes, tries or gives back the lock that the parameter points to.
fn changes_by(scope: &Scope<'_>, head: &FnTree<'_>, param: &Param<'_>) -> Result<bool, NoMemory>
    ensures { IfOk result (λ is_lock. is_lock
        ≡ spec_is_lock_function scope.now
        (record {
          name = name_shape head.now.name;
          result = type_shape head.now.result;
          params = param_shape param.now ∷ [];
          attrs =
              attr_shapes head.now.attrs.now;
        })) }
{
    match head.attrs {
        [attr] => changes_lock(scope, head, param, attr),
        _ => Ok(false),
    }
}

/// Whether a function takes, tries or gives back the lock that its one parameter points to, and does nothing else.
pub fn is_lock_function(scope: &Scope<'_>, head: &FnTree<'_>) -> Result<bool, NoMemory>
    ensures { IfOk result (λ is_lock. is_lock ≡ spec_is_lock_function scope.now (head_shape head.now)) }
{
    match head.params {
        [param] => changes_by(scope, head, param),
        _ => Ok(false),
    }
}

/// Whether an attribute neither takes nor gives back a lock.
fn leaves(attr: &Attr<'_>) -> bool
    ensures { result ≡ spec_leaves_all (attr_shape attr.now ∷ []) }
{
    match attr.kind {
        AttrKind::Acquire
        | AttrKind::AcquireShared
        | AttrKind::Release
        | AttrKind::ReleaseShared
        | AttrKind::ReleaseGeneric
        | AttrKind::TryAcquire
        | AttrKind::TryAcquireShared => false,
        _ => true,
    }
}

/// Whether attributes neither take nor give back a lock.
fn leaves_all(attrs: &[Attr<'_>]) -> bool
    ensures { result ≡ spec_leaves_all (attr_shapes attrs.now) }
{
    'each: for attr in attrs {
        if !leaves(attr) {
            return false;
        }
    }
    true
}

/// Whether a type is that of an integer.
fn is_integer(thing: ThingType) -> bool
    ensures { result ≡ (is_integer_kind thing.kind && not (is_some thing.length)) }
{
    matches!(thing.kind, Kind::Int | Kind::Unsigned) && thing.length.is_none()
}

/// Whether parameters are integers.
fn takes_integers(scope: &Scope<'_>, params: &[Param<'_>]) -> Result<bool, NoMemory>
    ensures { IfOk result (λ takes. takes ≡ spec_takes_integers scope.now (param_shapes params.now)) }
{
    'each: for param in params {
        let thing = declared_thing(scope, &param.ctype)?;
        if !is_integer(thing) {
            return Ok(false);
        }
    }
    Ok(true)
}

/// Whether a function of a kind of result gives an integer or nothing.
fn gives_number(kind: Kind) -> bool
    ensures { result ≡ spec_gives_number kind }
{
    matches!(kind, Kind::Void | Kind::Int | Kind::Unsigned)
}

/// Whether a function takes integers, gives one or nothing, and neither takes nor gives back a lock.
pub fn is_environment(scope: &Scope<'_>, head: &FnTree<'_>) -> Result<bool, NoMemory>
    ensures { IfOk result (λ is_environment. is_environment ≡ spec_is_environment scope.now (head_shape head.now)) }
{
    if !leaves_all(head.attrs) {
        return Ok(false);
    }
    if !takes_integers(scope, head.params)? {
        return Ok(false);
    }
    let result = declared_thing(scope, &head.result)?;
    Ok(gives_number(result.kind))
}
