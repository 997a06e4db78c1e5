//! The paths of guards (C11 6.5.2, 6.5.3.2): one for each argument of `guarded_by`, or none.
ghost use Rattle.std.specs.Prelude.{◌≡◌, ◌++◌, IfOk, OnOk};
ghost use Rattle.tsa_place_model.specs.Parts.{argument_ways, guard_ways, is_guard as spec_is_guard, no_stable};
ghost use Rattle.tsa_tree.specs.attributes.Syntax.{attr_shapes};
ghost use Rattle.tsa_tree.specs.expressions.Shapes.{shapes};

use tsa_base::NoMemory;
use tsa_place_model::Path;
use tsa_place_paths::Sight;
use tsa_tree::attr::{Attr, AttrKind};
use tsa_tree::expr::Expr;
use tsa_types_scope::Scope;

/// Whether an attribute is `guarded_by`.
fn is_guard(kind: AttrKind) -> bool
    ensures { result ≡ spec_is_guard kind }
{
    matches!(kind, AttrKind::GuardedBy)
}

/// Adds the paths of arguments, in order.
fn add_paths(
    paths: &mut Vec<Option<Path>>,
    scope: &Scope<'_>,
    args: &[Expr<'_>],
) -> Result<(), NoMemory>
    ensures { OnOk result (paths.new.items ≡ paths.old.items ++ argument_ways scope.now (shapes args.now)) }
{
    let sight = Sight { scope, stable: &[] };
    'each: for arg in args {
        paths.push(sight.lock_path(arg)?)?;
    }
    Ok(())
}

/// The paths of the guards among attributes, in order. No local is known there.
pub fn guard_paths(scope: &Scope<'_>, attrs: &[Attr<'_>]) -> Result<Vec<Option<Path>>, NoMemory>
    ensures { IfOk result (λ paths. paths.items ≡ guard_ways scope.now (attr_shapes attrs.now)) }
{
    let mut paths = Vec::new(scope.allocator());
    'each: for attr in attrs {
        if is_guard(attr.kind) {
            add_paths(&mut paths, scope, attr.args)?;
        }
    }
    Ok(paths)
}
