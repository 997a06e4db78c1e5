//! The locks that the attributes of a function name.
ghost use Rattle.std.specs.Prelude.{◌≡◌, ◌++◌, IfOk, OnOk};
ghost use Rattle.tsa_core.specs.Programs.{attr_args, attrs_of, succeeds as spec_succeeds};
ghost use Rattle.tsa_tree.specs.attributes.Syntax.{attr_shape, attr_shapes};
ghost use Rattle.tsa_tree.specs.expressions.Shapes.{shape};
ghost use Rattle.tsa_place_model.specs.LockPaths.{lock_way, stable_in};

use tsa_base::NoMemory;
use tsa_place_paths::Sight;
use tsa_profile_accesses::{NamedLock, NamedLocks};
use tsa_tree::attr::Attr;
use tsa_tree::expr::Expr;

/// The result for which a try takes its locks; of no other attribute that counts.
fn succeeds(success: Option<bool>) -> bool
    ensures { result ≡ spec_succeeds success }
{
    success.unwrap_or(false)
}

/// The lock that an argument of an attribute names.
fn named_lock(sight: Sight<'_, '_>, attr: &Attr<'_>, arg: &Expr<'_>) -> Result<NamedLock, NoMemory>
    ensures { IfOk result (λ lock. lock ≡ record {
      kind = attr.now.kind;
      success = spec_succeeds attr.now.success;
      path = lock_way (stable_in sight.entry.stable.now)
          sight.entry.scope.now (shape arg.now);
    }) }
{
    Ok(NamedLock {
        kind: attr.kind,
        success: succeeds(attr.success),
        path: sight.lock_path(arg)?,
    })
}

/// Adds the locks that an attribute names.
fn add_locks(
    sight: Sight<'_, '_>,
    locks: &mut Vec<NamedLock>,
    attr: &Attr<'_>,
) -> Result<(), NoMemory>
    ensures { OnOk result (locks.new.items ≡ locks.old.items ++ attr_args (stable_in sight.entry.stable.now) sight.entry.scope.now
        (attr_shape attr.now) (attr_shape attr.now).args) }
{
    'each: for arg in attr.args {
        locks.push(named_lock(sight, attr, arg)?)?;
    }
    Ok(())
}

/// The locks that the attributes of a function name, in order, each by its path, where it has one.
pub fn named_locks(sight: Sight<'_, '_>, attrs: &[Attr<'_>]) -> Result<NamedLocks, NoMemory>
    ensures { IfOk result (λ locks. locks ≡ attrs_of (stable_in sight.entry.stable.now) sight.entry.scope.now (attr_shapes attrs.now)) }
{
    let mut locks = Vec::new(sight.scope.allocator());
    'each: for attr in attrs {
        add_locks(sight, &mut locks, attr)?;
    }
    Ok(NamedLocks { locks })
}
