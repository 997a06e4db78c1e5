//! Walks along a body that leave what is known in it as it is.
ghost use Rattle.std.specs.Prelude.{◌≡◌, [], IfOk};
ghost use Rattle.tsa_core_points.specs.Walks.{walk};
ghost use Rattle.tsa_tree.specs.types.Scopes.{with_locals};

use std::mem::replace;
use tsa_base::NoMemory;
use tsa_core_points::Walk;
use tsa_types_scope::{Scope, outset};

/// Begins a walk with what is known by name, which is taken out for it.
pub fn begin_walk<'a>(scope: &mut Scope<'a>) -> Result<Walk<'a>, NoMemory>
    ensures { IfOk result (λ begun. begun ≡ walk scope.old []) }
{
    let nothing = outset(scope.allocator(), &[])?;
    Ok(Walk::new(replace(scope, nothing)))
}

/// Ends a walk: what is known by name there is put back, with as many locals as there were.
pub fn end_walk<'a>(scope: &mut Scope<'a>, walk: Walk<'a>, locals: u32)
    ensures { scope.new ≡ with_locals locals walk.entry.here }
{
    let _nothing = replace(scope, walk.into_scope());
    scope.set_locals(locals);
}
