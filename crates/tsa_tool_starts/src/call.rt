//! What expressions call, and which functions bind who calls them.
ghost use Rattle.std.specs.Prelude.{◌≡◌, option_map};
ghost use Rattle.std.specs.List.{list_any};
ghost use Rattle.tsa_mean.specs.Starts.{binds_caller as spec_binds_caller};
ghost use Rattle.tsa_tool_starts.specs.Calls.{called};
ghost use Rattle.tsa_tool_starts.specs.Words.{called_by};
ghost use Rattle.tsa_tree.specs.expressions.Shapes.{shape};

use tsa_profile_accesses::NamedLock;
use tsa_tree::attr::AttrKind;
use tsa_tree::expr::{Expr, ExprKind};

/// The function that an expression calls by its name, and the arguments.
#[derive(Clone, Copy)]
pub struct Call<'a> {
    pub name: &'a [u8],
    pub args: &'a [Expr<'a>],
}

/// What an expression calls; a name alone is a call without arguments.
pub fn call_in<'a>(expr: &Expr<'a>) -> Option<Call<'a>>
    ensures { option_map called result ≡ called_by (shape expr.now) }
{
    match &expr.kind {
        ExprKind::Named(name) => Some(Call {
            name: name.text,
            args: &[],
        }),
        ExprKind::Call { callee, args } => Some(Call {
            name: callee.text,
            args,
        }),
        _ => None,
    }
}

/// Whether an attribute asks a lock of the caller, or promises one for an answer.
fn binds_caller(kind: AttrKind) -> bool
    ensures { result ≡ spec_binds_caller kind }
{
    match kind {
        AttrKind::Requires
        | AttrKind::RequiresShared
        | AttrKind::Release
        | AttrKind::ReleaseShared
        | AttrKind::ReleaseGeneric
        | AttrKind::TryAcquire
        | AttrKind::TryAcquireShared => true,
        AttrKind::Capability
        | AttrKind::GuardedBy
        | AttrKind::Acquire
        | AttrKind::AcquireShared
        | AttrKind::Excludes
        | AttrKind::AcquiredBefore
        | AttrKind::AcquiredAfter => false,
    }
}

/// Whether some lock that a function names does.
pub fn any_binds(locks: &[NamedLock]) -> bool
    ensures { result ≡ list_any (λ a. spec_binds_caller a.kind) locks.now }
{
    locks.iter().any(|lock| binds_caller(lock.kind))
}
