//! The locks that the attributes of functions name.
ghost use Rattle.std.specs.Prelude.{◌≡◌, not, is_none, IfOk};
ghost use Rattle.std.specs.List.{list_any};
ghost use Rattle.tsa_profile_accesses.specs.Locks.{is_empty, is_try as spec_is_try, lacks_path as spec_lacks_path, tries as spec_tries};

use std::alloc::Global;
use std::marker::Model;
use tsa_base::NoMemory;
use tsa_path::substitute;
use tsa_place_model::Path;
use tsa_tree::attr::AttrKind;

/// A lock that an attribute of a function names: the path to it, where it has one; of a try, the result for which it is taken.
pub struct NamedLock {
    pub kind: AttrKind,
    pub success: bool,
    pub path: Option<Path>,
}

impl Drop for NamedLock {
    /// Lets its parts go, in one call for all who let one go.
    fn drop(self) {
        let NamedLock {
            kind: _,
            success: _,
            path: _,
        } = self;
    }
}

impl Model for NamedLock {
    ghost use Rattle.tsa_core.specs.Programs.{Attr};

    ghost Value = { Attr };

    ghost view = { λ lock. record { kind = lock.kind; success = lock.success; path = lock.path } };
}

/// The locks that the attributes of a function name, in order.
pub struct NamedLocks {
    pub locks: Vec<NamedLock>,
}

impl Drop for NamedLocks {
    /// Lets its parts go, in one call for all who let one go.
    fn drop(self) {
        let NamedLocks { locks: _ } = self;
    }
}

impl Model for NamedLocks {
    ghost use Rattle.std.specs.Prelude.{List};
    ghost use Rattle.tsa_core.specs.Programs.{Attr};

    ghost Value = { List Attr };

    ghost view = { λ all. all.locks.items };
}

/// Whether an attribute is that of a try.
fn is_try(kind: AttrKind) -> bool
    ensures { result ≡ spec_is_try kind }
{
    matches!(kind, AttrKind::TryAcquire | AttrKind::TryAcquireShared)
}

/// Whether there are guards.
pub fn are_some(guards: &[Option<Path>]) -> bool
    ensures { result ≡ not (is_empty guards.now) }
{
    match guards {
        [] => false,
        _ => true,
    }
}

/// Whether a guard has no path.
pub fn lack_a_path(guards: &[Option<Path>]) -> bool
    ensures { result ≡ list_any is_none guards.now }
{
    guards.iter().any(|guard| guard.is_none())
}

impl NamedLock {
    /// Whether it has no path where its function is called with some arguments.
    fn lacks_path(&self, alloc: Global, ways: &[Option<Path>]) -> Result<bool, NoMemory>
        ensures { IfOk result (λ lacks. lacks ≡ spec_lacks_path ways.now self.now) }
    {
        match &self.path {
            Some(path) => Ok(substitute(alloc, path, ways)?.is_none()),
            None => Ok(true),
        }
    }
}

/// Whether some lock has no path where its function is called with some arguments.
fn some_lack(alloc: Global, locks: &[NamedLock], ways: &[Option<Path>]) -> Result<bool, NoMemory>
    ensures { IfOk result (λ lacks. lacks ≡ list_any (spec_lacks_path ways.now) locks.now) }
{
    'each: for lock in locks {
        if lock.lacks_path(alloc, ways)? {
            return Ok(true);
        }
    }
    Ok(false)
}

impl NamedLocks {
    /// Whether the function tries.
    pub fn tries(&self) -> bool
        ensures { result ≡ spec_tries self.now }
    {
        self.locks.iter().any(|lock| is_try(lock.kind))
    }

    /// Whether some of them have no path where the function is called with some arguments.
    pub fn lack_a_path(&self, alloc: Global, ways: &[Option<Path>]) -> Result<bool, NoMemory>
        ensures { IfOk result (λ lacks. lacks ≡ list_any (spec_lacks_path ways.now) self.now) }
    {
        some_lack(alloc, &self.locks, ways)
    }
}
