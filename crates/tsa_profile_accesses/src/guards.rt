//! The paths of guards as a body has them: that of a struct object stands before those of its members' guards.
ghost use Rattle.std.specs.Prelude.{◌≡◌, ◌++◌, option_map, option_and_then, IfOk, OnOk};
ghost use Rattle.tsa_core.specs.Uses.{guards_owned, owned_by};

use std::alloc::Global;
use tsa_base::NoMemory;
use tsa_place_model::{Path, Root};

/// A path that begins at a struct object, behind the path to that; none where that has none. Any other path stays the same.
fn owned(alloc: Global, owner: Option<&Path>, path: &Path) -> Result<Option<Path>, NoMemory>
    ensures { IfOk result (λ after. after ≡ owned_by (option_map (λ p. p.now) owner.entry) path.now) }
{
    match path.root() {
        Root::Owner => match owner {
            Some(owner) => Ok(Some(owner.copy(alloc)?.with_steps(path.steps())?)),
            None => Ok(None),
        },
        Root::Global(_) | Root::Local(_) => Ok(Some(path.copy(alloc)?)),
    }
}

/// The same of a guard that may have no path.
fn guard(alloc: Global, owner: Option<&Path>, path: &Option<Path>) -> Result<Option<Path>, NoMemory>
    ensures { IfOk result (λ after. after ≡ option_and_then (owned_by (option_map (λ p. p.now) owner.entry)) path.now) }
{
    match path {
        Some(path) => owned(alloc, owner, path),
        None => Ok(None),
    }
}

/// Adds the guards of a member of a struct object.
pub fn add_owned(
    guards: &mut Vec<Option<Path>>,
    alloc: Global,
    owner: Option<&Path>,
    paths: &[Option<Path>],
) -> Result<(), NoMemory>
    ensures { OnOk result (guards.new.items ≡ guards.old.items ++ guards_owned (option_map (λ p. p.now) owner.entry) paths.now) }
{
    'each: for path in paths {
        guards.push(guard(alloc, owner, path)?)?;
    }
    Ok(())
}

/// The same path once more, where there is one.
fn copy(alloc: Global, path: &Option<Path>) -> Result<Option<Path>, NoMemory>
    ensures { IfOk result (λ after. after ≡ path.now) }
{
    match path {
        Some(path) => Ok(Some(path.copy(alloc)?)),
        None => Ok(None),
    }
}

/// The same guards once more.
pub fn copies(alloc: Global, paths: &[Option<Path>]) -> Result<Vec<Option<Path>>, NoMemory>
    ensures { IfOk result (λ after. after.items ≡ paths.now) }
{
    let mut after = Vec::new(alloc);
    'each: for path in paths {
        after.push(copy(alloc, path)?)?;
    }
    Ok(after)
}
