//! The arguments of a call in the place of parameters, in a path of the callee (C11 6.5.2.2p4).
ghost use Rattle.std.specs.Prelude.{◌≡◌, Some, IfOk, option_map, option_and_then};
ghost use Rattle.tsa_path.specs.Substitution.{given as spec_given, constant as spec_constant, as_index as spec_as_index};
ghost use Rattle.tsa_path.specs.Substitution.{as_pointer as spec_as_pointer, step_in as spec_step_in, steps_in, further as spec_further};
ghost use Rattle.tsa_path.specs.Substitution.{substituted};

use std::alloc::Global;
use tsa_base::NoMemory;
use tsa_place_model::{Path, PathStep, Root};

/// What is given for a parameter, where that has a path.
fn given(args: &[Option<Path>], parameter: u32) -> Option<&Path>
    ensures { option_map (λ path. path.now) result ≡ spec_given args.now parameter }
{
    match args.get(parameter as usize)? {
        Some(path) => Some(path),
        None => None,
    }
}

/// The path that an argument has which is a constant number.
pub fn constant_path(alloc: Global, number: u32) -> Result<Path, NoMemory>
    ensures { IfOk result (λ path. path ≡ spec_constant number) }
{
    Path::new(alloc, Root::Owner).onward(PathStep::Constant(number))
}

/// The step by an argument as an index: a constant, or a local.
fn as_index(path: &Path) -> Option<PathStep>
    ensures { result ≡ spec_as_index path.now }
{
    match (path.root(), path.steps()) {
        (Root::Local(number), []) => Some(PathStep::Variable(number)),
        (Root::Owner, [PathStep::Constant(number)]) => Some(PathStep::Constant(*number)),
        _ => None,
    }
}

/// The path to where an argument points, which follows a local.
fn as_pointer(alloc: Global, path: &Path) -> Result<Option<Path>, NoMemory>
    ensures { IfOk result (λ pointed. pointed ≡ spec_as_pointer path.now) }
{
    match (path.root(), path.steps()) {
        (Root::Local(number), []) => {
            let local = Path::new(alloc, Root::Local(number));
            Ok(Some(local.onward(PathStep::Follow)?))
        }
        (Root::Owner, [PathStep::Constant(_)]) => Ok(None),
        _ => Ok(Some(path.copy(alloc)?)),
    }
}

/// The path to where the argument for a parameter points.
fn begin(alloc: Global, args: &[Option<Path>], parameter: u32) -> Result<Option<Path>, NoMemory>
    ensures { IfOk result (λ path. path ≡ option_and_then spec_as_pointer (spec_given args.now parameter)) }
{
    match given(args, parameter) {
        Some(path) => as_pointer(alloc, path),
        None => Ok(None),
    }
}

/// A step of the callee's path, as the caller takes it.
fn step_in(args: &[Option<Path>], step: PathStep) -> Option<PathStep>
    ensures { result ≡ spec_step_in args.now step }
{
    match step {
        PathStep::Variable(parameter) => as_index(given(args, parameter)?),
        other => Some(other),
    }
}

/// A path with some steps of the callee's, as the caller takes them.
fn further(
    mut path: Path,
    args: &[Option<Path>],
    steps: &[PathStep],
) -> Result<Option<Path>, NoMemory>
    ensures { IfOk result (λ after. after ≡ spec_further (Some path) (steps_in args.now steps.now)) }
{
    'each: for step in steps {
        let Some(found) = step_in(args, *step) else {
            return Ok(None);
        };
        path = path.onward(found)?;
    }
    Ok(Some(path))
}

/// The path of a callee as the caller has it; none where an argument that it needs has no path, or is no index or pointer as it has to be.
pub fn substitute(
    alloc: Global,
    path: &Path,
    args: &[Option<Path>],
) -> Result<Option<Path>, NoMemory>
    ensures { IfOk result (λ after. after ≡ substituted args.now path.now) }
{
    match (path.root(), path.steps()) {
        (Root::Local(parameter), [PathStep::Follow, rest @ ..]) => {
            match begin(alloc, args, parameter)? {
                Some(pointed) => further(pointed, args, rest),
                None => Ok(None),
            }
        }
        (Root::Local(_), _) => Ok(None),
        (root, steps) => further(Path::new(alloc, root), args, steps),
    }
}
