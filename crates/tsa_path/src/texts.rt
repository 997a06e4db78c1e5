//! The texts of paths in C (C11 6.5.2.1, 6.5.2.3, 6.5.3.2).
ghost use Rattle.std.specs.Prelude.{◌≡◌, IfOk, option_map};
ghost use Rattle.tsa_path.specs.Labels.{label};
ghost use Rattle.tsa_path.specs.PathTexts.{name_of, root_trail, member_in, step_trail, to_element, path_text as spec_path_text};

use crate::names::{Named, PathNames};
use crate::trail::Trail;
use itoa::Buffer;
use std::alloc::Global;
use tsa_base::NoMemory;
use tsa_place_model::{Path, PathStep, Root};

/// The text of a root.
fn root<N: PathNames>(alloc: Global, names: &N, root: Root) -> Result<Trail, NoMemory>
    ensures { IfOk result (λ trail. trail ≡ root_trail (N.names names.now) root) }
{
    match root {
        Root::Global(number) => Trail::named(alloc, names.global(number)),
        Root::Local(number) => Trail::named(alloc, names.local(number)),
        Root::Owner => Ok(Trail::own(alloc, names.owner())),
    }
}

/// What a member is named of a struct, where there is one.
fn member<N: PathNames>(names: &N, structure: Option<u32>, number: u32) -> Option<Named<'_>>
    ensures { option_map label result ≡ member_in (N.names names.now) structure number }
{
    names.member(structure?, number)
}

/// The text with an element, by the name of the local that holds the index.
fn variable<N: PathNames>(
    alloc: Global,
    names: &N,
    trail: Trail,
    local: u32,
) -> Result<Trail, NoMemory>
    ensures { IfOk result (λ after. after ≡ to_element trail (name_of ((N.names names.now).local local))) }
{
    match names.local(local) {
        Some(named) => trail.to_element(alloc, named.name),
        None => trail.to_element(alloc, b""),
    }
}

/// The text with a step.
fn step<N: PathNames>(
    alloc: Global,
    names: &N,
    step: PathStep,
    trail: Trail,
) -> Result<Trail, NoMemory>
    ensures { IfOk result (λ after. after ≡ step_trail (N.names names.now) step trail) }
{
    match step {
        PathStep::Field(number) => {
            let named = member(names, trail.structure(), number);
            trail.to_member(named)
        }
        PathStep::Constant(index) => {
            let mut digits = Buffer::new();
            trail.to_element(alloc, digits.format(index).as_bytes())
        }
        PathStep::Variable(local) => variable(alloc, names, trail, local),
        PathStep::Follow => trail.followed(alloc),
    }
}

/// The text of a path: `p->f` behind a pointer that is followed, and `*p` where the path ends in one.
pub fn path_text<N: PathNames>(alloc: Global, names: &N, path: &Path) -> Result<Vec<u8>, NoMemory>
    ensures { IfOk result (λ text. text.items ≡ spec_path_text (N.names names.now) path.now) }
{
    let mut trail = root(alloc, names, path.root())?;
    'each: for at in path.steps() {
        trail = step(alloc, names, *at, trail)?;
    }
    trail.into_text(alloc)
}
