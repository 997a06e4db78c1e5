//! What a path is told by.
ghost use Rattle.std.specs.Prelude.{◌≡◌, ◌++◌, option_to_list, IfOk, OnOk};
ghost use Rattle.tsa_rules.specs.Warnings.{index_local, locals_in};
ghost use Rattle.tsa_warn_text.specs.Orders.{text_of};

use std::alloc::Global;
use std::marker::Model;
use tsa_base::NoMemory;
use tsa_path::{PathNames, path_text};
use tsa_place_model::{Path, PathStep, Root};

/// What a path is told by: its text, and the locals that it mentions. Contracts see these two.
pub struct PathText {
    text: Vec<u8>,
    locals: Vec<u32>,
}

impl Drop for PathText {
    /// Lets its parts go, in one call for all who let one go.
    fn drop(self) {
        let PathText { text: _, locals: _ } = self;
    }
}

impl Model for PathText {
    ghost use Rattle.tsa_warn_text.specs.Ranks.{PathText};

    ghost Value = { PathText };

    ghost view = { λ path. record { text = path.text.items; locals = path.locals.items } };
}

/// Adds the local that a step mentions, where it goes to the element at an index variable.
fn push_local(locals: &mut Vec<u32>, step: PathStep) -> Result<(), NoMemory>
    ensures { OnOk result (locals.new.items ≡ locals.old.items ++ option_to_list (index_local step)) }
{
    if let PathStep::Variable(local) = step {
        locals.push(local)?;
    }
    Ok(())
}

/// The locals that a path mentions: its root first, and then its index variables in the order of its steps.
fn locals_of(alloc: Global, path: &Path) -> Result<Vec<u32>, NoMemory>
    ensures { IfOk result (λ locals. locals.items ≡ locals_in path.now) }
{
    let mut locals = Vec::new(alloc);
    if let Root::Local(local) = path.root() {
        locals.push(local)?;
    }
    let steps = path.steps();
    'each: for step in steps {
        push_local(&mut locals, *step)?;
    }
    Ok(locals)
}

impl PathText {
    /// What a path is told by, by the names that the function sees.
    pub fn new<N: PathNames>(alloc: Global, names: &N, path: &Path) -> Result<PathText, NoMemory>
        ensures { IfOk result (λ text. text ≡ text_of (N.names names.now) path.now) }
    {
        let text = path_text(alloc, names, path)?;
        let locals = locals_of(alloc, path)?;
        Ok(PathText { text, locals })
    }

    /// Its text.
    pub fn text(&self) -> &[u8]
        ensures { result.now ≡ self.now.text }
    {
        &self.text
    }

    /// The locals that it mentions.
    pub fn locals(&self) -> &[u32]
        ensures { result.now ≡ self.now.locals }
    {
        &self.locals
    }
}
