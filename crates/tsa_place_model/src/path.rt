//! Paths to places (C11 6.5.2, 6.5.3.2): a root, and the steps from it. A path is told from another by these alone.
ghost use Rattle.std.specs.Prelude.{◌≡◌, ◌++◌, IfOk};
ghost use Rattle.tsa_place_model.specs.Ways.{from as spec_from, onward as spec_onward};

use smallvec::SmallVec;
use std::alloc::Global;
use std::marker::Model;
use tsa_base::NoMemory;

/// What a path begins at: a global or a local by its number, or the struct object whose member has a guard.
#[derive(Clone, Copy, Debug, PartialEq, Eq, Hash)]
pub enum Root {
    Global(u32),
    Local(u32),
    Owner,
}

/// A step of a path: to a member by its number, to an element by a constant or by what a local holds, or to where a pointer points.
#[derive(Clone, Copy, Debug, Default, PartialEq, Eq, Hash)]
pub enum PathStep {
    Field(u32),
    Constant(u32),
    Variable(u32),
    #[default]
    Follow,
}

/// A root and the steps from it, in order, of which the first few take no memory of their own. Contracts see it as a way.
pub struct Path {
    root: Root,
    steps: SmallVec<PathStep, 2>,
}

impl Drop for Path {
    /// Lets its parts go, in one call for all who let one go.
    fn drop(self) {
        let Path { root: _, steps: _ } = self;
    }
}

impl Model for Path {
    ghost use Rattle.tsa_place_model.specs.Ways.{Way};

    ghost Value = { Way };

    ghost view = { λ path. record { root = path.root; steps = path.steps.items } };
}

impl Path {
    /// A root alone. No memory is taken.
    pub fn new(alloc: Global, root: Root) -> Path
        ensures { result ≡ spec_from root }
    {
        Path {
            root,
            steps: SmallVec::new(alloc),
        }
    }

    /// What it begins at.
    pub fn root(&self) -> Root
        ensures { result ≡ self.now.root }
    {
        self.root
    }

    /// The steps from there, in order.
    pub fn steps(&self) -> &[PathStep]
        ensures { result.now ≡ self.now.steps }
    {
        self.steps.as_slice()
    }

    /// The same with a further step.
    pub fn onward(mut self, step: PathStep) -> Result<Path, NoMemory>
        ensures { IfOk result (λ path. path ≡ spec_onward step self) }
    {
        self.steps.push(step)?;
        Ok(self)
    }

    /// The same with further steps.
    pub fn with_steps(mut self, steps: &[PathStep]) -> Result<Path, NoMemory>
        ensures { IfOk result (λ path. path ≡ record { root = self.root; steps = self.steps ++ steps.now }) }
    {
        self.steps.extend_from_slice(steps)?;
        Ok(self)
    }

    /// The same path once more.
    pub fn copy(&self, alloc: Global) -> Result<Path, NoMemory>
        ensures { IfOk result (λ path. path ≡ self.now) }
    {
        Path::new(alloc, self.root).with_steps(self.steps.as_slice())
    }
}
