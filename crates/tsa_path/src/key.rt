//! Paths as the keys of a table: told apart by root and steps alone.
ghost use Rattle.std.specs.Prelude.{◌≡◌, IfOk};
ghost use Rattle.tsa_path.specs.Sameness.{same_root as spec_same_root, same_steps as spec_same_steps, same_way};

use std::alloc::Global;
use std::hash::{Hash, Hasher};
use tsa_base::NoMemory;
use tsa_place_model::{Path, PathStep, Root};

/// Whether two roots are the same.
#[tactic(auto, using(crate::proofs::PathsApart::root_test_is))]
fn same_root(left: Root, right: Root) -> bool
    ensures { result ≡ spec_same_root left right }
{
    left == right
}

/// Whether some steps are the same, in order.
#[tactic(auto, using(crate::proofs::PathsApart::steps_test_are))]
fn same_steps(left: &[PathStep], right: &[PathStep]) -> bool
    ensures { result ≡ spec_same_steps left.now right.now }
{
    left == right
}

/// Whether two paths have the same root and the same steps in order.
pub fn is_same(left: &Path, right: &Path) -> bool
    ensures { result ≡ same_way left.now right.now }
{
    same_root(left.root(), right.root()) && same_steps(left.steps(), right.steps())
}

/// A path as a key.
#[derive(Drop)]
pub struct Key {
    pub path: Path,
}

impl Key {
    /// The same key once more.
    pub fn copy(&self, alloc: Global) -> Result<Key, NoMemory>
        ensures { IfOk result (λ copy. copy ≡ self.now) }
    {
        let path = self.path.copy(alloc)?;
        Ok(Key { path })
    }
}

impl PartialEq for Key {
    ghost use Rattle.std.proofs.Common.{rules};
    ghost use Rattle.std.specs.Cmp.Lexicographic.{pointwise};
    ghost use Rattle.std.specs.Cmp.Rules.{comparing};
    ghost use Rattle.std.specs.Ordering.{on, eq_of_both};
    ghost use Rattle.tsa_place_model.specs.contracts.path.RootPartialEq.TheImpl as of_root;
    ghost use Rattle.tsa_place_model.specs.contracts.path.RootPartialEq.TheImpl.Laws as root_laws;
    ghost use Rattle.tsa_place_model.specs.contracts.path.PathStepPartialEq.TheImpl as of_step;
    ghost use Rattle.tsa_place_model.specs.contracts.path.PathStepPartialEq.TheImpl.Laws as step_laws;

    ghost eq = { eq_of_both (on (λ a. a.path.root) of_root.ghosts.eq) (on (λ a. a.path.steps) (pointwise of_step.ghosts.eq)) };

    ghost laws = { Prim.search (comparing, rules, root_laws.laws-law, step_laws.laws-law) };

    /// Keys are equal where their paths have the same root and the same steps in order.
    fn eq(&self, other: &Key) -> bool {
        self.path.root() == other.path.root() && self.path.steps() == other.path.steps()
    }
}

impl Eq for Key {
    ghost use Rattle.std.proofs.Common.{rules};
    ghost use Rattle.std.specs.Cmp.Rules.{comparing};
    ghost use Rattle.tsa_place_model.specs.contracts.path.RootEq.TheImpl.Laws as root_laws;
    ghost use Rattle.tsa_place_model.specs.contracts.path.PathStepEq.TheImpl.Laws as step_laws;

    ghost laws = { Prim.search (comparing, rules, root_laws.laws-law, step_laws.laws-law) };
}

impl Hash for Key {
    ghost use Rattle.std.specs.Prelude.{◌++◌};
    ghost use Rattle.std.specs.Hash as fed;
    ghost use Rattle.std.specs.Hash.{and-Alike, on_Alike, items_Alike};
    ghost use Rattle.tsa_place_model.specs.contracts.path.RootHash.TheImpl as of_root;
    ghost use Rattle.tsa_place_model.specs.contracts.path.RootHash.TheImpl.Laws as root_laws;
    ghost use Rattle.tsa_place_model.specs.contracts.path.PathStepHash.TheImpl as of_step;
    ghost use Rattle.tsa_place_model.specs.contracts.path.PathStepHash.TheImpl.Laws as step_laws;

    ghost hash_input = { λ a. of_root.ghosts.hash_input a.path.root ++ fed.slice of_step.ghosts.hash_input a.path.steps };

    ghost respects_eq = { (and-Alike (on_Alike (λ a. a.path.root) (record { fed = root_laws.respects_eq-law })) (on_Alike (λ a. a.path.steps) (items_Alike (record { fed = step_laws.respects_eq-law })))).fed };

    /// What is hashed of a key: the root and the steps of its path.
    fn hash<H: Hasher>(&self, state: &mut H) {
        self.path.root().hash(state);
        self.path.steps().hash(state);
    }
}
