//! Rules that fail.
ghost use Rattle.std.specs.Prelude.{◌≡◌, ◌++◌, ◌∷◌, [], OnOk};

use tsa_base::NoMemory;
use tsa_rules::Rule;

/// A rule that fails at a point of a function for the path of a number.
#[derive(Clone, Copy, Debug, PartialEq, Eq)]
pub struct RuleFailure {
    pub point: u32,
    pub rule: Rule,
    pub cap: u32,
}

/// One more behind those that are found.
pub fn put(found: &mut Vec<RuleFailure>, failure: RuleFailure) -> Result<(), NoMemory>
    ensures { OnOk result (found.new.items ≡ found.old.items ++ failure ∷ []) }
{
    found.push(failure)?;
    Ok(())
}
