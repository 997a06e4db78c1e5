//! What a view has.
ghost use Rattle.std.specs.Prelude.{◌<◌};
ghost use Rattle.tsa_rules_roles.specs.Roles.{tries_in};
ghost use Rattle.tsa_rules.specs.Sets.{pending_places};

use crate::LockKind;
use tsa_rules_points::Notes;
use tsa_rules_table::{Marks, Numbers};

/// All that the rules go by in a function: its paths by their numbers, the kind of the lock to which each leads and what the function says
/// of it, and what its points do and say of each path.
pub struct RuleView<'a> {
    pub(crate) numbers: Numbers,
    pub(crate) kinds: Vec<Option<LockKind<'a>>>,
    pub(crate) own: Marks,
    pub(crate) notes: Notes,
    pub ghost few: { tries_in notes.roles < pending_places },
}

impl Drop for RuleView<'_> {
    /// Lets its parts go, in one call for all who let one go.
    fn drop(self) {
        let RuleView {
            numbers: _,
            kinds: _,
            own: _,
            notes: _,
        } = self;
    }
}
