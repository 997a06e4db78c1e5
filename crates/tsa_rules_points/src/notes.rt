//! What is noted of the points of a body.

use tsa_rules_roles::Roles;
use tsa_rules_table::{Marks, Numbers};
use tsa_tree::kind::Kind;

/// What the points of a body are to the rules, by their numbers: their roles, the functions that they call, and a row of marks for each;
/// and the kinds of the locals that they declare, in order.
pub struct Notes {
    pub roles: Roles,
    pub callees: Vec<Option<u32>>,
    pub kinds: Vec<Kind>,
    pub marks: Marks,
}

impl Drop for Notes {
    /// Lets its parts go, in one call for all who let one go.
    fn drop(self) {
        let Notes {
            roles: _,
            callees: _,
            kinds: _,
            marks: _,
        } = self;
    }
}

/// The same, with the numbers by which paths were noted.
#[derive(Drop)]
pub struct Noted {
    pub notes: Notes,
    pub numbers: Numbers,
}
