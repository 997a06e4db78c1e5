//! What a point makes of sets of statuses, and whether some of them break a rule there.
ghost use Rattle.std.specs.Prelude.{◌≡◌, ◌↔◌, ◌⊎◌, IsTrue};
ghost use Rattle.tsa_rules.specs.Cases.{effect_in, fails_in, IsSmall};
ghost use Rattle.tsa_graph_edges.specs.Links.{outcome_of};
ghost use Rattle.tsa_rules.specs.Sets.{Has, HasPlace, HasSome, IsImage};

use crate::case::Case;
use crate::rule::Rule;
use crate::status::Status;
use crate::statuses::Statuses;
use tsa_graph_edges::Outcome;

impl Case {
    /// Some statuses, and what the point makes of one more.
    fn with_effect(self, outcome: Outcome, after: Statuses, status: Status) -> Statuses
        requires role { IsSmall self.role }
        requires place { HasPlace status }
        ensures { (t : _) → Has result t ↔ (Has after t ⊎ (t ≡ effect_in self (outcome_of outcome) status)) }
    {
        after.with(self.effect(outcome, status))
    }

    /// What the point makes of some statuses, where it is left by an outcome.
    pub fn image(self, outcome: Outcome, before: Statuses) -> Statuses
        requires { IsSmall self.role }
        ensures { (t : _) → Has result t ↔ IsImage (effect_in self (outcome_of outcome)) before t }
    {
        let mut left = before;
        let mut after = Statuses::none();
        'members: while let Some(status) = left.take_first() {
            after = self.with_effect(outcome, after, status);
        }
        after
    }

    /// Whether a rule fails at the point for some of the statuses that the path may have before it.
    pub fn fails_for_some(self, rule: Rule, before: Statuses) -> bool
        ensures { IsTrue result ↔ HasSome (fails_in rule self) before }
    {
        let mut left = before;
        'members: while let Some(status) = left.take_first() {
            if self.fails(rule, status) {
                return true;
            }
        }
        false
    }
}
