//! The rules that one status can break at a point of a function.
ghost use Rattle.std.specs.Prelude.{◌≡◌, ℕ, not, ◌&&◌, ◌||◌};
ghost use Rattle.tsa_place_model.specs.Ways.{Way};
ghost use Rattle.tsa_core.specs.Programs.{Function, Program};
ghost use Rattle.tsa_rules.specs.Cases.{breaks_giving, breaks_mode, breaks_taking, case_of, exit_in, fails_in, is_leaving_in, later_in};
ghost use Rattle.tsa_rules.specs.Fails.{fails, wants_takable};
ghost use Rattle.tsa_rules.specs.KindSets.{has_kind};
ghost use Rattle.tsa_rules.specs.Statuses.{same_status};
ghost use Rattle.tsa_tree.specs.declared.attr.AttrKind.TheVariants as attr;

use crate::case::{Case, Role};
use crate::rule::Rule;
use crate::status::Status;
use tsa_tree::attr::AttrKind;

impl Case {
    /// Whether an attribute of a kind names the path.
    fn names(self, kind: AttrKind) -> bool
        ensures { result ≡ has_kind self.mark.kinds kind }
    {
        self.mark.kinds.has(kind)
    }

    /// Whether what is taken alone may not be.
    fn is_untakable(self, status: Status) -> bool
        ensures { result ≡ wants_takable self.lock.is_reentrant attr.Acquire status }
    {
        if self.lock.is_reentrant {
            !status.is_takable_again()
        } else {
            !status.is_free()
        }
    }

    /// Whether what is taken otherwise, or tried, names the path.
    fn names_taking(self) -> bool
        ensures { result ≡ (has_kind self.mark.kinds attr.AcquireShared
            || (has_kind self.mark.kinds attr.TryAcquire || has_kind self.mark.kinds attr.TryAcquireShared)) }
    {
        self.names(AttrKind::AcquireShared)
            || self.names(AttrKind::TryAcquire)
            || self.names(AttrKind::TryAcquireShared)
    }

    /// Whether what is given back names the path.
    fn names_giving(self) -> bool
        ensures { result ≡ (has_kind self.mark.kinds attr.Release
            || (has_kind self.mark.kinds attr.ReleaseShared || has_kind self.mark.kinds attr.ReleaseGeneric)) }
    {
        self.names(AttrKind::Release)
            || self.names(AttrKind::ReleaseShared)
            || self.names(AttrKind::ReleaseGeneric)
    }

    /// Whether what is taken or tried may not be.
    fn breaks_taking(self, status: Status) -> bool
        ensures { result ≡ breaks_taking self status }
    {
        (self.names(AttrKind::Acquire) && self.is_untakable(status))
            || (self.names_taking() && !status.is_free())
    }

    /// Whether what is given back is owned in another mode, or lent.
    fn breaks_mode(self, status: Status) -> bool
        ensures { result ≡ breaks_mode self status }
    {
        match status {
            Status::Free | Status::Pending(_) => false,
            Status::Shared => self.names(AttrKind::Release),
            Status::Exclusive(_) => self.names(AttrKind::ReleaseShared),
            Status::Lent => self.names_giving(),
        }
    }

    /// Whether the point leaves with another status than the function declares.
    fn breaks_leaving(self, status: Status) -> bool
        ensures { result ≡ (is_leaving_in self.role && not (same_status (later_in self status) (exit_in self))) }
    {
        match self.role {
            Role::Leaves(_) => self.later(status) != self.exit(),
            _ => false,
        }
    }

    /// Whether a rule fails, by the rows of the rules.
    fn breaks(self, rule: Rule, status: Status) -> bool
        ensures { result ≡ fails_in rule self status }
    {
        match rule {
            Rule::TS01 => {
                (self.mark.reads_before && status.is_unheld())
                    || (self.mark.reads_after && self.later(status).is_unheld())
            }
            Rule::TS02 => self.mark.writes && !self.later(status).is_exclusive(),
            Rule::TS03 => self.names(AttrKind::Requires) && !status.is_exclusive(),
            Rule::TS04 => self.names(AttrKind::RequiresShared) && status.is_unheld(),
            Rule::TS05 => self.names(AttrKind::Excludes) && !status.is_free(),
            Rule::TS06 => self.breaks_taking(status),
            Rule::TS07 => self.names_giving() && status.is_unheld(),
            Rule::TS08 => self.breaks_mode(status),
            Rule::TS09 => self.breaks_leaving(status),
            Rule::TS10 => false,
            Rule::TS11 => self.mark.is_claimed_twice,
            Rule::TS12 => self.mark.is_declared && !status.is_free(),
        }
    }

    /// Whether a rule fails at the point for the path, where that has a status before it.
    pub fn fails(self, rule: Rule, status: Status) -> bool
        ensures by { result ≡ fails_in rule self status }
        ensures is { (u : Program) (f : Function) (p : ℕ) (c : Way) → self ≡ case_of u f p c → result ≡ fails rule u f p c status }
    {
        self.breaks(rule, status)
    }
}
