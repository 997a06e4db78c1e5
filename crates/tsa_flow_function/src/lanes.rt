//! The lanes of a function.
ghost use Rattle.std.specs.Prelude.{◌≡◌, length, slice_index_or};
ghost use Rattle.tsa_flow_function.specs.Lanes.{AreClaimed};

use crate::Claims;
use tsa_flow_solver::Lanes;
use tsa_rules::{Case, Role, Status};
use tsa_rules_view::RuleView;

/// Paths of a function in lanes, with the view of the function and the lanes that its points claim.
#[derive(Clone, Copy)]
pub struct ViewLanes<'v, 'a> {
    pub view: &'v RuleView<'a>,
    pub caps: &'v [u32],
    pub count: u32,
    pub claims: &'v Claims,
    pub ghost counted: { count ≡ length caps.now },
    pub ghost claimed: { AreClaimed view.now caps.now claims.now },
}

impl<'v, 'a> ViewLanes<'v, 'a> {
    /// The number of the path of a lane.
    fn cap(&self, lane: u32) -> u32
        ensures { result ≡ slice_index_or self.now.caps.now lane 0 }
    {
        match self.caps.get(lane as usize) {
            Some(cap) => *cap,
            None => 0,
        }
    }
}

impl<'v, 'a> Lanes for ViewLanes<'v, 'a> {
    ghost use Rattle.std.specs.Prelude.{length, slice_index_or};
    ghost use Rattle.tsa_rules.specs.Cases.{entry_in};
    ghost use Rattle.tsa_rules_table.specs.Rows.{rows_in};
    ghost use Rattle.tsa_rules_view.specs.Views.{case_in, lock_in};

    ghost count = { λ lanes. length lanes.caps.now };

    ghost points = { λ lanes. rows_in lanes.view.now.notes.marks };

    ghost enters = { λ lanes lane. entry_in (lock_in lanes.view.now (slice_index_or lanes.caps.now lane 0)) };

    ghost cases = { λ lanes lane point. case_in lanes.view.now point (slice_index_or lanes.caps.now lane 0) };

    fn count(&self) -> u32 {
        self.count
    }

    fn entry(&self, lane: u32) -> Status {
        self.view.lock(self.cap(lane)).entry()
    }

    fn case(&self, lane: u32, point: u32) -> Case {
        self.view.case(point, self.cap(lane))
    }

    fn role(&self, point: u32) -> Role {
        self.view.role(point)
    }

    fn claims(&self, point: u32) -> &[u32] {
        self.claims.at(point)
    }
}
