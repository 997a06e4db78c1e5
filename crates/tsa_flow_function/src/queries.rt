//! What walks bring to the points of a function.
ghost use Rattle.std.specs.Prelude.{◌≡◌, ◌<◌, ◌↔◌, ℕ, List, Some, length, slice_get, IfOk, IsFalse, IsTrue};
ghost use Rattle.tsa_graph.specs.Rows.{AreBlocksOf};
ghost use Rattle.tsa_core.specs.Programs.{Function, Program};
ghost use Rattle.tsa_flow_function.specs.Flows.{IsFlowOf};
ghost use Rattle.tsa_flow_solver.specs.Disagreeing.{Disagree};
ghost use Rattle.tsa_rules.specs.Points.{edges_of, points_of};
ghost use Rattle.tsa_rules.specs.Sets.{Has};
ghost use Rattle.tsa_rules.specs.Walks.{Agree, ReachAt, course_of};
ghost use Rattle.tsa_rules_view.specs.Views.{IsViewOf};
ghost use Rattle.tsa_place_model.specs.Ways.{Way};

use crate::function::FunctionFlow;
use crate::lanes::ViewLanes;
use crate::working::path_flows;
use std::alloc::Global;
use tsa_base::NoMemory;
use tsa_flow_solver::Spot;
use tsa_graph::Blocks;
use tsa_rules::Statuses;
use tsa_rules_view::RuleView;

impl<'a> FunctionFlow<'a> {
    /// What walks bring to the points of a function, by its view and the blocks of its body.
    pub fn new(
        alloc: Global,
        view: RuleView<'a>,
        blocks: Blocks,
    ) -> Result<FunctionFlow<'a>, NoMemory>
        ensures { IfOk result (λ flow. (u : Program) (f : Function) (paths : List Way) → IsViewOf u f paths view.entry
            → AreBlocksOf (length (points_of f)) (edges_of f) blocks → IsFlowOf u f paths flow) }
    {
        let paths = path_flows(alloc, &view, &blocks)?;
        Ok(FunctionFlow {
            view,
            blocks,
            paths,
        })
    }

    /// The view of the function.
    pub fn view(&self) -> &RuleView<'a>
        ensures { result.now ≡ self.now.view }
    {
        &self.view
    }

    /// The lanes of its paths.
    fn lanes(&self) -> ViewLanes<'_, 'a>
        ensures view { result.view.now ≡ self.now.view }
        ensures caps { result.caps.now ≡ self.now.paths.caps.items }
        ensures claims { result.claims.now ≡ self.now.paths.claims }
    {
        ViewLanes {
            view: &self.view,
            caps: &self.paths.caps,
            count: self.paths.count,
            claims: &self.paths.claims,
        }
    }

    /// The statuses of a path before a point: all that some walk brings there. None of a path that isn't there.
    pub fn statuses(&self, point: u32, cap: u32) -> Statuses
        ensures { (u : Program) (f : Function) (paths : List Way) (c : Way) → IsFlowOf u f paths self.now → point < length (points_of f)
            → slice_get paths cap ≡ Some c → (s : _) → Has result s ↔ ReachAt (course_of u f c) point s }
    {
        match self.paths.lane(cap) {
            Some(lane) => {
                let spot = Spot { point, lane };
                self.paths
                    .reached
                    .statuses(&self.lanes(), &self.blocks, spot)
            }
            None => Statuses::none(),
        }
    }

    /// Whether all edges that are reached into a point bring the same statuses of a path. Where they don't, two of them tell it.
    pub fn agree(&self, point: u32, cap: u32) -> bool
        ensures is { (u : Program) (f : Function) (paths : List Way) (c : Way) → IsFlowOf u f paths self.now → point < length (points_of f)
            → slice_get paths cap ≡ Some c → IsTrue result ↔ Agree (course_of u f c) point }
        ensures differ { (u : Program) (f : Function) (paths : List Way) (c : Way) → IsFlowOf u f paths self.now
            → point < length (points_of f) → slice_get paths cap ≡ Some c → IsFalse result → Disagree (course_of u f c) point }
    {
        match self.paths.lane(cap) {
            Some(lane) => self.paths.reached.agree(&self.blocks, Spot { point, lane }),
            None => true,
        }
    }

    /// Whether all edges that are reached into a point bring the same statuses of every path.
    pub fn all_agree(&self, point: u32) -> bool
        ensures { (u : Program) (f : Function) (paths : List Way) (cap : ℕ) (c : Way) → IsFlowOf u f paths self.now
            → point < length (points_of f) → slice_get paths cap ≡ Some c → IsTrue result → Agree (course_of u f c) point }
    {
        self.paths.reached.all_agree(&self.blocks, point)
    }
}
