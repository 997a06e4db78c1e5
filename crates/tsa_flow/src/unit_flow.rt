//! What walks bring to the points of all functions of a unit.
ghost use Rattle.std.specs.Prelude.{◌≡◌, [], Ok, option_map, IfOk};
ghost use Rattle.tsa_place_model.specs.Units.{placed_in};
ghost use Rattle.tsa_flow.specs.Units.{AreTold, told_at};
ghost use Rattle.tsa_tree.specs.units.Shapes.{item_shapes};

use crate::passage::Flows;
use crate::tables::UnitTables;
use std::alloc::Global;
use tsa_base::NoMemory;
use tsa_flow_function::{Facts, FunctionFlow, RuleView};
use tsa_place::Places;
use tsa_rules::Statuses;
use tsa_rules_bodies::Fit;
use tsa_tree::item::UnitTree;

/// A unit in the profile, with what walks bring to the points of its functions, by their numbers.
pub struct Flowed<'a> {
    pub(crate) fit: Fit<'a>,
    pub(crate) flows: Flows<'a>,
}

impl Drop for Flowed<'_> {
    /// Lets its parts go, in one call for all who let one go.
    fn drop(self) {
        let Flowed { fit: _, flows: _ } = self;
    }
}

/// What walks bring to the points of the functions of a unit in the profile, in one walk along its items. The places are those of the unit.
pub fn flow<'a>(alloc: Global, unit: Fit<'a>, places: &Places) -> Result<Flowed<'a>, NoMemory>
    requires placed { placed_in (item_shapes unit.typed.unit.now.items.now) ≡ Ok places.now }
    ensures fit { IfOk result (λ flowed. flowed.fit ≡ unit.entry) }
    ensures told { IfOk result (λ flowed. AreTold (item_shapes unit.entry.typed.unit.now.items.now) flowed.flows.items) }
{
    let flows = flows_of(alloc, &unit, places)?;
    Ok(Flowed { fit: unit, flows })
}

/// What walks bring to the points of the functions of a unit in the profile, by their numbers.
fn flows_of<'a>(alloc: Global, unit: &Fit<'a>, places: &Places) -> Result<Flows<'a>, NoMemory>
    requires placed { placed_in (item_shapes unit.now.typed.unit.now.items.now) ≡ Ok places.now }
    ensures { IfOk result (λ flows. AreTold (item_shapes unit.now.typed.unit.now.items.now) flows.items) }
{
    let tables = UnitTables::new(alloc, unit, places)?;
    tables.pass(unit).flows(alloc)
}

impl<'a> Flowed<'a> {
    /// The unit in the profile.
    pub fn fit(&self) -> &Fit<'a>
        ensures { result.now ≡ self.now.fit }
    {
        &self.fit
    }

    /// What walks bring to the points of a function by its number. None exactly where it has no table of paths, as without a body.
    pub fn function(&self, number: u32) -> Option<&FunctionFlow<'a>>
        ensures { option_map (λ flow. flow.now) result ≡ told_at self.now.flows.items number }
    {
        match self.flows.get(number as usize) {
            Some(Some(flow)) => Some(flow),
            _ => None,
        }
    }
}

impl<'a> Facts<'a> for Flowed<'a> {
    ghost use Rattle.tsa_flow.specs.Units.{AreTold};
    ghost use Rattle.tsa_tree.specs.units.Shapes.{item_shapes};

    ghost items = { λ flowed. item_shapes flowed.fit.typed.unit.now.items.now };

    ghost hold = { λ flowed. AreTold (item_shapes flowed.fit.typed.unit.now.items.now) flowed.flows.items };

    fn unit(&self) -> &'a UnitTree<'a> {
        self.fit.unit()
    }

    fn view(&self, function: u32) -> Option<&RuleView<'a>> {
        match self.function(function) {
            Some(flow) => Some(flow.view()),
            None => None,
        }
    }

    fn statuses(&self, function: u32, point: u32, cap: u32) -> Statuses {
        match self.function(function) {
            Some(flow) => flow.statuses(point, cap),
            None => Statuses::none(),
        }
    }

    fn agree(&self, function: u32, point: u32, cap: u32) -> bool {
        match self.function(function) {
            Some(flow) => flow.agree(point, cap),
            None => true,
        }
    }
}
