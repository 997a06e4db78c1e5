//! The views of the functions of units in the profile.
ghost use Rattle.std.specs.Prelude.{◌≡◌, Ok, slice_get, IfOk};
ghost use Rattle.tsa_core.specs.Programs.{program_of};
ghost use Rattle.tsa_place_model.specs.Units.{placed_in};
ghost use Rattle.tsa_tree.specs.units.Shapes.{item_shapes};
ghost use Rattle.tsa_rules_view.specs.BodyViews.{HasFewTries, IsMade};
ghost use Rattle.tsa_rules_view.specs.Views.{IsViewIn};

use crate::build::Unit;
use crate::content::RuleView;
use crate::lock_kinds;
use std::alloc::Global;
use tsa_base::NoMemory;
use tsa_path::PathTable;
use tsa_place::Places;
use tsa_rules_bodies::{BodySite, Fit, site_in};

impl<'w, 'a> Unit<'w, 'a> {
    /// The view of the body of a site, by the paths of its function, which has few try variables.
    fn view_at(&self, site: BodySite<'a>, paths: &PathTable) -> Result<RuleView<'a>, NoMemory>
        requires few { HasFewTries self.now site.known site.inside }
        ensures { IfOk result (λ view. IsMade self.now site.entry.known site.entry.inside paths.now view) }
    {
        let inside = site.inside;
        let mut known = site.known;
        self.view(&mut known, &inside, paths)
    }
}

impl<'a> RuleView<'a> {
    /// The view of a function of a unit in the profile by its number. None exactly where it has no
    /// table of paths there, as without a body. The places are those of the unit.
    pub fn new(
        alloc: Global,
        unit: &Fit<'a>,
        places: &Places,
        function: u32,
    ) -> Result<Option<RuleView<'a>>, NoMemory>
        requires placed { placed_in (item_shapes unit.now.typed.unit.now.items.now) ≡ Ok places.now }
        ensures { IfOk result (λ view. IsViewIn (program_of (item_shapes unit.now.typed.unit.now.items.now))
            (slice_get (program_of (item_shapes unit.now.typed.unit.now.items.now)).functions function) view) }
    {
        let Some(paths) = unit.paths(function) else {
            return Ok(None);
        };
        let layout = places.layout();
        let kinds = lock_kinds(alloc, unit.unit().items)?;
        let made = Unit {
            layout: &layout,
            kinds: &kinds,
        };
        match site_in(alloc, unit.typed(), places, function)? {
            Some(site) => made.view_at(site, paths).map(Some),
            None => Ok(None),
        }
    }
}
