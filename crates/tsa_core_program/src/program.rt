//! What later passes ask of a typed unit.
ghost use Rattle.std.specs.Prelude.{◌≡◌, None, map, option_map, IfOk};
ghost use Rattle.tsa_core_program.specs.Programs.{body_of, found_in, bodies_found, found_of, body_numbered};
ghost use Rattle.tsa_core_program.specs.Walks.{lists_in};
ghost use Rattle.tsa_core_rows.specs.Stretches.{bodies_in};
ghost use Rattle.tsa_tree.specs.types.Units.{outset, refusal_of_types};
ghost use Rattle.tsa_tree.specs.units.Shapes.{item_shapes};
ghost use Rattle.tsa_types_row.specs.ItemRows.{row_in_unit};

use crate::counts::counts_of;
use crate::lists::Lists;
use crate::ranges::BodyRange;
use crate::walk::Walk;
use std::alloc::Global;
use tsa_base::NoMemory;
use tsa_tree::item::UnitTree;
use tsa_types::Typed;

/// A typed unit, and what is found along its row: 104 bytes.
#[derive(Drop)]
pub struct Program<'a> {
    unit: &'a UnitTree<'a>,
    lists: Lists,
    pub ghost typed: { refusal_of_types (item_shapes unit.now.items.now) ≡ None },
    pub ghost found: { lists ≡ lists_in (item_shapes unit.now.items.now) },
    pub ghost meant: { bodies_found (row_in_unit (item_shapes unit.now.items.now)) lists
        ≡ map found_of (bodies_in (outset (item_shapes unit.now.items.now)) (item_shapes unit.now.items.now)) },
}

impl<'a> Program<'a> {
    /// That of a typed unit, in one walk along its row.
    pub fn new(alloc: Global, typed: &Typed<'a>) -> Result<Program<'a>, NoMemory>
        ensures { IfOk result (λ program. program.unit ≡ typed.now.unit) }
    {
        let unit = typed.unit();
        let mut walk = Walk::new(alloc, counts_of(alloc, unit.items)?);
        walk.along(typed.row())?;
        let lists = walk.into_lists();
        Ok(Program { unit, lists })
    }

    /// The tree.
    pub fn unit(&self) -> &'a UnitTree<'a>
        ensures { result ≡ self.now.unit }
    {
        self.unit
    }

    /// The lists of its bodies.
    pub fn lists(&self) -> &Lists
        ensures { result.now ≡ lists_in (item_shapes self.now.unit.now.items.now) }
    {
        &self.lists
    }

    /// The body of a function, where it has one.
    #[tactic(auto, using(crate::proofs::BodiesByNumber::body_of_each_is_found))]
    pub fn body(&self, function: u32) -> Option<BodyRange>
        ensures found { result ≡ body_of function (lists_in (item_shapes self.now.unit.now.items.now)).bodies }
        ensures meant { option_map (found_in (row_in_unit (item_shapes self.now.unit.now.items.now)) (lists_in (item_shapes self.now.unit.now.items.now))) result
            ≡ option_map found_of (body_numbered function
            (bodies_in (outset (item_shapes self.now.unit.now.items.now)) (item_shapes self.now.unit.now.items.now))) }
    {
        self.lists.body(function)
    }
}
