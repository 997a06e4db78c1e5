//! Units that are typed (C11 6.5, 6.7, 6.8).
ghost use Rattle.std.specs.Prelude.{◌≡◌, [], None, IfOk};
ghost use Rattle.tsa_tree.specs.units.Shapes.{item_shapes};
ghost use Rattle.tsa_types_expressions.specs.Judgements.{Judges, forget};
ghost use Rattle.tsa_tree.specs.types.Symbols.{symbol_in};
ghost use Rattle.tsa_tree.specs.types.FirstFailing.{first_failing};
ghost use Rattle.tsa_tree.specs.types.Units.{names_in_unit};
ghost use Rattle.tsa_types_row.specs.ItemRows.{row_in_unit};
ghost use Rattle.tsa_tree.specs.units.WellRead.{IsWellRead};

use crate::unit::judge;
use std::alloc::Global;
use tsa_tree::Parsed;
use tsa_tree::expr::Name;
use tsa_tree::item::UnitTree;
use tsa_tree::meaning::Symbol;
use tsa_types_expressions::TypeRefusal;
use tsa_types_row::Row;

/// A unit that is well read and of which no node fails a premise of types, and its row.
#[derive(Drop)]
pub struct Typed<'a> {
    pub(crate) unit: &'a UnitTree<'a>,
    row: Row,
    pub ghost well_read: { ∥ IsWellRead unit.now.items.now ∥₁ },
    pub ghost typed: { first_failing (item_shapes unit.now.items.now) ≡ None },
    ghost put: { row ≡ row_in_unit (item_shapes unit.now.items.now) },
}

impl<'a> Typed<'a> {
    /// The tree.
    pub fn unit(&self) -> &'a UnitTree<'a>
        ensures { result ≡ self.now.unit }
    {
        self.unit
    }

    /// The row of the unit: its expressions and the points of its bodies as nodes, each in front of its parts.
    pub fn row(&self) -> &Row
        ensures { result.now ≡ row_in_unit (item_shapes self.now.unit.now.items.now) }
    {
        &self.row
    }

    /// What a name means: none where its span is no use and no declaration of a global, a local, a function or an enumerator.
    #[tactic(auto, using(crate::proofs::UnitRows::names))]
    pub fn symbol(&self, name: &Name<'a>) -> Option<Symbol>
        ensures { result ≡ symbol_in (names_in_unit (item_shapes self.now.unit.now.items.now)) name.now.span }
    {
        self.row.symbol_at(name.span)
    }
}

/// A unit that is typed, or its first failing node with the smallest code that fails there.
#[tactic(auto, using(tsa_tree::proofs::types::UnitNodes::premises_tell_it))]
pub fn type_check<'a>(alloc: Global, unit: Parsed<'a>) -> Result<Typed<'a>, TypeRefusal>
    ensures judged { Judges (first_failing (item_shapes unit.entry.unit.now.items.now)) (forget result) }
    ensures gives { IfOk result (λ typed. typed.unit ≡ unit.entry.unit) }
{
    let tree = unit.unit();
    match judge(alloc, tree.items) {
        Ok(row) => Ok(Typed { unit: tree, row }),
        Err(refusal) => Err(refusal),
    }
}
