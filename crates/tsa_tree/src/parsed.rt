//! A unit that was read.
ghost use Rattle.std.specs.Prelude.{◌≡◌};
ghost use Rattle.tsa_tree.specs.units.WellRead.{IsWellRead};

use crate::item::UnitTree;

/// A unit that is well read: the tokens of some text spell its tree, and its points are those of the rules.
#[derive(Clone, Copy)]
pub struct Parsed<'a> {
    pub(crate) unit: &'a UnitTree<'a>,
    pub ghost well_read: { ∥ IsWellRead unit.now.items.now ∥₁ },
}

impl<'a> Parsed<'a> {
    /// The unit of a tree that is well read. No memory is taken.
    pub fn new(unit: &'a UnitTree<'a>) -> Parsed<'a>
        requires well_read { ∥ IsWellRead unit.now.items.now ∥₁ }
        ensures { result.unit ≡ unit.entry }
    {
        Parsed { unit }
    }

    /// The tree.
    pub fn unit(&self) -> &'a UnitTree<'a>
        ensures { result ≡ self.now.unit }
    {
        self.unit
    }
}
