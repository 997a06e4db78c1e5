//! What holds of canonical text.
ghost use Rattle.tsa_print.specs.PrintLaws.{WritableIsReadAgain, ReadIsWritable};
ghost use Rattle.tsa_print.specs.UnitPrintLaws.{SoundUnitIsReadAgain, ReadUnitIsSound};

/// The tokens of an expression's canonical text spell the same tree, up to spans, and no other.
#[tactic(auto, using(crate::proofs::ReadAgain::writable_is_read_again))]
pub fn printed_expressions_are_read_again()
    ensures { WritableIsReadAgain }
{}

/// An expression that the tokens of a text spell has names that are names and numbers of their types, so that it is read
/// again from its canonical text if no `.` in it has a number as its base.
#[tactic(auto, using(crate::proofs::ReadAgain::read_is_writable))]
pub fn read_expressions_can_be_printed()
    ensures { ReadIsWritable }
{}

/// The tokens of a unit's canonical text spell the same unit, up to spans, and no other, and that unit is printed as the same
/// bytes, if no `.` in it has a number as its base.
#[tactic(auto, using(crate::proofs::UnitReadAgain::sound_unit_is_read_again))]
pub fn printed_units_are_read_again()
    ensures { SoundUnitIsReadAgain }
{}

/// A unit that the tokens of a text spell is one that the grammar can spell, so that it is read again from its canonical text
/// if no `.` in it has a number as its base.
#[tactic(auto, using(crate::proofs::UnitReadAgain::read_unit_is_sound))]
pub fn read_units_can_be_printed()
    ensures { ReadUnitIsSound }
{}
