//! The law of accepted units.
ghost use Rattle.tsa_sound_accepted.specs.Laws.{UnitsWithoutWarningsAreSound};
ghost use Rattle.tsa_sound_accepted.specs.TwoTexts.{TwoTextsAreSound};

/// A unit that can be spelled, has right types and its places, is in the profile, and of which no rule fails, is sound: from any start,
/// whoever takes the turns, no event breaks what guards and attributes say, and no two threads race.
pub fn units_without_warnings_are_sound()
    ensures { UnitsWithoutWarningsAreSound }
{}

/// So are two units as one list, where one gives a type a name that a member and a label of the other bear, so that no text reads as both.
#[tactic(auto, using(crate::proofs::TwoTexts::two_texts_are_sound))]
pub fn two_texts_are_sound()
    ensures { TwoTextsAreSound }
{}
