//! Laws of the words that say how threads begin.
ghost use Rattle.tsa_tool_starts.specs.Examples.{WordsAreAsWritten};
ghost use Rattle.tsa_tool_starts.specs.Laws.{GoodWordsBeginWell};

/// Expressions say the starts that stand beside them, or none.
pub fn words_are_as_written()
    ensures { WordsAreAsWritten }
{}

/// Threads begin well with which good words say that they begin, and a word says one start.
#[tactic(auto, using(crate::proofs::GoodWords::good_words_begin_well))]
pub fn good_words_begin_well()
    ensures { GoodWordsBeginWell }
{}
