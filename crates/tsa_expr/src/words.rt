//! Words that are no names and have a meaning, by their lengths.
ghost use Rattle.std.specs.Prelude.{◌≡◌};
ghost use Rattle.tsa_tree.specs.tokens.Signs.{listed, word_signs};

use crate::table::look_up;
use tsa_tree::attr::AttrKind;
use tsa_tree::sign::{Keyword, Sign};

const OF_TWO: [([u8; 2], Sign); 2] = [
    (*b"if", Sign::Keyword(Keyword::If)),
    (*b"do", Sign::Keyword(Keyword::Do)),
];

const OF_THREE: [([u8; 3], Sign); 2] = [
    (*b"int", Sign::Keyword(Keyword::Int)),
    (*b"for", Sign::Keyword(Keyword::For)),
];

const OF_FOUR: [([u8; 4], Sign); 6] = [
    (*b"enum", Sign::Keyword(Keyword::Enum)),
    (*b"void", Sign::Keyword(Keyword::Void)),
    (*b"else", Sign::Keyword(Keyword::Else)),
    (*b"case", Sign::Keyword(Keyword::Case)),
    (*b"goto", Sign::Keyword(Keyword::Goto)),
    (*b"NULL", Sign::Null),
];

const OF_FIVE: [([u8; 5], Sign); 3] = [
    (*b"const", Sign::Keyword(Keyword::Const)),
    (*b"while", Sign::Keyword(Keyword::While)),
    (*b"break", Sign::Keyword(Keyword::Break)),
];

const OF_SIX: [([u8; 6], Sign); 7] = [
    (*b"struct", Sign::Keyword(Keyword::Struct)),
    (*b"static", Sign::Keyword(Keyword::Static)),
    (*b"extern", Sign::Keyword(Keyword::Extern)),
    (*b"inline", Sign::Keyword(Keyword::Inline)),
    (*b"signed", Sign::Keyword(Keyword::Signed)),
    (*b"switch", Sign::Keyword(Keyword::Switch)),
    (*b"return", Sign::Keyword(Keyword::Return)),
];

const OF_SEVEN: [([u8; 7], Sign); 4] = [
    (*b"typedef", Sign::Keyword(Keyword::Typedef)),
    (*b"default", Sign::Keyword(Keyword::Default)),
    (*b"ACQUIRE", Sign::Macro(AttrKind::Acquire)),
    (*b"RELEASE", Sign::Macro(AttrKind::Release)),
];

const OF_EIGHT: [([u8; 8], Sign); 4] = [
    (*b"unsigned", Sign::Keyword(Keyword::Unsigned)),
    (*b"continue", Sign::Keyword(Keyword::Continue)),
    (*b"REQUIRES", Sign::Macro(AttrKind::Requires)),
    (*b"EXCLUDES", Sign::Macro(AttrKind::Excludes)),
];

const OF_TEN: [([u8; 10], Sign); 2] = [
    (*b"CAPABILITY", Sign::Macro(AttrKind::Capability)),
    (*b"GUARDED_BY", Sign::Macro(AttrKind::GuardedBy)),
];

const OF_ELEVEN: [([u8; 11], Sign); 1] = [(*b"TRY_ACQUIRE", Sign::Macro(AttrKind::TryAcquire))];

const OF_THIRTEEN: [([u8; 13], Sign); 2] = [
    (*b"__attribute__", Sign::Attribute),
    (*b"PT_GUARDED_BY", Sign::LeftOutMacro),
];

const OF_FOURTEEN: [([u8; 14], Sign); 3] = [
    (*b"ACQUIRE_SHARED", Sign::Macro(AttrKind::AcquireShared)),
    (*b"RELEASE_SHARED", Sign::Macro(AttrKind::ReleaseShared)),
    (*b"ACQUIRED_AFTER", Sign::Macro(AttrKind::AcquiredAfter)),
];

const OF_FIFTEEN: [([u8; 15], Sign); 3] = [
    (*b"REQUIRES_SHARED", Sign::Macro(AttrKind::RequiresShared)),
    (*b"RELEASE_GENERIC", Sign::Macro(AttrKind::ReleaseGeneric)),
    (*b"ACQUIRED_BEFORE", Sign::Macro(AttrKind::AcquiredBefore)),
];

const OF_SEVENTEEN: [([u8; 17], Sign); 3] = [
    (*b"RETURN_CAPABILITY", Sign::LeftOutMacro),
    (*b"ASSERT_CAPABILITY", Sign::LeftOutMacro),
    (*b"SCOPED_CAPABILITY", Sign::LeftOutMacro),
];

const OF_EIGHTEEN: [([u8; 18], Sign); 1] = [(
    *b"TRY_ACQUIRE_SHARED",
    Sign::Macro(AttrKind::TryAcquireShared),
)];

const OF_TWENTY_FOUR: [([u8; 24], Sign); 1] = [(*b"ASSERT_SHARED_CAPABILITY", Sign::LeftOutMacro)];

const OF_TWENTY_FIVE: [([u8; 25], Sign); 1] = [(*b"NO_THREAD_SAFETY_ANALYSIS", Sign::LeftOutMacro)];

/// What a reserved word means, where it means anything.
#[tactic(auto, using(crate::proofs::WordRows::of_two, crate::proofs::WordRows::of_three, crate::proofs::WordRows::of_four, crate::proofs::WordRows::of_five, crate::proofs::WordRows::of_six, crate::proofs::WordRows::of_seven, crate::proofs::WordRows::of_eight, crate::proofs::WordRows::of_ten, crate::proofs::WordRows::of_eleven, crate::proofs::WordRows::of_thirteen, crate::proofs::WordRows::of_fourteen, crate::proofs::WordRows::of_fifteen, crate::proofs::WordRows::of_seventeen, crate::proofs::WordRows::of_eighteen, crate::proofs::WordRows::of_twenty_four, crate::proofs::WordRows::of_twenty_five, crate::proofs::WordRows::of_no_length))]
pub fn reserved_sign(text: &[u8]) -> Option<Sign>
    ensures { result ≡ listed word_signs text.now }
{
    match text.len() {
        2 => look_up(text, &OF_TWO),
        3 => look_up(text, &OF_THREE),
        4 => look_up(text, &OF_FOUR),
        5 => look_up(text, &OF_FIVE),
        6 => look_up(text, &OF_SIX),
        7 => look_up(text, &OF_SEVEN),
        8 => look_up(text, &OF_EIGHT),
        10 => look_up(text, &OF_TEN),
        11 => look_up(text, &OF_ELEVEN),
        13 => look_up(text, &OF_THIRTEEN),
        14 => look_up(text, &OF_FOURTEEN),
        15 => look_up(text, &OF_FIFTEEN),
        17 => look_up(text, &OF_SEVENTEEN),
        18 => look_up(text, &OF_EIGHTEEN),
        24 => look_up(text, &OF_TWENTY_FOUR),
        25 => look_up(text, &OF_TWENTY_FIVE),
        _ => None,
    }
}
