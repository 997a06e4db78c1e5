//! Words that are no names, by their lengths (C11 6.4.1).
ghost use Rattle.std.specs.Prelude.{◌≡◌, true, length};
ghost use Rattle.std.specs.List.{list_any};
ghost use Rattle.std.specs.Str.{bytes_eq};
ghost use Rattle.tsa_base.specs.Words.{is_reserved};

const OF_TWO: [[u8; 2]; 2] = [*b"do", *b"if"];

const OF_THREE: [[u8; 3]; 2] = [*b"for", *b"int"];

const OF_FOUR: [[u8; 4]; 9] = [
    *b"auto", *b"case", *b"char", *b"else", *b"enum", *b"goto", *b"long", *b"void", *b"NULL",
];

const OF_FIVE: [[u8; 5]; 7] = [
    *b"break", *b"const", *b"float", *b"short", *b"union", *b"while", *b"_Bool",
];

const OF_SIX: [[u8; 6]; 9] = [
    *b"double", *b"extern", *b"inline", *b"return", *b"signed", *b"sizeof", *b"static", *b"struct",
    *b"switch",
];

const OF_SEVEN: [[u8; 7]; 5] = [
    *b"default",
    *b"typedef",
    *b"_Atomic",
    *b"ACQUIRE",
    *b"RELEASE",
];

const OF_EIGHT: [[u8; 8]; 11] = [
    *b"continue",
    *b"register",
    *b"restrict",
    *b"unsigned",
    *b"volatile",
    *b"_Alignas",
    *b"_Alignof",
    *b"_Complex",
    *b"_Generic",
    *b"REQUIRES",
    *b"EXCLUDES",
];

const OF_NINE: [[u8; 9]; 1] = [*b"_Noreturn"];

const OF_TEN: [[u8; 10]; 3] = [*b"_Imaginary", *b"CAPABILITY", *b"GUARDED_BY"];

const OF_ELEVEN: [[u8; 11]; 1] = [*b"TRY_ACQUIRE"];

const OF_THIRTEEN: [[u8; 13]; 3] = [*b"_Thread_local", *b"PT_GUARDED_BY", *b"__attribute__"];

const OF_FOURTEEN: [[u8; 14]; 4] = [
    *b"_Static_assert",
    *b"ACQUIRE_SHARED",
    *b"RELEASE_SHARED",
    *b"ACQUIRED_AFTER",
];

const OF_FIFTEEN: [[u8; 15]; 3] = [
    *b"REQUIRES_SHARED",
    *b"RELEASE_GENERIC",
    *b"ACQUIRED_BEFORE",
];

const OF_SEVENTEEN: [[u8; 17]; 3] = [
    *b"RETURN_CAPABILITY",
    *b"ASSERT_CAPABILITY",
    *b"SCOPED_CAPABILITY",
];

const OF_EIGHTEEN: [[u8; 18]; 1] = [*b"TRY_ACQUIRE_SHARED"];

const OF_TWENTY_FOUR: [[u8; 24]; 1] = [*b"ASSERT_SHARED_CAPABILITY"];

const OF_TWENTY_FIVE: [[u8; 25]; 1] = [*b"NO_THREAD_SAFETY_ANALYSIS"];

/// The word is a keyword of C11, a macro word of attributes, `NULL` or `__attribute__`.
#[tactic(auto, using(crate::proofs::Words::of_two, crate::proofs::Words::of_three, crate::proofs::Words::of_four, crate::proofs::Words::of_five, crate::proofs::Words::of_six, crate::proofs::Words::of_seven, crate::proofs::Words::of_eight, crate::proofs::Words::of_nine, crate::proofs::Words::of_ten, crate::proofs::Words::of_eleven, crate::proofs::Words::of_thirteen, crate::proofs::Words::of_fourteen, crate::proofs::Words::of_fifteen, crate::proofs::Words::of_seventeen, crate::proofs::Words::of_eighteen, crate::proofs::Words::of_twenty_four, crate::proofs::Words::of_twenty_five, crate::proofs::Words::of_no_length))]
pub fn is_reserved(text: &[u8]) -> bool
    ensures { result ≡ is_reserved text.now }
{
    match text.len() {
        2 => is_one_of(text, &OF_TWO),
        3 => is_one_of(text, &OF_THREE),
        4 => is_one_of(text, &OF_FOUR),
        5 => is_one_of(text, &OF_FIVE),
        6 => is_one_of(text, &OF_SIX),
        7 => is_one_of(text, &OF_SEVEN),
        8 => is_one_of(text, &OF_EIGHT),
        9 => is_one_of(text, &OF_NINE),
        10 => is_one_of(text, &OF_TEN),
        11 => is_one_of(text, &OF_ELEVEN),
        13 => is_one_of(text, &OF_THIRTEEN),
        14 => is_one_of(text, &OF_FOURTEEN),
        15 => is_one_of(text, &OF_FIFTEEN),
        17 => is_one_of(text, &OF_SEVENTEEN),
        18 => is_one_of(text, &OF_EIGHTEEN),
        24 => is_one_of(text, &OF_TWENTY_FOUR),
        25 => is_one_of(text, &OF_TWENTY_FIVE),
        _ => false,
    }
}

// Whether two texts can be the same by their first bytes.
fn begin_alike(text: &[u8], word: &[u8]) -> bool
    ensures { bytes_eq text.now word.now ≡ true → result ≡ true }
{
    match (text, word) {
        ([first, ..], [other, ..]) => first == other,
        _ => true,
    }
}

fn is_one_of<const N: usize>(text: &[u8], words: &[[u8; N]]) -> bool
    ensures { result ≡ list_any (bytes_eq text.now) words.now }
{
    words.iter().any(
        |word| -> bool
            ensures { result ≡ bytes_eq text.entry.now word.now }
        { begin_alike(text, word.as_slice()) && text == word.as_slice() },
    )
}
