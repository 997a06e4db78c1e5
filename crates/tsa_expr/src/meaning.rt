//! What a word means in a list of attributes, by its length.
ghost use Rattle.std.specs.Prelude.{◌≡◌};
ghost use Rattle.tsa_tree.specs.tokens.Signs.{listed as spec_listed, attribute_names, bare_name as spec_bare, meaning_of as spec_meaning};

use crate::table::look_up;
use tsa_tree::attr::AttrKind;
use tsa_tree::sign::Meaning;

const OF_EIGHT: [([u8; 8], Meaning); 1] = [(*b"lockable", Meaning::LeftOut)];

const OF_TEN: [([u8; 10], Meaning); 2] = [
    (*b"capability", Meaning::Known(AttrKind::Capability)),
    (*b"guarded_by", Meaning::Known(AttrKind::GuardedBy)),
];

const OF_ELEVEN: [([u8; 11], Meaning); 1] = [(*b"guarded_var", Meaning::LeftOut)];

const OF_THIRTEEN: [([u8; 13], Meaning); 2] = [
    (*b"pt_guarded_by", Meaning::LeftOut),
    (*b"lock_returned", Meaning::LeftOut),
];

const OF_FOURTEEN: [([u8; 14], Meaning); 3] = [
    (*b"locks_excluded", Meaning::Known(AttrKind::Excludes)),
    (*b"acquired_after", Meaning::Known(AttrKind::AcquiredAfter)),
    (*b"pt_guarded_var", Meaning::LeftOut),
];

const OF_FIFTEEN: [([u8; 15], Meaning); 3] = [
    (
        *b"acquired_before",
        Meaning::Known(AttrKind::AcquiredBefore),
    ),
    (*b"scoped_lockable", Meaning::LeftOut),
    (*b"unlock_function", Meaning::LeftOut),
];

const OF_SEVENTEEN: [([u8; 17], Meaning); 1] = [(*b"assert_capability", Meaning::LeftOut)];

const OF_EIGHTEEN: [([u8; 18], Meaning); 3] = [
    (*b"acquire_capability", Meaning::Known(AttrKind::Acquire)),
    (*b"release_capability", Meaning::Known(AttrKind::Release)),
    (*b"assert_shared_lock", Meaning::LeftOut),
];

const OF_NINETEEN: [([u8; 19], Meaning); 1] = [(
    *b"requires_capability",
    Meaning::Known(AttrKind::Requires),
)];

const OF_TWENTY: [([u8; 20], Meaning); 1] = [(*b"shared_lock_function", Meaning::LeftOut)];

const OF_TWENTY_ONE: [([u8; 21], Meaning); 2] = [
    (*b"shared_locks_required", Meaning::LeftOut),
    (*b"assert_exclusive_lock", Meaning::LeftOut),
];

const OF_TWENTY_TWO: [([u8; 22], Meaning); 1] = [(
    *b"try_acquire_capability",
    Meaning::Known(AttrKind::TryAcquire),
)];

const OF_TWENTY_THREE: [([u8; 23], Meaning); 2] = [
    (*b"exclusive_lock_function", Meaning::LeftOut),
    (*b"shared_trylock_function", Meaning::LeftOut),
];

const OF_TWENTY_FOUR: [([u8; 24], Meaning); 2] = [
    (*b"assert_shared_capability", Meaning::LeftOut),
    (*b"exclusive_locks_required", Meaning::LeftOut),
];

const OF_TWENTY_FIVE: [([u8; 25], Meaning); 3] = [
    (
        *b"acquire_shared_capability",
        Meaning::Known(AttrKind::AcquireShared),
    ),
    (
        *b"release_shared_capability",
        Meaning::Known(AttrKind::ReleaseShared),
    ),
    (*b"no_thread_safety_analysis", Meaning::LeftOut),
];

const OF_TWENTY_SIX: [([u8; 26], Meaning); 3] = [
    (
        *b"requires_shared_capability",
        Meaning::Known(AttrKind::RequiresShared),
    ),
    (
        *b"release_generic_capability",
        Meaning::Known(AttrKind::ReleaseGeneric),
    ),
    (*b"exclusive_trylock_function", Meaning::LeftOut),
];

const OF_TWENTY_NINE: [([u8; 29], Meaning); 1] = [(
    *b"try_acquire_shared_capability",
    Meaning::Known(AttrKind::TryAcquireShared),
)];

/// What a word means in a list of attributes. Two underscores before it and after it make no difference.
#[tactic(auto, unfolding(tsa_tree::specs::tokens::Signs::meaning_of))]
pub fn meaning_of(text: &[u8]) -> Meaning
    ensures { result ≡ spec_meaning text.now }
{
    match named_meaning(bare_name(text)) {
        Some(meaning) => meaning,
        None => Meaning::Ignored,
    }
}

/// What a name of an attribute means, where it is listed.
#[tactic(auto, using(crate::proofs::AttributeRows::of_eight, crate::proofs::AttributeRows::of_ten, crate::proofs::AttributeRows::of_eleven, crate::proofs::AttributeRows::of_thirteen, crate::proofs::AttributeRows::of_fourteen, crate::proofs::AttributeRows::of_fifteen, crate::proofs::AttributeRows::of_seventeen, crate::proofs::AttributeRows::of_eighteen, crate::proofs::AttributeRows::of_nineteen, crate::proofs::AttributeRows::of_twenty, crate::proofs::AttributeRows::of_twenty_one, crate::proofs::AttributeRows::of_twenty_two, crate::proofs::AttributeRows::of_twenty_three, crate::proofs::AttributeRows::of_twenty_four, crate::proofs::AttributeRows::of_twenty_five, crate::proofs::AttributeRows::of_twenty_six, crate::proofs::AttributeRows::of_twenty_nine, crate::proofs::AttributeRows::of_no_length))]
fn named_meaning(text: &[u8]) -> Option<Meaning>
    ensures { result ≡ spec_listed attribute_names text.now }
{
    match text.len() {
        8 => look_up(text, &OF_EIGHT),
        10 => look_up(text, &OF_TEN),
        11 => look_up(text, &OF_ELEVEN),
        13 => look_up(text, &OF_THIRTEEN),
        14 => look_up(text, &OF_FOURTEEN),
        15 => look_up(text, &OF_FIFTEEN),
        17 => look_up(text, &OF_SEVENTEEN),
        18 => look_up(text, &OF_EIGHTEEN),
        19 => look_up(text, &OF_NINETEEN),
        20 => look_up(text, &OF_TWENTY),
        21 => look_up(text, &OF_TWENTY_ONE),
        22 => look_up(text, &OF_TWENTY_TWO),
        23 => look_up(text, &OF_TWENTY_THREE),
        24 => look_up(text, &OF_TWENTY_FOUR),
        25 => look_up(text, &OF_TWENTY_FIVE),
        26 => look_up(text, &OF_TWENTY_SIX),
        29 => look_up(text, &OF_TWENTY_NINE),
        _ => None,
    }
}

/// The name without the two underscores that it begins and ends with.
#[tactic(auto, unfolding(tsa_tree::specs::tokens::Signs::bare_name))]
fn bare_name(text: &[u8]) -> &[u8]
    ensures { result.now ≡ spec_bare text.now }
{
    if text.len() >= 4 && text.starts_with(b"__") && text.ends_with(b"__") {
        &text[2..text.len() - 2]
    } else {
        text
    }
}
