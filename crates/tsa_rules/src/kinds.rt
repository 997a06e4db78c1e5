//! Sets of kinds of attributes.
ghost use Rattle.std.specs.Prelude.{◌≡◌};
ghost use Rattle.tsa_rules.specs.KindSets.{no_kinds, kind_number, has_kind, with_kind};

use tsa_tree::attr::AttrKind;

/// A set of kinds of attributes, by the bits of their numbers.
#[derive(Clone, Copy, Debug, PartialEq, Eq)]
pub struct Kinds {
    pub bits: u16,
}

/// The number of a kind.
fn number_of(kind: AttrKind) -> u32
    ensures { result ≡ kind_number kind }
{
    match kind {
        AttrKind::Capability => 0,
        AttrKind::GuardedBy => 1,
        AttrKind::Requires => 2,
        AttrKind::RequiresShared => 3,
        AttrKind::Acquire => 4,
        AttrKind::AcquireShared => 5,
        AttrKind::Release => 6,
        AttrKind::ReleaseShared => 7,
        AttrKind::ReleaseGeneric => 8,
        AttrKind::TryAcquire => 9,
        AttrKind::TryAcquireShared => 10,
        AttrKind::Excludes => 11,
        AttrKind::AcquiredBefore => 12,
        AttrKind::AcquiredAfter => 13,
    }
}

impl Kinds {
    /// No kinds.
    pub fn none() -> Kinds
        ensures { result ≡ no_kinds }
    {
        Kinds { bits: 0 }
    }

    /// Whether a kind is among them.
    #[tactic(auto, unfolding(crate::specs::KindSets::has_kind))]
    pub fn has(self, kind: AttrKind) -> bool
        ensures { result ≡ has_kind self kind }
    {
        self.bits >> number_of(kind) & 1 == 1
    }

    /// One more kind.
    #[tactic(auto, using(crate::proofs::KindBits::one_bit), unfolding(crate::specs::KindSets::with_kind))]
    pub fn with(self, kind: AttrKind) -> Kinds
        ensures { result ≡ with_kind self kind }
    {
        Kinds {
            bits: self.bits | 1 << number_of(kind),
        }
    }
}
