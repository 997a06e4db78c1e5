//! What the kinds of types are (C11 6.2.5).
ghost use Rattle.std.specs.Prelude.{◌≡◌};
ghost use Rattle.tsa_tree.specs.types.Operands.{integer_kind, unsigned_kind, pointer_kind, target_of as spec_target_of};
ghost use Rattle.tsa_tree.specs.types.Operands.{structure_of as spec_structure_of, same_target, keeps_const as spec_keeps};

use tsa_tree::kind::Kind;

/// Whether it is `int` or `unsigned`, the integer types of the language (C11 6.2.5p17).
pub fn is_integer_kind(kind: Kind) -> bool
    ensures { result ≡ integer_kind kind }
{
    matches!(kind, Kind::Int | Kind::Unsigned)
}

/// Whether it is `unsigned` (C11 6.2.5p6).
pub fn is_unsigned_kind(kind: Kind) -> bool
    ensures { result ≡ unsigned_kind kind }
{
    matches!(kind, Kind::Unsigned)
}

/// Whether it is a pointer to a struct, or the kind of `NULL` (C11 6.2.5p20).
pub fn is_pointer_kind(kind: Kind) -> bool
    ensures { result ≡ pointer_kind kind }
{
    matches!(kind, Kind::Pointer { .. } | Kind::Null)
}

/// The number of the struct that a pointer's target is; `NULL` has none.
pub fn target_of(kind: Kind) -> Option<u32>
    ensures { result ≡ spec_target_of kind }
{
    match kind {
        Kind::Pointer { target, .. } => Some(target),
        _ => None,
    }
}

/// The number of the struct that a thing is.
pub fn structure_of(kind: Kind) -> Option<u32>
    ensures { result ≡ spec_structure_of kind }
{
    match kind {
        Kind::Structure(number) => Some(number),
        _ => None,
    }
}

/// Whether two pointers may be compared: to the same struct, or one of them null (C11 6.5.9p2).
pub fn has_target_of(kind: Kind, other: Kind) -> bool
    ensures { result ≡ same_target kind other }
{
    match (kind, other) {
        (Kind::Null, Kind::Null | Kind::Pointer { .. }) => true,
        (Kind::Pointer { .. }, Kind::Null) => true,
        (Kind::Pointer { target: s, .. }, Kind::Pointer { target: t, .. }) => s == t,
        _ => false,
    }
}

/// Whether `const` of the first one's target isn't dropped where it goes to the other (C11 6.5.16.1p1).
pub fn keeps_const(kind: Kind, other: Kind) -> bool
    ensures { result ≡ spec_keeps kind other }
{
    match (kind, other) {
        (
            Kind::Pointer { to_const, .. },
            Kind::Pointer {
                to_const: into_const,
                ..
            },
        ) => { into_const || !to_const }
        _ => true,
    }
}
