//! Names with the structs to which they lead.
ghost use Rattle.std.specs.Prelude.{◌≡◌};
ghost use Rattle.tsa_path.specs.Labels.{label};
ghost use Rattle.tsa_path.specs.WrittenLocks.{struct_in};
ghost use Rattle.tsa_rules.specs.Legends as legends;

use tsa_path::Named;
use tsa_place_layout::Part;
use tsa_tree::kind::Kind;

/// The struct that a kind is, or to which it points.
fn structure_of(kind: Kind) -> Option<u32>
    ensures { result ≡ struct_in kind }
{
    match kind {
        Kind::Structure(number) => Some(number),
        Kind::Pointer { target, .. } => Some(target),
        _ => None,
    }
}

/// What a thing of a kind is named, with the struct that it is or points to.
pub fn label_of(name: &[u8], kind: Kind) -> Named<'_>
    ensures { label result ≡ legends.label name.now kind }
{
    Named {
        name,
        structure: structure_of(kind),
    }
}

/// What a member or a global is named.
pub fn label_of_part(part: &Part) -> Named<'_>
    ensures { label result ≡ legends.part_label part.now }
{
    label_of(&part.name, part.thing.kind)
}
