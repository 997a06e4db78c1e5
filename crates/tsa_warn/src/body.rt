//! Where the points of a body stand.
ghost use Rattle.std.specs.Prelude.{◌≡◌, ◌++◌, map, OnOk};
ghost use Rattle.tsa_warn.specs.Lines.{place_of, point_byte as byte_of};
ghost use Rattle.tsa_tree.specs.statements.Shapes.{point_shape};

use tsa_base::{LineStarts, NoMemory};
use tsa_tree::item::FnTree;

/// The byte at which a point stands; 0 for one that isn't there.
fn point_byte(head: &FnTree<'_>, point: u32) -> u32
    ensures { result ≡ byte_of (map point_shape head.now.points.now) point }
{
    match head.points.get(point as usize) {
        Some(at) => at.span.from,
        None => 0,
    }
}

/// Appends the place of a point: `L:C: `.
#[tactic(auto, unfolding(crate::specs::Lines::place_of))]
pub fn push_place(
    text: &mut Vec<u8>,
    starts: &LineStarts<'_>,
    head: &FnTree<'_>,
    point: u32,
) -> Result<(), NoMemory>
    ensures { OnOk result (text.new.items ≡ text.old.items ++ place_of starts.now (map point_shape head.now.points.now) point) }
{
    starts.place(point_byte(head, point)).append_to(text)
}
