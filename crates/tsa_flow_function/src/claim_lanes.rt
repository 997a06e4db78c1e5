//! The lanes that something claims or tries at the points of a body, where each lane is that of a path.
ghost use Rattle.std.specs.Prelude.{◌≡◌, ◌-◌, ℕ, Some, length, slice_get, IfOk, OnOk, IsFalse, IsTrue};
ghost use Rattle.tsa_flow_function.specs.ClaimLanes.{AreLanesAt, HasLane, HaveLanes, IsOpen};

use crate::claims::Claims;
use std::alloc::Global;
use tsa_base::NoMemory;

/// Whether a lane is the last one of a list.
fn ends_with(list: &[u32], lane: u32) -> bool
    ensures yes { IsTrue result → slice_get list.now (length list.now - 1) ≡ Some lane }
    ensures no { IsFalse result → slice_get list.now (length list.now - 1) ≡ Some lane → ⊥ }
{
    match list.last() {
        Some(last) => *last == lane,
        None => false,
    }
}

/// Puts a lane behind those of a point, where it isn't the last one.
fn put_lane(lists: &mut Claims, point: u32, lane: u32) -> Result<(), NoMemory>
    ensures { OnOk result (IsOpen lane lists.old → HasLane point lane lists.old lists.new) }
{
    if ends_with(lists.at(point), lane) {
        return Ok(());
    }
    lists.note(point, lane)
}

/// Puts a lane behind those of some points.
fn put_lanes(lists: &mut Claims, points: &[u32], lane: u32) -> Result<(), NoMemory>
    ensures { OnOk result (IsOpen lane lists.old → HaveLanes points.now lane lists.old lists.new) }
{
    'points: for point in points {
        put_lane(lists, *point, lane)?;
    }
    Ok(())
}

/// How many there are, as a number of 32 bits.
pub fn count_of(list: &[u32]) -> Result<u32, NoMemory>
    ensures { IfOk result (λ count. count ≡ length list.now) }
{
    u32::try_from(list.len()).ok().ok_or(NoMemory)
}

/// The lanes of each of so many points, in order, by the points of each path and by the paths of lanes.
pub fn lanes_at(
    alloc: Global,
    points: u32,
    claims: &Claims,
    caps: &[u32],
) -> Result<Claims, NoMemory>
    ensures { IfOk result (λ lists. AreLanesAt points claims.now caps.now lists) }
{
    let count = count_of(caps)?;
    let mut lists = Claims::new(alloc, points)?;
    'lanes: for lane in 0..count {
        let cap = caps[lane as usize];
        put_lanes(&mut lists, claims.at(cap), lane)?;
    }
    Ok(lists)
}
