//! Which points are in a run already, and where points lead.
ghost use Rattle.std.specs.Prelude.{◌≡◌, true, slice_set};
ghost use Rattle.tsa_graph.specs.Runs.{step as spec_step};
ghost use Rattle.tsa_graph.specs.Tracing.{is_seen as spec_is_seen};

/// Where a point leads.
pub fn step(ways: &[Option<u32>], point: u32) -> Option<u32>
    ensures { result ≡ spec_step ways.now point }
{
    let number = point as usize;
    if number < ways.len() {
        ways[number]
    } else {
        None
    }
}

/// Whether a point is in a run already.
pub fn is_seen(seen: &[bool], point: u32) -> bool
    ensures { result ≡ spec_is_seen seen.now point }
{
    let number = point as usize;
    number < seen.len() && seen[number]
}

/// A point is in a run.
pub fn mark(seen: &mut Vec<bool>, point: u32)
    ensures { seen.new.items ≡ slice_set seen.old.items point true }
{
    if let Some(slot) = seen.get_mut(point as usize) {
        *slot = true;
    }
}
