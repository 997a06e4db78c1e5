//! The lines of races.
ghost use Rattle.std.specs.Prelude.{◌≡◌, ◌++◌, IfOk, OnOk};
ghost use Rattle.tsa_trace.specs.RaceLines.{race_text, side_text, touch_text};

use crate::tracer::Tracer;
use crate::values::put_number;
use std::alloc::Global;
use tsa_base::NoMemory;
use tsa_sched::Touch;

/// A side of a race: a thread, and what its next turn touches.
#[derive(Clone, Copy)]
pub struct Side {
    pub thread: u32,
    pub touch: Touch,
}

/// Whether a cell is written or read.
fn touch_word(is_write: bool) -> &'static [u8]
    ensures { result.now ≡ touch_text is_write }
{
    if is_write { b" write" } else { b" read" }
}

impl Tracer<'_, '_> {
    /// Appends a side of a race: the thread, the point, and whether it reads or writes.
    #[tactic(auto, unfolding(crate::specs::RaceLines::side_text))]
    fn put_side(&self, out: &mut Vec<u8>, side: &Side) -> Result<(), NoMemory>
        ensures { OnOk result (out.new.items ≡ out.old.items ++ side_text self.now side.now.thread side.now.touch) }
    {
        out.extend_from_slice(b"t")?;
        put_number(out, side.thread)?;
        out.extend_from_slice(b" ")?;
        self.put_point(out, side.touch.site)?;
        out.extend_from_slice(touch_word(side.touch.is_write))?;
        Ok(())
    }

    /// Appends the line of a race, without a line end. It takes no memory but the buffer's.
    #[tactic(auto, unfolding(crate::specs::RaceLines::race_text))]
    pub fn put_race(&self, out: &mut Vec<u8>, one: &Side, other: &Side) -> Result<(), NoMemory>
        ensures { OnOk result (out.new.items ≡ out.old.items ++ race_text self.now one.now.thread one.now.touch other.now.thread
            other.now.touch) }
    {
        out.extend_from_slice(b"race ")?;
        self.put_place(out, one.touch.place)?;
        out.extend_from_slice(b": ")?;
        self.put_side(out, one)?;
        out.extend_from_slice(b", ")?;
        self.put_side(out, other)
    }
}

/// The line of a race, without a line end.
pub fn race_line(
    alloc: Global,
    tracer: &Tracer<'_, '_>,
    one: &Side,
    other: &Side,
) -> Result<Vec<u8>, NoMemory>
    ensures { IfOk result (λ line. line.items ≡ race_text tracer.now one.now.thread one.now.touch other.now.thread other.now.touch) }
{
    let mut line = Vec::new(alloc);
    tracer.put_race(&mut line, one, other)?;
    Ok(line)
}
