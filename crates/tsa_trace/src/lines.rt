//! The lines of events.
ghost use Rattle.std.specs.Prelude.{◌≡◌, ◌++◌, IfOk, OnOk};
ghost use Rattle.tsa_trace.specs.EventLines.{event_text, site_text, turn_text, violation_text};

use crate::tracer::Tracer;
use crate::values::put_number;
use std::alloc::Global;
use tsa_base::NoMemory;
use tsa_sched::{Event, Site};

/// Appends a turn and a thread: `TURN tN`.
#[tactic(auto, unfolding(crate::specs::EventLines::turn_text))]
fn put_turn(out: &mut Vec<u8>, turn: u32, thread: u32) -> Result<(), NoMemory>
    ensures { OnOk result (out.new.items ≡ out.old.items ++ turn_text turn thread) }
{
    put_number(out, turn)?;
    out.extend_from_slice(b" t")?;
    put_number(out, thread)
}

/// Appends the mark of a violation.
fn put_violation(out: &mut Vec<u8>, violation: bool) -> Result<(), NoMemory>
    ensures { OnOk result (out.new.items ≡ out.old.items ++ violation_text violation) }
{
    if violation {
        out.extend_from_slice(b" !")?;
    }
    Ok(())
}

impl Tracer<'_, '_> {
    /// Appends where an event was, where it has a point.
    fn put_site(&self, out: &mut Vec<u8>, site: Option<Site>) -> Result<(), NoMemory>
        ensures { OnOk result (out.new.items ≡ out.old.items ++ site_text self.now site) }
    {
        match site {
            Some(site) => {
                out.extend_from_slice(b" ")?;
                self.put_point(out, site)
            }
            None => Ok(()),
        }
    }

    /// Appends the line of an event of a turn, without a line end. It takes no memory but the buffer's.
    #[tactic(auto, unfolding(crate::specs::EventLines::event_text))]
    pub fn put_line(&self, out: &mut Vec<u8>, turn: u32, event: &Event) -> Result<(), NoMemory>
        ensures { OnOk result (out.new.items ≡ out.old.items ++ event_text self.now turn event.now) }
    {
        put_turn(out, turn, event.thread)?;
        self.put_site(out, event.site)?;
        out.extend_from_slice(b" ")?;
        self.put_action(out, event.kind)?;
        put_violation(out, event.violation)
    }
}

/// The line of an event of a turn, without a line end.
pub fn event_line(
    alloc: Global,
    tracer: &Tracer<'_, '_>,
    turn: u32,
    event: &Event,
) -> Result<Vec<u8>, NoMemory>
    ensures { IfOk result (λ line. line.items ≡ event_text tracer.now turn event.now) }
{
    let mut line = Vec::new(alloc);
    tracer.put_line(&mut line, turn, event)?;
    Ok(line)
}
