//! The lines of the held sets of a unit.
ghost use Rattle.std.specs.Prelude.{◌≡◌, ◌≤◌, ◌<◌, ◌++◌, ℕ, [], List, Ok, length, OnOk, OnErr, IsErrOf};
ghost use Rattle.std.specs.Io.KnownBytes.{Appends};
ghost use Rattle.tsa_base.specs.Causes.{Rose};
ghost use Rattle.tsa_base.specs.Transfer.{AppendsFront};
ghost use Rattle.tsa_warn.specs.Bodies.{BodyText, IsToldBody};
ghost use Rattle.tsa_warn.specs.BodyCourses.{course_of};
ghost use Rattle.tsa_warn.specs.Courses.{course_outset};
ghost use Rattle.tsa_place_model.specs.Units.{placed_in};
ghost use Rattle.tsa_warn.specs.Units.{unit_of};
ghost use Rattle.tsa_tool_held.specs.Held.{Account, IsAccountHeld, IsBodyHeld, IsHeld, IsPathLine, IsPointText, paths_in};
ghost use Rattle.tsa_tool_held.specs.Pages.{IsPageOf};
ghost use Rattle.tsa_tree.specs.units.Shapes.{HaveTheirPoints, item_shapes};
ghost use Rattle.tsa_tree.specs.units.Syntax.{UnitItem};

use crate::refusal::WriteRefusal;
use crate::tries::try_names;
use std::alloc::Global;
use tsa_base::{LineStarts, NoMemory, PushTrouble, Sink, write_all};
use tsa_place::Places;
use tsa_warn::{Course, Fit, Ready, Teller, ToldBody, UnitTables, push_place};
use tsa_warn_text::{Held, push_held};

/// A body whose held sets are written: what is told of it, its paths in the order in which they are told, the names of its try variables,
/// and where lines begin.
#[derive(Clone, Copy)]
struct Page<'b, 's, 't, 'a> {
    body: &'b ToldBody<'a>,
    order: &'b [u32],
    tries: &'t [&'a [u8]],
    starts: &'s LineStarts<'s>,
}

impl<'b, 's, 't, 'a> Page<'b, 's, 't, 'a> {
    /// Appends the line of a path at a point, where some walk leads there.
    fn push_path(&self, text: &mut Vec<u8>, point: u32, cap: u32) -> Result<(), NoMemory>
        ensures { OnOk result ((a : Account) → IsPageOf a self.now → point < length a.body.points → cap < length (paths_in a)
            → (line : List ℕ) × (IsPathLine self.now.starts.now a point cap line × (text.new.items ≡ text.old.items ++ line))) }
    {
        let set = self.body.flow.statuses(point, cap);
        if set.bits == 0 {
            return Ok(());
        }
        let head = self.body.head;
        push_place(text, self.starts, head, point)?;
        let held = Held {
            function: head.name.text,
            path: self.body.texts.text(cap),
            set,
        };
        push_held(text, held, self.tries)?;
        text.extend_from_slice(b"\n")?;
        Ok(())
    }

    /// Appends the lines of a point.
    fn push_point(&self, text: &mut Vec<u8>, point: u32) -> Result<(), NoMemory>
        ensures { OnOk result ((a : Account) → IsPageOf a self.now → point < length a.body.points
            → (lines : List ℕ) × (IsPointText self.now.starts.now a self.now.order.now point lines × (text.new.items ≡ text.old.items ++ lines))) }
    {
        'each: for cap in self.order {
            self.push_path(text, point, *cap)?;
        }
        Ok(())
    }

    /// Writes the lines of a point.
    fn write_point<O: Sink>(
        &self,
        alloc: Global,
        point: u32,
        out: &mut O,
    ) -> Result<(), WriteRefusal>
        ensures all { OnOk result ((a : Account) → IsPageOf a self.now → point < length a.body.points
            → (lines : List ℕ) × (IsPointText self.now.starts.now a self.now.order.now point lines × Appends (O.taken out.old) (O.taken out.new) lines)) }
        ensures front { OnErr result ((a : Account) → IsPageOf a self.now → point < length a.body.points
            → (lines : List ℕ) → IsPointText self.now.starts.now a self.now.order.now point lines → AppendsFront (O.taken out.old) (O.taken out.new) lines) }
        ensures fault { IsErrOf result WriteRefusal.SinkFailed → Rose (O.faults out.old) (O.faults out.new) }
        ensures later { O.faults out.old ≤ O.faults out.new }
    {
        let mut text = Vec::new(alloc);
        self.push_point(&mut text, point)?;
        match write_all(out, &text) {
            Ok(()) => Ok(()),
            Err(PushTrouble::Failed) => Err(WriteRefusal::SinkFailed),
            Err(PushTrouble::NoMemory) => Err(WriteRefusal::NoMemory),
        }
    }

    /// Writes the lines of all points.
    fn write<O: Sink>(&self, alloc: Global, out: &mut O) -> Result<(), WriteRefusal>
        ensures all { OnOk result ((a : Account) → IsPageOf a self.now
            → (lines : List ℕ) × (IsAccountHeld self.now.starts.now a lines × Appends (O.taken out.old) (O.taken out.new) lines)) }
        ensures front { OnErr result ((a : Account) → IsPageOf a self.now
            → (lines : List ℕ) → IsAccountHeld self.now.starts.now a lines → AppendsFront (O.taken out.old) (O.taken out.new) lines) }
        ensures fault { IsErrOf result WriteRefusal.SinkFailed → Rose (O.faults out.old) (O.faults out.new) }
        ensures later { O.faults out.old ≤ O.faults out.new }
    {
        'each: for point in 0..self.body.flow.view().marks().rows() {
            self.write_point(alloc, point, out)?;
        }
        Ok(())
    }
}

/// Writes the lines of a body's held sets.
fn write_body<'s, O: Sink>(
    alloc: Global,
    starts: &'s LineStarts<'s>,
    body: &ToldBody<'_>,
    out: &mut O,
) -> Result<(), WriteRefusal>
    ensures all { OnOk result ((items : List UnitItem) (b : BodyText) → IsToldBody items b body.now
        → (lines : List ℕ) × (IsBodyHeld starts.now items b lines × Appends (O.taken out.old) (O.taken out.new) lines)) }
    ensures front { OnErr result ((items : List UnitItem) (b : BodyText) → IsToldBody items b body.now
        → (lines : List ℕ) → IsBodyHeld starts.now items b lines → AppendsFront (O.taken out.old) (O.taken out.new) lines) }
    ensures fault { IsErrOf result WriteRefusal.SinkFailed → Rose (O.faults out.old) (O.faults out.new) }
    ensures later { O.faults out.old ≤ O.faults out.new }
{
    let tries = try_names(alloc, body)?;
    let page = Page {
        body,
        order: body.texts.order(),
        tries: &tries,
        starts,
    };
    page.write(alloc, out)
}

/// What lines are written with: memory, and where the lines of the text begin.
#[derive(Clone, Copy)]
struct Desk<'s> {
    alloc: Global,
    starts: &'s LineStarts<'s>,
}

/// Writes the lines of the held sets of all bodies of a unit, item by item. The course is that in front of the first item.
fn write_bodies<'s, 'a, O: Sink>(
    desk: Desk<'s>,
    teller: &Teller<'_, 'a>,
    course: &mut Course<'a>,
    out: &mut O,
) -> Result<(), WriteRefusal>
    requires begun { course_of course.old ≡ course_outset (unit_of [] (item_shapes teller.now.pass.ground.items.now)) }
    requires points { HaveTheirPoints teller.now.pass.ground.items.now }
    ensures all { OnOk result ((lines : List ℕ)
        × (IsHeld desk.entry.starts.now (item_shapes teller.now.pass.ground.items.now) lines
        × Appends (O.taken out.old) (O.taken out.new) lines)) }
    ensures front { OnErr result ((lines : List ℕ) → IsHeld desk.entry.starts.now (item_shapes teller.now.pass.ground.items.now) lines
        → AppendsFront (O.taken out.old) (O.taken out.new) lines) }
    ensures fault { IsErrOf result WriteRefusal.SinkFailed → Rose (O.faults out.old) (O.faults out.new) }
    ensures later { O.faults out.old ≤ O.faults out.new }
{
    'each: for item in teller.pass.ground.items {
        if let Some(body) = teller.item(course, item)? {
            write_body(desk.alloc, desk.starts, &body, out)?;
        }
    }
    Ok(())
}

/// Writes the lines of the held sets of the bodies that a teller tells, item by item.
fn write_told<'s, O: Sink>(
    desk: Desk<'s>,
    teller: &Teller<'_, '_>,
    out: &mut O,
) -> Result<(), WriteRefusal>
    requires { HaveTheirPoints teller.now.pass.ground.items.now }
    ensures all { OnOk result ((lines : List ℕ)
        × (IsHeld desk.entry.starts.now (item_shapes teller.now.pass.ground.items.now) lines
        × Appends (O.taken out.old) (O.taken out.new) lines)) }
    ensures front { OnErr result ((lines : List ℕ) → IsHeld desk.entry.starts.now (item_shapes teller.now.pass.ground.items.now) lines
        → AppendsFront (O.taken out.old) (O.taken out.new) lines) }
    ensures fault { IsErrOf result WriteRefusal.SinkFailed → Rose (O.faults out.old) (O.faults out.new) }
    ensures later { O.faults out.old ≤ O.faults out.new }
{
    let mut course = Course::new(desk.alloc, &teller.pass.ground)?;
    write_bodies(desk, teller, &mut course, out)
}

/// Writes the lines of the held sets of a unit in the profile by its tables.
fn write_by<'s, 'a, O: Sink>(
    desk: Desk<'s>,
    fit: &Fit<'a>,
    tables: &UnitTables<'_, 'a>,
    out: &mut O,
) -> Result<(), WriteRefusal>
    requires same { fit.now.typed.unit.now.items ≡ tables.now.items }
    requires points { HaveTheirPoints fit.now.typed.unit.now.items.now }
    ensures all { OnOk result ((lines : List ℕ)
        × (IsHeld desk.entry.starts.now (item_shapes fit.now.typed.unit.now.items.now) lines
        × Appends (O.taken out.old) (O.taken out.new) lines)) }
    ensures front { OnErr result ((lines : List ℕ) → IsHeld desk.entry.starts.now (item_shapes fit.now.typed.unit.now.items.now) lines
        → AppendsFront (O.taken out.old) (O.taken out.new) lines) }
    ensures fault { IsErrOf result WriteRefusal.SinkFailed → Rose (O.faults out.old) (O.faults out.new) }
    ensures later { O.faults out.old ≤ O.faults out.new }
{
    let teller = Teller {
        pass: tables.pass(fit),
    };
    write_told(desk, &teller, out)
}

/// Writes the lines of the held sets of a unit in the profile. The places are those of the unit.
fn write_of<'s, O: Sink>(
    desk: Desk<'s>,
    fit: &Fit<'_>,
    places: &Places,
    out: &mut O,
) -> Result<(), WriteRefusal>
    requires placed { placed_in (item_shapes fit.now.typed.unit.now.items.now) ≡ Ok places.now }
    requires points { HaveTheirPoints fit.now.typed.unit.now.items.now }
    ensures all { OnOk result ((lines : List ℕ)
        × (IsHeld desk.entry.starts.now (item_shapes fit.now.typed.unit.now.items.now) lines
        × Appends (O.taken out.old) (O.taken out.new) lines)) }
    ensures front { OnErr result ((lines : List ℕ) → IsHeld desk.entry.starts.now (item_shapes fit.now.typed.unit.now.items.now) lines
        → AppendsFront (O.taken out.old) (O.taken out.new) lines) }
    ensures fault { IsErrOf result WriteRefusal.SinkFailed → Rose (O.faults out.old) (O.faults out.new) }
    ensures later { O.faults out.old ≤ O.faults out.new }
{
    let tables = UnitTables::new(desk.alloc, fit, places)?;
    write_by(desk, fit, &tables, out)
}

/// Writes the lines of the held sets of a unit in the profile, body by body as they are worked out. After a refusal a first part of them is
/// written.
pub fn write_held<O: Sink>(
    alloc: Global,
    ready: &Ready<'_>,
    bytes: &[u8],
    out: &mut O,
) -> Result<(), WriteRefusal>
    requires { HaveTheirPoints ready.now.fit.typed.unit.now.items.now }
    ensures all { OnOk result ((lines : List ℕ)
        × (IsHeld bytes.now (item_shapes ready.now.fit.typed.unit.now.items.now) lines × Appends (O.taken out.old) (O.taken out.new) lines)) }
    ensures front { OnErr result ((lines : List ℕ) → IsHeld bytes.now (item_shapes ready.now.fit.typed.unit.now.items.now) lines
        → AppendsFront (O.taken out.old) (O.taken out.new) lines) }
    ensures fault { IsErrOf result WriteRefusal.SinkFailed → Rose (O.faults out.old) (O.faults out.new) }
    ensures later { O.faults out.old ≤ O.faults out.new }
{
    let starts = LineStarts::new(alloc, bytes)?;
    let desk = Desk {
        alloc,
        starts: &starts,
    };
    write_of(desk, &ready.fit, &ready.places, out)
}
