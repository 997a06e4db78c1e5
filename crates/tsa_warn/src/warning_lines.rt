//! The lines of the warnings of a unit.
ghost use Rattle.std.specs.Prelude.{◌≡◌, ◌+◌, ◌<◌, ◌≤◌, ◌∷◌, ◌++◌, [], List, length, Ok, IfOk, OnOk};
ghost use Rattle.std.specs.List.{flat_map};
ghost use Rattle.tsa_warn_bodies.specs.Bodies.{BodyText, IsToldBody, Tells, body_by, names_of};
ghost use Rattle.tsa_warn_bodies.specs.BodyCourses.{course_of};
ghost use Rattle.tsa_warn_bodies.specs.Courses.{IsInFrontOf, course_behind, course_outset};
ghost use Rattle.tsa_warn_function.specs.Paths.{paths_of};
ghost use Rattle.tsa_core.specs.Programs.{program_of};
ghost use Rattle.tsa_place_model.specs.Units.{placed_in};
ghost use Rattle.tsa_warn_bodies.specs.Units.{unit_of};
ghost use Rattle.tsa_warn.specs.OneBody.{warned_of};
ghost use Rattle.tsa_warn.specs.Lines.{warning_line};
ghost use Rattle.tsa_warn.specs.WarningLines.{AreWarned, IsBodyWarned, IsWarned, Warned as Lines, both};
ghost use Rattle.tsa_warn_text.specs.Orders.{texts_of};
ghost use Rattle.tsa_tree.specs.units.Shapes.{HaveTheirPoints, item_shape, item_shapes};
ghost use Rattle.tsa_tree.specs.units.Syntax.{UnitItem};

use crate::body::push_place;
use crate::line_count::UnitLines;
use crate::unit::Ready;
use std::alloc::Global;
use tsa_base::{LineStarts, NoMemory};
use tsa_place::Places;
use tsa_tree::item::Item;
use tsa_warn_bodies::{Course, Teller, ToldBody, UnitTables};
use tsa_warn_function::{Fit, RuleFailure, warnings_of};
use tsa_warn_text::{Subject, push_warning};

/// Appends the line of a rule that fails in a body.
fn push_line(
    text: &mut Vec<u8>,
    starts: &LineStarts<'_>,
    body: &ToldBody<'_>,
    failure: RuleFailure,
) -> Result<(), NoMemory>
    ensures longer { OnOk result (length text.old.items < length text.new.items) }
    ensures line { OnOk result ((items : List UnitItem) (b : BodyText) (h : IsToldBody items b body.now)
        → text.new.items ≡ text.old.items ++ warning_line starts.now (program_of items) h.function (paths_of (program_of items) h.function) (texts_of (names_of items b.number) (paths_of (program_of items) h.function)) b failure) }
{
    let head = body.head;
    push_place(text, starts, head, failure.point)?;
    let subject = Subject {
        rule: failure.rule,
        function: head.name.text,
        kind: body.flow.view().kind(failure.cap).unwrap_or(&[]),
        path: body.texts.text(failure.cap),
    };
    push_warning(text, subject)?;
    text.extend_from_slice(b"\n")?;
    Ok(())
}

/// Appends the lines of rules that fail in a body.
fn push_lines(
    text: &mut Vec<u8>,
    starts: &LineStarts<'_>,
    body: &ToldBody<'_>,
    failures: &[RuleFailure],
) -> Result<(), NoMemory>
    ensures longer { OnOk result (length text.old.items + length failures.now ≤ length text.new.items) }
    ensures lines { OnOk result ((items : List UnitItem) (b : BodyText) (h : IsToldBody items b body.now)
        → text.new.items ≡ text.old.items ++ flat_map (warning_line starts.now (program_of items) h.function (paths_of (program_of items) h.function) (texts_of (names_of items b.number) (paths_of (program_of items) h.function)) b) failures.now) }
{
    'each: for failure in failures {
        push_line(text, starts, body, *failure)?;
    }
    Ok(())
}

impl UnitLines {
    /// Adds the lines of a body's warnings. A refused call leaves none counted.
    fn add_body(
        &mut self,
        alloc: Global,
        starts: &LineStarts<'_>,
        body: &ToldBody<'_>,
    ) -> Result<(), NoMemory>
        ensures { OnOk result ((items : List UnitItem) (b : BodyText) → IsToldBody items b body.now
            → (w : Lines) × (IsBodyWarned starts.now items b w × (warned_of self.new ≡ both (warned_of self.old) w))) }
    {
        let failures = warnings_of(alloc, &body.flow, &body.texts)?;
        let count = self.count;
        self.count = 0;
        push_lines(&mut self.text, starts, body, &failures)?;
        self.count = count + failures.len();
        Ok(())
    }

    /// Adds the lines of the warnings of a body that is told, where one is.
    fn add_told(
        &mut self,
        alloc: Global,
        starts: &LineStarts<'_>,
        told: &Option<ToldBody<'_>>,
    ) -> Result<(), NoMemory>
        ensures { OnOk result ((items : List UnitItem) (done bodies : List BodyText) → Tells items bodies told.now
            → AreWarned starts.now items done (warned_of self.old) → AreWarned starts.now items (done ++ bodies) (warned_of self.new)) }
    {
        if let Some(body) = told {
            self.add_body(alloc, starts, body)?;
        }
        Ok(())
    }

    /// Adds the lines of the body that an item has, where it has one. The item is the first of those that are left.
    fn add_item<'a>(
        &mut self,
        alloc: Global,
        starts: &LineStarts<'_>,
        teller: &Teller<'_, 'a>,
        course: &mut Course<'a>,
        item: &'a Item<'a>,
    ) -> Result<(), NoMemory>
        requires ahead { (rest : List UnitItem)
            × IsInFrontOf (item_shapes teller.now.pass.ground.items.now) (item_shape item.now ∷ rest) (course_of course.old) }
        requires points { HaveTheirPoints (item.now ∷ []) }
        ensures behind { OnOk result (course_of course.new ≡ course_behind (unit_of [] (item_shapes teller.now.pass.ground.items.now))
            (course_of course.old) (item_shape item.now)) }
        ensures lines { OnOk result ((done : List BodyText)
            → AreWarned starts.now (item_shapes teller.now.pass.ground.items.now) done (warned_of self.old)
            → AreWarned starts.now (item_shapes teller.now.pass.ground.items.now) (done ++ body_by (course_of course.old).known.here (item_shape item.now)) (warned_of self.new)) }
    {
        match &teller.item(course, item) {
            Ok(told) => self.add_told(alloc, starts, told),
            Err(refusal) => Err(*refusal),
        }
    }

    /// Adds the lines of all bodies of a unit, item by item, where none are there yet. The course is that in front of the first item.
    fn add_bodies<'a>(
        &mut self,
        starts: &LineStarts<'_>,
        teller: &Teller<'_, 'a>,
        course: &mut Course<'a>,
    ) -> Result<(), NoMemory>
        requires begun { course_of course.old ≡ course_outset (unit_of [] (item_shapes teller.now.pass.ground.items.now)) }
        requires points { HaveTheirPoints teller.now.pass.ground.items.now }
        ensures { OnOk result (warned_of self.old ≡ record { text = []; count = 0 }
            → IsWarned starts.now (item_shapes teller.now.pass.ground.items.now) (warned_of self.new)) }
    {
        let alloc = *self.text.allocator();
        'each: for item in teller.pass.ground.items {
            self.add_item(alloc, starts, teller, course, item)?;
        }
        Ok(())
    }

    /// Adds the lines of all bodies that a teller tells, where none are there yet.
    fn add_all(&mut self, starts: &LineStarts<'_>, teller: &Teller<'_, '_>) -> Result<(), NoMemory>
        requires { HaveTheirPoints teller.now.pass.ground.items.now }
        ensures { OnOk result (warned_of self.old ≡ record { text = []; count = 0 }
            → IsWarned starts.now (item_shapes teller.now.pass.ground.items.now) (warned_of self.new)) }
    {
        let mut course = Course::new(*self.text.allocator(), &teller.pass.ground)?;
        self.add_bodies(starts, teller, &mut course)
    }

    /// Adds the lines of a unit in the profile by its tables, where none are there yet.
    fn add_by<'a>(
        &mut self,
        starts: &LineStarts<'_>,
        fit: &Fit<'a>,
        tables: &UnitTables<'_, 'a>,
    ) -> Result<(), NoMemory>
        requires same { fit.now.typed.unit.now.items ≡ tables.now.items }
        requires points { HaveTheirPoints fit.now.typed.unit.now.items.now }
        ensures { OnOk result (warned_of self.old ≡ record { text = []; count = 0 }
            → IsWarned starts.now (item_shapes fit.now.typed.unit.now.items.now) (warned_of self.new)) }
    {
        let teller = Teller {
            pass: tables.pass(fit),
        };
        self.add_all(starts, &teller)
    }

    /// Adds the lines of a unit in the profile, where none are there yet. The places are those of the unit.
    fn add_unit(
        &mut self,
        starts: &LineStarts<'_>,
        fit: &Fit<'_>,
        places: &Places,
    ) -> Result<(), NoMemory>
        requires placed { placed_in (item_shapes fit.now.typed.unit.now.items.now) ≡ Ok places.now }
        requires points { HaveTheirPoints fit.now.typed.unit.now.items.now }
        ensures { OnOk result (warned_of self.old ≡ record { text = []; count = 0 }
            → IsWarned starts.now (item_shapes fit.now.typed.unit.now.items.now) (warned_of self.new)) }
    {
        match &UnitTables::new(*self.text.allocator(), fit, places) {
            Ok(tables) => self.add_by(starts, fit, tables),
            Err(refusal) => Err(*refusal),
        }
    }
}

/// The lines of the warnings of a unit in the profile, in order.
pub fn unit_lines(alloc: Global, ready: &Ready<'_>, bytes: &[u8]) -> Result<UnitLines, NoMemory>
    requires { HaveTheirPoints ready.now.fit.typed.unit.now.items.now }
    ensures { IfOk result (λ lines. IsWarned bytes.now (item_shapes ready.now.fit.typed.unit.now.items.now) (warned_of lines)) }
{
    let starts = LineStarts::new(alloc, bytes)?;
    let mut lines = UnitLines {
        text: Vec::new(alloc),
        count: 0,
    };
    lines.add_unit(&starts, &ready.fit, &ready.places)?;
    Ok(lines)
}
