//! The points of a body, noted one by one along its steps (C11 6.8).
ghost use Rattle.std.specs.Prelude.{◌≡◌, ◌++◌, ◌∷◌, [], List, map, IfOk, OnOk};
ghost use Rattle.tsa_base.specs.declared.token.Span.{Span};
ghost use Rattle.tsa_profile_points.specs.PointAnswers.{around_of};
ghost use Rattle.tsa_core.specs.Bodies.{kinds_by};
ghost use Rattle.tsa_rules_points.specs.Notes.{AreNotes, HaveRows, notes_in};
ghost use Rattle.tsa_rules_points.specs.Points.{begins_a_try as spec_begins_a_try};
ghost use Rattle.tsa_rules_points.specs.Visits.{around_at, known_at};
ghost use Rattle.tsa_core_points.specs.Points.{PlacedPoint, placed};
ghost use Rattle.tsa_core_points.specs.Walks.{points_along, points_at, walk_behind};
ghost use Rattle.tsa_core_points.specs.Steps.{step_shape};
ghost use Rattle.tsa_tree.specs.statements.Shapes.{action_shape};

use crate::marking::Marking;
use crate::notes::{Noted, Notes};
use crate::visit::Visit;
use tsa_base::NoMemory;
use tsa_core_points::{Step, Walk};
use tsa_place_layout::declared_thing;
use tsa_profile_accesses::Footprint;
use tsa_profile_points::{Around, Spot};
use tsa_rules_roles::{Roles, duty_at};
use tsa_rules_table::{Marks, Numbers};
use tsa_tree::kind::Kind;
use tsa_tree::stmt::Action;
use tsa_types_scope::Scope;

/// What is around the body whose points are noted, and the kind of what its function gives.
#[derive(Clone, Copy)]
pub struct Frame<'w> {
    pub around: Around<'w>,
    pub kind: Kind,
}

/// Notes in the making.
#[derive(Drop)]
pub(crate) struct Book {
    roles: Roles,
    callees: Vec<Option<u32>>,
    kinds: Vec<Kind>,
    marking: Marking,
}

impl<'w, 'a> Visit<'w, 'a> {
    /// Whether a local begins there with what a try gives.
    fn begins_a_try(self) -> bool
        ensures { result ≡ spec_begins_a_try (around_at self.entry) (known_at self.entry) }
    {
        match self.action {
            Action::Declare(_) => self.tries(),
            _ => false,
        }
    }
}

/// Notes the kind of a local that is declared at a point.
fn note_kind(kinds: &mut Vec<Kind>, scope: &Scope<'_>, action: &Action<'_>) -> Result<(), NoMemory>
    ensures { OnOk result (kinds.new.items ≡ kinds.old.items ++ kinds_by scope.now (action_shape action.now)) }
{
    match action {
        Action::Declare(decl) => {
            let thing = declared_thing(scope, &decl.ctype)?;
            kinds.push(thing.kind)?;
            Ok(())
        }
        _ => Ok(()),
    }
}

impl<'w> Frame<'w> {
    /// Notes a point behind the others.
    fn note_point<'a>(
        self,
        book: &mut Book,
        scope: &Scope<'a>,
        action: &Action<'a>,
    ) -> Result<(), NoMemory>
        requires rows { HaveRows (notes_in book.old) }
        ensures notes { OnOk result ((qs : List PlacedPoint) (span : Span)
            → AreNotes (around_of self.entry.around) self.entry.kind book.old.marking.numbers qs (notes_in book.old)
            → AreNotes (around_of self.entry.around) self.entry.kind book.old.marking.numbers
            (qs ++ placed scope.now (action_shape action.now) span ∷ []) (notes_in book.new)) }
        ensures rows { OnOk result (HaveRows (notes_in book.new)) }
        ensures numbers { book.new.marking.numbers ≡ book.old.marking.numbers }
    {
        let spot = Spot {
            around: self.around,
            scope,
        };
        let visit = Visit::new(spot, action);
        let duty = duty_at(scope, self.kind, action);
        book.roles.push(duty, visit.begins_a_try())?;
        book.marking.note(visit, book.roles.points())?;
        book.callees.push(visit.callee)?;
        note_kind(&mut book.kinds, scope, action)
    }

    /// Notes a step behind the others: only points are noted.
    fn note_step<'a>(
        self,
        book: &mut Book,
        scope: &Scope<'a>,
        step: &Step<'a>,
    ) -> Result<(), NoMemory>
        requires rows { HaveRows (notes_in book.old) }
        ensures notes { OnOk result ((qs : List PlacedPoint)
            → AreNotes (around_of self.entry.around) self.entry.kind book.old.marking.numbers qs (notes_in book.old)
            → AreNotes (around_of self.entry.around) self.entry.kind book.old.marking.numbers
            (qs ++ points_at scope.now (step_shape step.now)) (notes_in book.new)) }
        ensures rows { OnOk result (HaveRows (notes_in book.new)) }
        ensures numbers { book.new.marking.numbers ≡ book.old.marking.numbers }
    {
        match step {
            Step::Point(point) => self.note_point(book, scope, &point.action),
            Step::Open | Step::Close => Ok(()),
        }
    }

    /// Notes all steps of a walk.
    fn note_steps<'a>(
        self,
        book: &mut Book,
        walk: &mut Walk<'a>,
        steps: &[Step<'a>],
    ) -> Result<(), NoMemory>
        requires rows { HaveRows (notes_in book.old) }
        ensures notes { OnOk result ((qs : List PlacedPoint)
            → AreNotes (around_of self.entry.around) self.entry.kind book.old.marking.numbers qs (notes_in book.old)
            → AreNotes (around_of self.entry.around) self.entry.kind book.old.marking.numbers
            (qs ++ points_along walk.old (map step_shape steps.now)) (notes_in book.new)) }
        ensures rows { OnOk result (HaveRows (notes_in book.new)) }
        ensures numbers { book.new.marking.numbers ≡ book.old.marking.numbers }
        ensures behind { OnOk result (walk.new ≡ walk_behind walk.old (map step_shape steps.now)) }
    {
        'each: for step in steps {
            self.note_step(book, walk.scope(), step)?;
            walk.pass(step)?;
        }
        Ok(())
    }
}

/// The points of a body noted along its steps, with the numbers of the paths.
pub fn notes_of<'a>(
    frame: Frame<'_>,
    walk: &mut Walk<'a>,
    steps: &[Step<'a>],
    numbers: Numbers,
) -> Result<Noted, NoMemory>
    ensures notes { IfOk result (λ noted. AreNotes (around_of frame.entry.around) frame.entry.kind numbers
        (points_along walk.old (map step_shape steps.now)) noted.notes) }
    ensures numbers { IfOk result (λ noted. noted.numbers ≡ numbers) }
    ensures behind { OnOk result (walk.new ≡ walk_behind walk.old (map step_shape steps.now)) }
{
    let alloc = walk.scope().allocator();
    let mut book = Book {
        roles: Roles::new(alloc),
        callees: Vec::new(alloc),
        kinds: Vec::new(alloc),
        marking: Marking {
            marks: Marks::new(alloc),
            numbers,
            room: Footprint::new(alloc),
        },
    };
    frame.note_steps(&mut book, walk, steps)?;
    Ok(Noted {
        notes: Notes {
            roles: book.roles,
            callees: book.callees,
            kinds: book.kinds,
            marks: book.marking.marks,
        },
        numbers: book.marking.numbers,
    })
}
