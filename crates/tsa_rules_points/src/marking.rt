//! A row of marks for each point of a body: what the point says of the paths of its function.
ghost use Rattle.std.specs.Prelude.{◌≡◌, ◌+◌, option_map, OnOk};
ghost use Rattle.tsa_rules_table.specs.Notes.{NotesAttributes, NotesLeft, NotesRight};
ghost use Rattle.tsa_rules_table.specs.Rows.{rows_in, IsBegun, KeepsRows};
ghost use Rattle.tsa_rules_points.specs.Marking.{AddsRow, NotesBegun, value_in};
ghost use Rattle.tsa_rules_points.specs.Points.{attrs_here, begun_here, uses_here};
ghost use Rattle.tsa_rules_points.specs.Visits.{around_at, known_at};
ghost use Rattle.tsa_tree.specs.expressions.Shapes.{shape};
ghost use Rattle.tsa_tree.specs.statements.Shapes.{action_shape};

use crate::visit::Visit;
use tsa_base::NoMemory;
use tsa_profile_accesses::{Footprint, Standing};
use tsa_profile_guards::{reads, writes};
use tsa_profile_points::calling;
use tsa_rules_table::{Marks, Numbers};
use tsa_tree::expr::Expr;
use tsa_tree::stmt::Action;

/// Marks in the making, with the numbers of the paths, and room for what a point reads and writes.
#[derive(Drop)]
pub struct Marking {
    pub marks: Marks,
    pub numbers: Numbers,
    pub room: Footprint,
}

/// The expression whose value is worked out at a point, other than an assignment's left side.
fn value_at<'t>(action: &Action<'t>) -> Option<&'t Expr<'t>>
    ensures { option_map (λ e. shape e.now) result ≡ value_in (action_shape action.now) }
{
    match action {
        Action::Switch(expr) => Some(expr),
        _ => calling(action),
    }
}

impl Marking {
    /// Notes the locks that the called function names, as its caller has them.
    #[tactic(auto, using(crate::proofs::Uses::marks_are))]
    fn note_call(&mut self, visit: Visit<'_, '_>) -> Result<(), NoMemory>
        requires begun { IsBegun self.old.marks }
        ensures row { OnOk result (NotesAttributes self.old.numbers self.old.marks self.new.marks
            (attrs_here (around_at visit.entry) (known_at visit.entry))) }
        ensures kept { OnOk result (KeepsRows self.old.marks self.new.marks) }
        ensures numbers { self.new.numbers ≡ self.old.numbers }
    {
        let locks = visit.locks();
        if locks.is_empty() {
            return Ok(());
        }
        let Some(expr) = calling(visit.action) else {
            return Ok(());
        };
        let ways = visit.spot.body().argument_paths(expr)?;
        self.marks.note_attributes(&mut self.numbers, locks, &ways)
    }

    /// Notes what is read for the value that is worked out there.
    #[tactic(auto, using(crate::proofs::Uses::marks_are))]
    fn note_value(&mut self, visit: Visit<'_, '_>) -> Result<(), NoMemory>
        requires begun { IsBegun self.old.marks }
        ensures row { OnOk result (NotesRight self.old.numbers self.old.marks self.new.marks
            (uses_here (around_at visit.entry) (known_at visit.entry)).right) }
        ensures kept { OnOk result (KeepsRows self.old.marks self.new.marks) }
        ensures numbers { self.new.numbers ≡ self.old.numbers }
    {
        let Some(expr) = value_at(visit.action) else {
            return Ok(());
        };
        self.room.clear();
        let _failure = reads(visit.spot.body(), &mut self.room, Standing::Whole, expr)?;
        self.marks
            .note_right(&mut self.numbers, self.room.accesses())
    }

    /// Notes what an assignment reads and writes for its left side.
    #[tactic(auto, using(crate::proofs::Uses::marks_are))]
    fn note_left(&mut self, visit: Visit<'_, '_>) -> Result<(), NoMemory>
        requires begun { IsBegun self.old.marks }
        ensures row { OnOk result (NotesLeft self.old.numbers self.old.marks self.new.marks
            (uses_here (around_at visit.entry) (known_at visit.entry)).left) }
        ensures kept { OnOk result (KeepsRows self.old.marks self.new.marks) }
        ensures numbers { self.new.numbers ≡ self.old.numbers }
    {
        let Action::Assign { left, op, .. } = visit.action else {
            return Ok(());
        };
        self.room.clear();
        let _failure = writes(visit.spot.body(), &mut self.room, *op, left)?;
        self.marks
            .note_left(&mut self.numbers, self.room.accesses())
    }

    /// Notes the local that begins there.
    fn note_begun(&mut self, visit: Visit<'_, '_>) -> Result<(), NoMemory>
        requires begun { IsBegun self.old.marks }
        ensures row { OnOk result (NotesBegun self.old.numbers self.old.marks self.new.marks (begun_here (known_at visit.entry))) }
        ensures kept { OnOk result (KeepsRows self.old.marks self.new.marks) }
        ensures numbers { self.new.numbers ≡ self.old.numbers }
    {
        match visit.action {
            Action::Declare(_) => {
                let local = visit.spot.scope.next_local();
                self.marks.note_declaration(&self.numbers, local)
            }
            _ => Ok(()),
        }
    }

    /// A row of marks more, so that there are so many: what a point says.
    #[tactic(auto, using(tsa_rules_table::proofs::Saying::begun_on))]
    pub fn note(&mut self, visit: Visit<'_, '_>, count: u32) -> Result<(), NoMemory>
        requires next { count ≡ rows_in self.old.marks + 1 }
        ensures row { OnOk result (AddsRow (around_at visit.entry) self.old.numbers (known_at visit.entry) self.old.marks self.new.marks) }
        ensures numbers { self.new.numbers ≡ self.old.numbers }
    {
        self.marks.begin_row(count);
        self.note_call(visit)?;
        self.note_value(visit)?;
        self.note_left(visit)?;
        self.note_begun(visit)
    }
}
