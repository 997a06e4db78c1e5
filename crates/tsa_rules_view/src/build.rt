//! The view of a body that is entered.
ghost use Rattle.std.specs.Prelude.{◌≡◌, ◌<◌, ◌++◌, [], None, false, map, IfOk, OnOk};
ghost use Rattle.tsa_profile_accesses.specs.Expressions.{attributes_at};
ghost use Rattle.tsa_profile_points.specs.PointAnswers.{around_of};
ghost use Rattle.tsa_rules_view.specs.Kinds.{kinds_of as spec_kinds};
ghost use Rattle.tsa_rules_table.specs.Notes.{IsRow};
ghost use Rattle.tsa_path.specs.PathTables.{AreDifferent};
ghost use Rattle.tsa_core_points.specs.Walks.{points_along, walk, walk_behind};
ghost use Rattle.tsa_rules_roles.specs.Roles.{tries_in};
ghost use Rattle.tsa_rules.specs.Sets.{pending_places};
ghost use Rattle.tsa_core_points.specs.Steps.{step_shape};
ghost use Rattle.tsa_tree.specs.declarations.Shapes.{head_shape};
ghost use Rattle.tsa_tree.specs.types.Scopes.{with_locals};
ghost use Rattle.tsa_rules_view.specs.BodyViews.{AreNoted, HasFewTries, IsMade, IsNoted, IsWhole};
ghost use Rattle.tsa_rules_view.specs.Parts.{kinds_along, param_kinds as spec_param_kinds};
ghost use Rattle.tsa_place_model.specs.LockPaths.{stable_in};

use crate::content::RuleView;
use crate::parts::{kinds_of, own_marks, param_kinds};
use crate::walks::{begin_walk, end_walk};
use crate::{Leads, LockKind};
use tsa_base::NoMemory;
use tsa_core_points::{Step, body_steps};
use tsa_path::PathTable;
use tsa_place_layout::{Layout, declared_thing};
use tsa_profile_accesses::NamedLocks;
use tsa_profile_points::Around;
use tsa_rules_bodies::{Inside, Knowledge};
use tsa_rules_points::{Frame, Noted, notes_of};
use tsa_rules_table::{Marks, Numbers};
use tsa_types_scope::Scope;

/// The layout of a typed unit, and the kinds of locks that its structs are.
#[derive(Clone, Copy)]
pub struct Unit<'w, 'a> {
    pub layout: &'w Layout<'w>,
    pub kinds: &'w [Option<LockKind<'a>>],
}

/// What a view has beside the notes of points: the kinds of the locks to which paths lead, and what the function says of them.
#[derive(Drop)]
pub(crate) struct Sides<'a> {
    kinds: Vec<Option<LockKind<'a>>>,
    own: Marks,
}

/// Notes points along steps, by the paths of a table. What is known stays as it is.
fn notes_along<'a>(
    scope: &mut Scope<'a>,
    frame: Frame<'_>,
    steps: &[Step<'a>],
    paths: &PathTable,
) -> Result<Noted, NoMemory>
    ensures noted { IfOk result (AreNoted (around_of frame.entry.around) frame.entry.kind paths.now
        (points_along (walk scope.old []) (map step_shape steps.now))) }
    ensures scope { OnOk result (scope.new ≡ with_locals scope.old.locals (walk_behind (walk scope.old []) (map step_shape steps.now)).here) }
{
    let locals = scope.next_local();
    let numbers = Numbers::copy_of(scope.allocator(), paths)?;
    let mut walk = begin_walk(scope)?;
    let noted = notes_of(frame, &mut walk, steps, numbers);
    end_walk(scope, walk, locals);
    noted
}

/// What the attributes of the function whose body is entered say of its paths, in one row.
fn own_row(
    known: &Knowledge<'_>,
    inside: &Inside<'_>,
    numbers: &mut Numbers,
) -> Result<Marks, NoMemory>
    ensures row { IfOk result (λ own. AreDifferent numbers.old
        → IsRow numbers.old own 0 (attributes_at known.now.attributes inside.now.number) [] [] None) }
    ensures numbers { numbers.new ≡ numbers.old }
{
    let own = known.locks_of(inside.number);
    own_marks(known.scope.allocator(), numbers, own)
}

impl<'w, 'a> Unit<'w, 'a> {
    /// What is around a body that is entered.
    fn around<'f>(&self, attributes: &'f [NamedLocks], stable: &'f [bool]) -> Around<'f>
    where
        'w: 'f,
        ensures { around_of result ≡ record
            { layout = self.now.layout.now; attributes = attributes.now; tries = false; stable = stable_in stable.now } }
    {
        Around {
            layout: self.layout,
            attributes,
            tries: false,
            stable,
        }
    }

    /// Notes the points of a body that is entered, by the paths of its function. What is known there stays as it is.
    fn noted(
        &self,
        known: &mut Knowledge<'a>,
        inside: &Inside<'a>,
        paths: &PathTable,
    ) -> Result<Noted, NoMemory>
        ensures noted { IfOk result (IsNoted self.now known.old inside.now paths.now) }
        ensures known { OnOk result (known.new ≡ known.old) }
    {
        let kind = declared_thing(&known.scope, &inside.head.result)?.kind;
        let steps = body_steps(known.scope.allocator(), inside.body, inside.head.name.span)?;
        let around = self.around(&known.attributes, &inside.stable);
        notes_along(&mut known.scope, Frame { around, kind }, &steps, paths)
    }

    /// The kinds of the locks to which the paths of a body lead whose points are noted.
    fn path_kinds(
        &self,
        known: &Knowledge<'a>,
        inside: &Inside<'a>,
        noted: &Noted,
    ) -> Result<Vec<Option<LockKind<'a>>>, NoMemory>
        ensures { IfOk result (λ kinds. spec_kinds kinds.items ≡ kinds_along (spec_kinds self.now.kinds.now) self.now.layout.now
            (spec_param_kinds known.now.here (head_shape inside.now.head.now).params ++ noted.now.notes.kinds.items) noted.now.numbers) }
    {
        let mut locals = param_kinds(&known.scope, inside.head.params)?;
        locals.extend_from_slice(&noted.notes.kinds)?;
        let leads = Leads {
            layout: self.layout,
            locals: &locals,
        };
        kinds_of(known.scope.allocator(), &noted.numbers, leads, self.kinds)
    }

    /// What a view has beside the notes of points.
    fn sides(
        &self,
        known: &Knowledge<'a>,
        inside: &Inside<'a>,
        noted: &mut Noted,
    ) -> Result<Sides<'a>, NoMemory>
        ensures kinds { IfOk result (λ sides. spec_kinds sides.kinds.items ≡ kinds_along (spec_kinds self.now.kinds.now) self.now.layout.now
            (spec_param_kinds known.now.here (head_shape inside.now.head.now).params ++ noted.old.notes.kinds.items) noted.old.numbers) }
        ensures own { IfOk result (λ sides. AreDifferent noted.old.numbers
            → IsRow noted.old.numbers sides.own 0 (attributes_at known.now.attributes inside.now.number) [] [] None) }
        ensures noted { noted.new ≡ noted.old }
    {
        let kinds = self.path_kinds(known, inside, noted)?;
        let own = own_row(known, inside, &mut noted.numbers)?;
        Ok(Sides { kinds, own })
    }

    /// The view of a body whose points are noted, where few of them begin tries.
    fn whole(
        &self,
        known: &Knowledge<'a>,
        inside: &Inside<'a>,
        noted: Noted,
    ) -> Result<RuleView<'a>, NoMemory>
        requires few { tries_in noted.notes.roles < pending_places }
        ensures { IfOk result (λ view. IsWhole self.now known.now inside.now noted view) }
    {
        let mut noted = noted;
        let sides = self.sides(known, inside, &mut noted)?;
        Ok(RuleView {
            numbers: noted.numbers,
            kinds: sides.kinds,
            own: sides.own,
            notes: noted.notes,
        })
    }

    /// The view of a body that is entered, by the paths of its function, which has few try variables. What is known there stays as it is.
    pub fn view(
        &self,
        known: &mut Knowledge<'a>,
        inside: &Inside<'a>,
        paths: &PathTable,
    ) -> Result<RuleView<'a>, NoMemory>
        requires few { HasFewTries self.now known.old inside.now }
        ensures view { IfOk result (λ view. IsMade self.now known.old inside.now paths.now view) }
        ensures known { OnOk result (known.new ≡ known.old) }
    {
        let noted = self.noted(known, inside, paths)?;
        self.whole(known, inside, noted)
    }
}
