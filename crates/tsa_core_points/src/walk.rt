//! A walk through the steps of a body, and what is known by name on it (C11 6.2.1).
ghost use Rattle.std.specs.Prelude.{◌≡◌, [], OnOk};
ghost use Rattle.tsa_tree.specs.declarations.Shapes.{decl_shape};
ghost use Rattle.tsa_tree.specs.statements.Shapes.{action_shape};
ghost use Rattle.tsa_tree.specs.types.Locals.{behind_local};
ghost use Rattle.tsa_tree.specs.types.Scopes.{with_locals};
ghost use Rattle.tsa_core_points.specs.Steps.{opens, closes, step_shape};
ghost use Rattle.tsa_core_points.specs.Walks.{walk, behind_deed, pass};

use crate::Step;
use std::marker::Model;
use tsa_base::NoMemory;
use tsa_place_layout::declared_thing;
use tsa_tree::decl::Decl;
use tsa_tree::meaning::{Entry, Meaning};
use tsa_tree::stmt::Action;
use tsa_types_scope::Scope;

/// Declares a local, which is known from behind its declaration on; one whose name is taken only counts.
fn declare<'a>(scope: &mut Scope<'a>, decl: &Decl<'a>) -> Result<(), NoMemory>
    ensures { OnOk result (scope.new ≡ behind_local scope.old (decl_shape decl.now)) }
{
    let thing = declared_thing(scope, &decl.ctype)?;
    let entry = Entry {
        meaning: Meaning::Local(scope.next_local()),
        thing,
    };
    scope.declare(decl.name.text, entry)?;
    scope.count_local()
}

/// What is known behind what is done at a point.
fn leave_point<'a>(scope: &mut Scope<'a>, action: &Action<'a>) -> Result<(), NoMemory>
    ensures { OnOk result (scope.new ≡ behind_deed scope.old (action_shape action.now)) }
{
    match action {
        Action::Declare(decl) => declare(scope, decl),
        _ => Ok(()),
    }
}

/// What is known on the way through a body, and how many names were known where each open block began.
pub struct Walk<'a> {
    scope: Scope<'a>,
    blocks: Vec<usize>,
}

impl Drop for Walk<'_> {
    /// Lets its parts go, in one call for all who let one go.
    fn drop(self) {
        let Walk {
            scope: _,
            blocks: _,
        } = self;
    }
}

impl<'a> Model for Walk<'a> {
    ghost use Rattle.std.specs.Prelude.{reverse};
    ghost use Rattle.tsa_core_points.specs.Walks.{Walk};

    ghost Value = { Walk };

    ghost view = { λ walk. record { here = walk.scope; blocks = reverse walk.blocks.items } };
}

impl<'a> Walk<'a> {
    /// A walk that begins where no block is open.
    pub fn new(scope: Scope<'a>) -> Walk<'a>
        ensures { result ≡ walk scope.entry [] }
    {
        let blocks = Vec::new(scope.allocator());
        Walk { scope, blocks }
    }

    /// What is known.
    pub fn scope(&self) -> &Scope<'a>
        ensures { result.now ≡ self.now.here }
    {
        &self.scope
    }

    /// What is known where the walk ends.
    pub fn into_scope(self) -> Scope<'a>
        ensures { result ≡ self.entry.here }
    {
        let Walk { scope, blocks: _ } = self;
        scope
    }

    /// Sets how many locals there are, as where a body is walked through once more.
    pub fn set_locals(&mut self, locals: u32)
        ensures { self.new ≡ walk (with_locals locals self.old.here) self.old.blocks }
    {
        self.scope.set_locals(locals);
    }

    /// The names of a block begin.
    #[tactic(auto, using(crate::proofs::Blocks::blocks))]
    fn open(&mut self) -> Result<(), NoMemory>
        ensures { OnOk result (self.new ≡ pass self.old opens) }
    {
        self.blocks.push(self.scope.names_len())?;
        Ok(())
    }

    /// The names of the innermost block end.
    #[tactic(auto, using(crate::proofs::Blocks::blocks))]
    fn close(&mut self)
        ensures { self.new ≡ pass self.old closes }
    {
        if let Some(names) = self.blocks.pop() {
            self.scope.close(names);
        }
    }

    /// Goes on by a step.
    pub fn pass(&mut self, step: &Step<'a>) -> Result<(), NoMemory>
        ensures { OnOk result (self.new ≡ pass self.old (step_shape step.now)) }
    {
        match step {
            Step::Point(point) => leave_point(&mut self.scope, &point.action),
            Step::Open => self.open(),
            Step::Close => {
                self.close();
                Ok(())
            }
        }
    }
}
