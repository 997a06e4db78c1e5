//! What the profile asks of the heads of functions (C11 6.9.1).
ghost use Rattle.std.specs.Prelude.{◌≡◌, None, is_some, IfOk, OnOk};
ghost use Rattle.tsa_core_environment.specs.Functions.{outside_of};
ghost use Rattle.tsa_profile_context.specs.ItemJudgements.{Judges, forget};
ghost use Rattle.tsa_profile_context.specs.Judging.{entered, inner_premises, outer_premises, unit_at, with_function, with_scope};
ghost use Rattle.tsa_profile_context.specs.Units.{heads_premises, stable_of};
ghost use Rattle.tsa_place_model.specs.LockPaths.{stable_in};
ghost use Rattle.tsa_profile_accesses.specs.NodeAnswers.{view_of};
ghost use Rattle.tsa_profile_accesses.specs.Premises.{first};
ghost use Rattle.tsa_core.specs.Programs.{attrs_of};
ghost use Rattle.tsa_tree.specs.declarations.Shapes.{head_shape};
ghost use Rattle.tsa_tree.specs.types.Heads as heads;
ghost use Rattle.tsa_tree.specs.types.Premises as types;

use crate::context::Ground;
use crate::knowledge::Knowledge;
use crate::refusal::{ProfileRefusal, answer_of};
use tsa_base::NoMemory;
use tsa_core_environment::{Outside, enter};
use tsa_place_layout::declared_thing;
use tsa_place_paths::Sight;
use tsa_profile_accesses::Body;
use tsa_profile_points::{Heading, attributes_failure, named_locks};
use tsa_tree::item::FnTree;
use tsa_tree::kind::Kind;
use tsa_types_scope::Scope;

impl<'t, 'a> Ground<'t, 'a> {
    /// The head of a function before its attributes.
    fn outer(&self, scope: &Scope<'a>, head: &FnTree<'a>) -> Result<(), ProfileRefusal>
        ensures { Judges (first (outer_premises (unit_at self.now) scope.now (head_shape head.now))) result }
    {
        let has_body = self.has_body(head);
        let heading = Heading {
            outside: self.outside,
            scope,
            has_body,
        };
        answer_of(heading.outer_failure(head)?)
    }

    /// The attributes of a function that gives values of a kind.
    fn inner(
        &self,
        body: Body<'_, '_>,
        gives: Kind,
        head: &FnTree<'_>,
    ) -> Result<(), ProfileRefusal>
        ensures { Judges (first (inner_premises (unit_at self.now) (view_of body.entry) gives (head_shape head.now))) result }
    {
        let has_body = self.has_body(head);
        answer_of(attributes_failure(body, has_body, gives, head.attrs)?)
    }

    /// The head of a function, which is entered where nothing fails in it. What is left behind it.
    fn head(
        &self,
        known: &mut Knowledge<'a>,
        head: &FnTree<'a>,
        stable: &[bool],
    ) -> Result<Outside, ProfileRefusal>
        requires typed { types.first (heads.head_premises known.old.here (head_shape head.now) (is_some head.now.body)) ≡ None }
        requires stable { stable_in stable.now ≡ stable_of (unit_at self.now) (head_shape head.now) }
        ensures judged { Judges (first (heads_premises (unit_at self.now) known.old.attributes known.old.here (head_shape head.now)
            (is_some head.now.body))) (forget result) }
        ensures inside { OnOk result (known.new ≡ with_scope (heads.inside known.old.here (head_shape head.now) (is_some head.now.body))
            known.old) }
        ensures outside { IfOk result (λ outside. outside ≡ outside_of known.old.here (head_shape head.now) (is_some head.now.body)) }
    {
        self.outer(&known.scope, head)?;
        let gives = declared_thing(&known.scope, &head.result)?.kind;
        let outside = enter(&mut known.scope, head)?;
        let body = self.view(&known.scope, &known.attributes, stable);
        self.inner(body, gives, head)?;
        Ok(outside)
    }

    /// Keeps the locks that a function names which is declared for the first time.
    fn declare(
        &self,
        known: &mut Knowledge<'a>,
        head: &FnTree<'a>,
        stable: &[bool],
    ) -> Result<(), NoMemory>
        ensures { OnOk result (known.new ≡ with_function (attrs_of (stable_in stable.now) known.old.here (head_shape head.now).attrs)
            known.old) }
    {
        let sight = Sight {
            scope: &known.scope,
            stable,
        };
        let locks = named_locks(sight, head.attrs)?;
        known.attributes.push(locks)?;
        known.tables.push(None)?;
        Ok(())
    }

    /// The head of a function, which is entered; one that is declared for the first time names its locks.
    pub fn enter_head(
        &self,
        known: &mut Knowledge<'a>,
        head: &FnTree<'a>,
        stable: &[bool],
    ) -> Result<Outside, ProfileRefusal>
        requires typed { types.first (heads.head_premises known.old.here (head_shape head.now) (is_some head.now.body)) ≡ None }
        requires stable { stable_in stable.now ≡ stable_of (unit_at self.now) (head_shape head.now) }
        ensures judged { Judges (first (heads_premises (unit_at self.now) known.old.attributes known.old.here (head_shape head.now)
            (is_some head.now.body))) (forget result) }
        ensures entered { OnOk result (known.new ≡ entered (unit_at self.now) known.old (head_shape head.now) (is_some head.now.body)) }
        ensures outside { IfOk result (λ outside. outside ≡ outside_of known.old.here (head_shape head.now) (is_some head.now.body)) }
    {
        let is_first = known.scope.declared(head.name.text).is_none();
        let outside = self.head(known, head, stable)?;
        if is_first {
            self.declare(known, head, stable)?;
        }
        Ok(outside)
    }
}
