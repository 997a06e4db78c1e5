//! What the profile asks of structs and globals (C11 6.7.2.1, 6.9.2).
ghost use Rattle.std.specs.Prelude.{◌≡◌, [], None, option_map, OnOk};
ghost use Rattle.tsa_profile_points.specs.Declarations.{guard_premises};
ghost use Rattle.tsa_core_environment.specs.Members.{behind_member};
ghost use Rattle.tsa_place_model.specs.Parts.{members_after};
ghost use Rattle.tsa_profile_context.specs.ItemJudgements.{Judges};
ghost use Rattle.tsa_profile_context.specs.Judging.{unit_at, with_scope};
ghost use Rattle.tsa_profile_context.specs.Units.{global_premises, member_premises, view_in};
ghost use Rattle.tsa_profile_accesses.specs.Premises.{first};
ghost use Rattle.tsa_tree.specs.attributes.Syntax.{attr_shapes};
ghost use Rattle.tsa_tree.specs.declarations.Shapes.{decl_shape, decl_shapes};
ghost use Rattle.tsa_tree.specs.expressions.Shapes.{name_shape};
ghost use Rattle.tsa_tree.specs.types.Globals as typed;
ghost use Rattle.tsa_tree.specs.types.Premises as types;
ghost use Rattle.tsa_tree.specs.types.Scopes.{with_owned};
ghost use Rattle.tsa_tree.specs.types.Structs.{struct_premises, behind_struct};
ghost use Rattle.tsa_tree.specs.types.Units.{behind_item};
ghost use Rattle.tsa_tree.specs.units.Syntax.{global_item};

use crate::context::Ground;
use crate::knowledge::Knowledge;
use crate::refusal::{ProfileRefusal, answer_of};
use tsa_core_environment::{begin_global, end_struct, know_member};
use tsa_profile_points::{given_failure, guards_failure};
use tsa_tree::decl::Decl;
use tsa_tree::item::StructDef;

impl<'t, 'a> Ground<'t, 'a> {
    /// A member behind others, in whose guards those are looked up first.
    fn member(&self, known: &mut Knowledge<'a>, decl: &Decl<'a>) -> Result<(), ProfileRefusal>
        ensures judged { Judges (first (guard_premises (view_in (unit_at self.now) known.old.attributes known.old.here)
            (attr_shapes decl.now.attrs.now))) result }
        ensures known { OnOk result (known.new ≡ with_scope (behind_member known.old.here (decl_shape decl.now)) known.old) }
    {
        let body = self.view(&known.scope, &known.attributes, &[]);
        answer_of(guards_failure(body, decl.attrs)?)?;
        know_member(&mut known.scope, decl)?;
        Ok(())
    }

    /// Members, each behind those before it.
    fn members(&self, known: &mut Knowledge<'a>, decls: &[Decl<'a>]) -> Result<(), ProfileRefusal>
        requires outside { known.old.here.owned ≡ [] }
        ensures judged { Judges (first (member_premises (unit_at self.now) known.old.attributes known.old.here [] (decl_shapes decls.now)))
            result }
        ensures known { OnOk result (known.new
            ≡ with_scope (with_owned (members_after known.old.here [] (decl_shapes decls.now)) known.old.here) known.old) }
    {
        'each: for decl in decls {
            self.member(known, decl)?;
        }
        Ok(())
    }

    /// A struct with its members.
    pub fn structure(
        &self,
        known: &mut Knowledge<'a>,
        def: &StructDef<'a>,
    ) -> Result<(), ProfileRefusal>
        requires outside { known.old.here.owned ≡ [] }
        requires typed { types.first (struct_premises known.old.here (option_map name_shape def.now.tag)
            (option_map name_shape def.now.alias) (attr_shapes def.now.attrs.now) (decl_shapes def.now.members.now) def.now.span) ≡ None }
        ensures judged { Judges (first (member_premises (unit_at self.now) known.old.attributes known.old.here []
            (decl_shapes def.now.members.now))) result }
        ensures known { OnOk result (known.new
            ≡ with_scope (behind_struct known.old.here (option_map name_shape def.now.alias) (decl_shapes def.now.members.now)) known.old) }
    {
        self.members(known, def.members)?;
        end_struct(&mut known.scope, def.alias)?;
        Ok(())
    }

    /// A global, which is known in its own guards and initialiser.
    pub fn global(&self, known: &mut Knowledge<'a>, decl: &Decl<'a>) -> Result<(), ProfileRefusal>
        requires typed { types.first (typed.global_premises known.old.here (decl_shape decl.now)) ≡ None }
        ensures judged { Judges (first (global_premises (unit_at self.now) known.old.attributes
            (typed.with_global known.old.here (decl_shape decl.now)) (decl_shape decl.now))) result }
        ensures known { OnOk result (known.new ≡ with_scope (behind_item known.old.here (global_item (decl_shape decl.now))) known.old) }
    {
        begin_global(&mut known.scope, decl)?;
        let body = self.view(&known.scope, &known.attributes, &[]);
        answer_of(guards_failure(body, decl.attrs)?)?;
        answer_of(given_failure(body, &decl.init)?)?;
        known.scope.count_global()?;
        Ok(())
    }
}
