//! The members of a struct one behind the other, and what is known behind the struct (C11 6.7.2.1).
ghost use Rattle.std.specs.Prelude.{◌≡◌, [], None, option_map, OnOk};
ghost use Rattle.tsa_core_environment.specs.Members.{behind_member, with_members};
ghost use Rattle.tsa_place_model.specs.Parts.{member_behind, members_after};
ghost use Rattle.tsa_tree.specs.attributes.Syntax.{attr_shapes};
ghost use Rattle.tsa_tree.specs.declarations.Shapes.{decl_shape, decl_shapes};
ghost use Rattle.tsa_tree.specs.expressions.Shapes.{name_shape};
ghost use Rattle.tsa_tree.specs.types.Premises.{first};
ghost use Rattle.tsa_tree.specs.types.Scopes.{with_owned};
ghost use Rattle.tsa_tree.specs.types.Structs.{struct_premises, behind_struct};

use tsa_base::NoMemory;
use tsa_place::declared_thing;
use tsa_tree::decl::Decl;
use tsa_tree::expr::Name;
use tsa_tree::item::StructDef;
use tsa_tree::kind::{Kind, ThingType};
use tsa_types_declarations::a_type_name;
use tsa_types_operators::single;
use tsa_types_scope::{Names, Scope};

/// A member behind others, which is known by its name from then on.
fn next_member<'a>(
    scope: &Scope<'a>,
    before: &mut Names<'a, ThingType>,
    decl: &Decl<'a>,
) -> Result<(), NoMemory>
    ensures { OnOk result (before.new ≡ member_behind scope.now before.old (decl_shape decl.now)) }
{
    let thing = declared_thing(scope, &decl.ctype)?;
    before.declare(decl.name.text, thing)?;
    Ok(())
}

/// Members behind others, each of which is known by its name from then on.
fn next_members<'a>(
    scope: &Scope<'a>,
    before: &mut Names<'a, ThingType>,
    decls: &[Decl<'a>],
) -> Result<(), NoMemory>
    ensures { OnOk result (before.new ≡ members_after scope.now before.old (decl_shapes decls.now)) }
{
    'each: for decl in decls {
        next_member(scope, before, decl)?;
    }
    Ok(())
}

/// A member behind those that are looked up first, which is one of them from then on. Its type is told without them.
pub fn know_member<'a>(scope: &mut Scope<'a>, decl: &Decl<'a>) -> Result<(), NoMemory>
    ensures { OnOk result (scope.new ≡ behind_member scope.old (decl_shape decl.now)) }
{
    let mut before = Names::new(scope.allocator());
    scope.swap_owned(&mut before);
    let known = next_member(scope, &mut before, decl);
    scope.swap_owned(&mut before);
    known
}

/// Defines the next struct by its members, with its name of a type.
fn add_struct<'a>(
    scope: &mut Scope<'a>,
    alias: Option<Name<'a>>,
    members: Names<'a, ThingType>,
) -> Result<(), NoMemory>
    ensures { OnOk result (scope.new ≡ with_members scope.old (option_map name_shape alias.entry) members.entry) }
{
    let number = scope.next_struct()?;
    scope.add_struct(members)?;
    scope.declare_named(alias, a_type_name(single(Kind::Structure(number), false)))?;
    Ok(())
}

/// The members that are looked up first become those of the next struct, and are looked up first no longer.
pub fn end_struct<'a>(scope: &mut Scope<'a>, alias: Option<Name<'a>>) -> Result<(), NoMemory>
    ensures { OnOk result (scope.new ≡ with_members (with_owned [] scope.old) (option_map name_shape alias.entry) scope.old.owned) }
{
    let mut members = Names::new(scope.allocator());
    scope.swap_owned(&mut members);
    add_struct(scope, alias, members)
}

/// A struct that is typed, which is known behind its item.
pub fn know_struct<'a>(scope: &mut Scope<'a>, def: &StructDef<'a>) -> Result<(), NoMemory>
    requires typed { first (struct_premises scope.old (option_map name_shape def.now.tag) (option_map name_shape def.now.alias)
        (attr_shapes def.now.attrs.now) (decl_shapes def.now.members.now) def.now.span) ≡ None }
    ensures { OnOk result (scope.new ≡ behind_struct scope.old (option_map name_shape def.now.alias) (decl_shapes def.now.members.now)) }
{
    let mut members = Names::new(scope.allocator());
    next_members(scope, &mut members, def.members)?;
    add_struct(scope, def.alias, members)
}
