//! Structs (C11 6.7.2.1): members, of which those before a guard are known in it.
ghost use Rattle.std.specs.Prelude.{◌≡◌, ◌++◌, ◌||◌, [], OnOk, IfOk, length, option_map};
ghost use Rattle.tsa_types_expressions.specs.Judgements.{Judges};
ghost use Rattle.tsa_tree.specs.attributes.Syntax.{attr_shape, attr_shapes};
ghost use Rattle.tsa_tree.specs.declarations.Shapes.{decl_shape, decl_shapes};
ghost use Rattle.tsa_tree.specs.expressions.Shapes.{name_shape};
ghost use Rattle.tsa_tree.specs.types.Attributes.{attributes_premises, attributes_beside, stands_beside as spec_stands_beside};
ghost use Rattle.tsa_tree.specs.types.Premises.{first};
ghost use Rattle.tsa_tree.specs.types.Scopes.{tag_in, with_owned, is_named_taken};
ghost use Rattle.tsa_tree.specs.types.Structs.{member_premises, with_member, members_premises, members_behind};
ghost use Rattle.tsa_tree.specs.types.Structs.{first_place as spec_first_place, other_struct, inside_struct as spec_inside_struct};
ghost use Rattle.tsa_tree.specs.types.Structs.{struct_premises, behind_struct};
ghost use Rattle.tsa_types_row.specs.BodyRows.{aside_attributes};
ghost use Rattle.tsa_types_row.specs.ItemRows.{row_in_member, row_in_members};

use crate::aliases::a_type_name;
use crate::declarations::judge_type;
use tsa_base::NoMemory;
use tsa_tree::attr::Attr;
use tsa_tree::decl::Decl;
use tsa_tree::expr::Name;
use tsa_tree::item::StructDef;
use tsa_tree::kind::{Declaring, Kind, ThingType};
use tsa_tree::meaning::Tag;
use tsa_tree::premise::{Bearer, Failure, TypeCode};
use tsa_types_expressions::{TypeRefusal, View, at, first_of, judged, refused};
use tsa_types_operators::single;
use tsa_types_row::Row;
use tsa_types_scope::{Names, Scope};

/// The attributes of a member, in which those before it are known first: what is wrong with them. They are put into the row.
fn guards<'a>(
    scope: &mut Scope<'a>,
    row: &mut Row,
    members: &mut Names<'a, ThingType>,
    attrs: &[Attr<'_>],
) -> Result<Option<Failure>, NoMemory>
    ensures judged { IfOk result (λ failure. failure
        ≡ first (attributes_premises (with_owned members.old scope.old) Bearer.Member (attr_shapes attrs.now))) }
    ensures nodes { OnOk result (row.new ≡ row.old ++ aside_attributes (with_owned members.old scope.old) 0
        (attr_shapes attrs.now)) }
    ensures same { scope.new ≡ scope.old }
    ensures same_members { members.new ≡ members.old }
{
    scope.swap_owned(members);
    let judged = View { scope, function: 0 }.attributes(row, Bearer::Member, attrs);
    scope.swap_owned(members);
    judged
}

/// A member, which is known in the guards after it.
#[tactic(auto, unfolding(tsa_types_row::specs::ItemRows::row_in_member))]
fn declare_member<'a>(
    scope: &mut Scope<'a>,
    row: &mut Row,
    members: &mut Names<'a, ThingType>,
    decl: &Decl<'a>,
) -> Result<(), TypeRefusal>
    ensures judged { Judges (first (member_premises scope.old members.old (decl_shape decl.now))) result }
    ensures behind { OnOk result (members.new ≡ with_member scope.old members.old (decl_shape decl.now)) }
    ensures same { OnOk result (scope.new ≡ scope.old) }
    ensures nodes { OnOk result (row.new ≡ row.old ++ row_in_member scope.old members.old (decl_shape decl.now)) }
{
    let view = View { scope, function: 0 };
    let typing = judge_type(view, row, Declaring::Thing, &decl.ctype)?;
    let wrong = guards(scope, row, members, decl.attrs)?;
    let free = members.declare(decl.name.text, typing.written.thing)?;
    judged(first_of(typing.failure(!free, decl.span), wrong))
}

/// The members of a struct, after those that are declared.
fn declare_members<'a>(
    scope: &mut Scope<'a>,
    row: &mut Row,
    members: &mut Names<'a, ThingType>,
    decls: &[Decl<'a>],
) -> Result<(), TypeRefusal>
    ensures judged { Judges (first (members_premises scope.old members.old (decl_shapes decls.now))) result }
    ensures behind { OnOk result (members.new ≡ members_behind scope.old members.old (decl_shapes decls.now)) }
    ensures same { OnOk result (scope.new ≡ scope.old) }
    ensures nodes { OnOk result (row.new ≡ row.old ++ row_in_members scope.old members.old (decl_shapes decls.now)) }
{
    'each: for decl in decls {
        declare_member(scope, row, members, decl)?;
    }
    Ok(())
}

/// Where the first member stands, or the struct ends.
fn first_place(end: u32, members: &[Decl<'_>]) -> u32
    ensures { result ≡ spec_first_place end (decl_shapes members.now) }
{
    match members.first() {
        Some(decl) => decl.span.from,
        None => end,
    }
}

/// Whether an attribute stands before a place of the text, or after it.
fn stands_beside(before: bool, place: u32, attr: &Attr<'_>) -> bool
    ensures { result ≡ spec_stands_beside before place (attr_shape attr.now) }
{
    (attr.span.from < place) == before
}

/// What is wrong with the attributes of a struct that stand before a place of the text, or after it. They aren't put into the row.
fn beside_failure(
    scope: &Scope<'_>,
    before: bool,
    place: u32,
    attrs: &[Attr<'_>],
) -> Result<Option<Failure>, NoMemory>
    ensures { IfOk result (λ failure. failure
        ≡ first (attributes_premises scope.now Bearer.Structure (attributes_beside before place (attr_shapes attrs.now)))) }
{
    let view = View { scope, function: 0 };
    let mut unheard = Row::new(scope.allocator());
    let mut failure = None;
    'each: for attr in attrs {
        if stands_beside(before, place, attr) {
            let alone = std::slice::from_ref(attr);
            failure = first_of(
                failure,
                view.attributes(&mut unheard, Bearer::Structure, alone)?,
            );
        }
    }
    Ok(failure)
}

/// What stands in a struct: attributes, members, and attributes after them.
fn inside_struct<'a>(
    scope: &mut Scope<'a>,
    row: &mut Row,
    members: &mut Names<'a, ThingType>,
    def: &StructDef<'a>,
) -> Result<(), TypeRefusal>
    ensures judged { Judges (first (spec_inside_struct scope.old members.old (attr_shapes def.now.attrs.now)
        (decl_shapes def.now.members.now) def.now.span)) result }
    ensures behind { OnOk result (members.new ≡ members_behind scope.old members.old (decl_shapes def.now.members.now)) }
    ensures same { OnOk result (scope.new ≡ scope.old) }
    ensures nodes { OnOk result (row.new ≡ row.old ++ row_in_members scope.old members.old (decl_shapes def.now.members.now)) }
{
    let place = first_place(def.span.to, def.members);
    judged(beside_failure(scope, true, place, def.attrs)?)?;
    declare_members(scope, row, members, def.members)?;
    judged(beside_failure(scope, false, place, def.attrs)?)
}

/// Whether an earlier item has a tag.
fn is_other_struct(scope: &Scope<'_>, tag: Option<Name<'_>>) -> bool
    ensures { result ≡ other_struct (length scope.now.structs) (tag_in scope.now (option_map name_shape tag.entry)) }
{
    match scope.tag(tag) {
        None => false,
        Some(Tag::Structure(number)) => number as usize != scope.structs_len(),
        Some(Tag::Enumeration(_)) => true,
    }
}

/// Whether the tag of a struct, or its name of a type, is declared by something else.
fn is_declared_elsewhere(scope: &Scope<'_>, def: &StructDef<'_>) -> bool
    ensures { result ≡ (other_struct (length scope.now.structs) (tag_in scope.now (option_map name_shape def.now.tag))
        || is_named_taken (option_map name_shape def.now.alias) scope.now) }
{
    is_other_struct(scope, def.tag) || scope.is_named_taken(def.alias)
}

/// A struct, which is known after its item.
pub fn declare_struct<'a>(
    scope: &mut Scope<'a>,
    row: &mut Row,
    def: &StructDef<'a>,
) -> Result<(), TypeRefusal>
    ensures judged { Judges (first (struct_premises scope.old (option_map name_shape def.now.tag) (option_map name_shape def.now.alias)
        (attr_shapes def.now.attrs.now) (decl_shapes def.now.members.now) def.now.span)) result }
    ensures behind { OnOk result (scope.new ≡ behind_struct scope.old (option_map name_shape def.now.alias)
        (decl_shapes def.now.members.now)) }
    ensures nodes { OnOk result (row.new ≡ row.old ++ row_in_members scope.old [] (decl_shapes def.now.members.now)) }
{
    if is_declared_elsewhere(scope, def) {
        return Err(refused(at(TypeCode::TY2, def.span)));
    }
    let mut members = Names::new(scope.allocator());
    inside_struct(scope, row, &mut members, def)?;
    let number = scope.next_struct()?;
    scope.add_struct(members)?;
    let entry = a_type_name(single(Kind::Structure(number), false));
    scope.declare_named(def.alias, entry)?;
    Ok(())
}
