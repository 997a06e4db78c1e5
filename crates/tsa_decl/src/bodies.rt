//! Structs and enums are read from their braces on, and the plain aliases of types (C11 6.7.2.1, 6.7.2.2, 6.7.8).
ghost use Rattle.std.specs.Prelude.{◌≡◌, ◌≤◌, ◌<◌, length, option_map, IfOk, OnErr};
ghost use Rattle.tsa_tree.specs.attributes.Syntax.{attr_shapes};
ghost use Rattle.tsa_tree.specs.units.Shapes.{item_shapes, HaveTheirPoints};
ghost use Rattle.tsa_tree.specs.Rows.{alias_end};
ghost use Rattle.tsa_tree.specs.expressions.Shapes.{name_shape};
ghost use Rattle.tsa_expr.specs.Source.{input, named};
ghost use Rattle.tsa_expr.specs.Gives.{Gives};
ghost use Rattle.tsa_decl_declarators.specs.Outcomes.{after};
ghost use Rattle.tsa_decl.specs.Outcomes.{going_items, body_at, alias_name_at, structure_at, enumeration_at, opening_at as spec_opening};
ghost use Rattle.tsa_decl_declarators.specs.Readings.{row_type};
ghost use Rattle.tsa_decl.specs.Readings.{seen_body, seen_named, seen_opening};

use crate::constants::enum_body;
use crate::lists::members;
use crate::nodes::{keep_alias, keep_enumeration, keep_structure};
use bumpalo::Bump;
use tsa_attr::read_more;
use tsa_decl_declarators::{
    Specified, ctype, declarator_at, listed, name, open_brace, semicolon, tag,
};
use tsa_expr::{Reader, SyntaxRefusal};
use tsa_tree::attr::Attr;
use tsa_tree::decl::Decl;
use tsa_tree::expr::Name;
use tsa_tree::item::{AliasDef, EnumDef, Item, StructDef};
use tsa_tree::sign::Sign;

/// The members of a struct, all its attributes, and the token after them.
#[derive(Clone, Copy)]
pub struct Body<'a> {
    pub members: &'a [Decl<'a>],
    pub attrs: &'a [Attr<'a>],
    pub next: u32,
}

/// A name where one is read, and the token after it.
#[derive(Clone, Copy)]
pub struct AliasName<'a> {
    pub name: Option<Name<'a>>,
    pub next: u32,
}

/// What stands before the braces of a struct or an enum: the item's first token, its tag, and the token after that.
#[derive(Clone, Copy)]
pub struct Opening<'a> {
    pub start: u32,
    pub tag: Option<Name<'a>>,
    pub next: u32,
}

/// A tag, where no brace stands instead of it.
#[tactic(auto, using(crate::proofs::BodyLaws::openings))]
pub fn opening_at<'a>(
    reader: Reader<'a, '_>,
    start: u32,
    at: u32,
) -> Result<Opening<'a>, SyntaxRefusal>
    ensures gives { Gives seen_opening result (spec_opening (input reader.entry) (named reader.entry) at) }
    ensures start { IfOk result (λ r. r.start ≡ start) }
    ensures ends { IfOk result (λ r. (at ≤ r.next) × (r.next ≤ length reader.entry.tokens.now)) }
{
    if let Sign::OpenBrace = reader.sign(at) {
        return Ok(Opening {
            start,
            tag: None,
            next: at,
        });
    }
    let tag = tag(reader, at)?;
    Ok(Opening {
        start,
        tag: Some(tag),
        next: at + 1,
    })
}

/// Members in their braces, and the attributes after them, which follow those before the tag.
#[tactic(auto, using(crate::proofs::BodyLaws::bodies))]
fn struct_body<'a>(
    reader: Reader<'a, '_>,
    at: u32,
    attrs: Vec<Attr<'a>, &'a Bump>,
) -> Result<Body<'a>, SyntaxRefusal>
    ensures gives { Gives seen_body result (body_at (input reader.entry) (named reader.entry) (attr_shapes attrs.entry.items) at) }
    ensures ends { IfOk result (λ r. (at < r.next) × (r.next ≤ length reader.entry.tokens.now)) }
{
    let inside = open_brace(reader, at, 0)?;
    let mut list = Vec::new(reader.bump);
    let behind = members(reader, inside, &mut list)?;
    let (attrs, next) = read_more(reader, behind, 0, attrs)?;
    let members = listed(list);
    let attrs = listed(attrs);
    Ok(Body {
        members,
        attrs,
        next,
    })
}

/// The name of an alias, where the item is a `typedef`.
#[tactic(auto, using(crate::proofs::BodyLaws::names))]
fn alias_name<'a>(
    reader: Reader<'a, '_>,
    at: u32,
    aliased: bool,
) -> Result<AliasName<'a>, SyntaxRefusal>
    ensures gives { Gives seen_named result (alias_name_at (input reader.entry) (named reader.entry) aliased at) }
    ensures ends { IfOk result (λ r. at ≤ r.next) }
{
    if !aliased {
        return Ok(AliasName {
            name: None,
            next: at,
        });
    }
    let name = name(reader, at)?;
    Ok(AliasName {
        name: Some(name),
        next: at + 1,
    })
}

/// A struct from its braces on, with its alias where it is a `typedef`, at the end of a list of items.
#[tactic(auto, using(crate::proofs::BodyLaws::structures))]
pub fn structure<'a>(
    reader: Reader<'a, '_>,
    opening: Opening<'a>,
    attrs: Vec<Attr<'a>, &'a Bump>,
    aliased: bool,
    list: &mut Vec<Item<'a>>,
) -> Result<u32, SyntaxRefusal>
    ensures gives { Gives (λ next. (item_shapes list.new.items, next)) result
        (after (item_shapes list.old.items)
        (structure_at (input reader.entry) (named reader.entry) aliased opening.entry.start (attr_shapes attrs.entry.items)
        (option_map name_shape opening.entry.tag) opening.entry.next)) }
    ensures pointed { IfOk result (λ next. HaveTheirPoints list.old.items → HaveTheirPoints list.new.items) }
    ensures ends { IfOk result (λ next. (opening.entry.next < next) × (next ≤ length reader.entry.tokens.now)) }
    ensures lent { OnErr result (list.new.items ≡ list.old.items) }
{
    let body = struct_body(reader, opening.next, attrs)?;
    let alias = alias_name(reader, body.next, aliased)?;
    let next = semicolon(reader, alias.next)?;
    let span = reader.over(opening.start, next);
    let item = StructDef {
        tag: opening.tag,
        alias: alias.name,
        attrs: body.attrs,
        members: body.members,
        span,
    };
    keep_structure(list, item)?;
    Ok(next)
}

/// An enum from its braces on, with its alias where it is a `typedef`, at the end of a list of items.
#[tactic(auto, using(crate::proofs::BodyLaws::enumerations))]
pub fn enumeration<'a>(
    reader: Reader<'a, '_>,
    opening: Opening<'a>,
    aliased: bool,
    list: &mut Vec<Item<'a>>,
) -> Result<u32, SyntaxRefusal>
    ensures gives { Gives (λ next. (item_shapes list.new.items, next)) result
        (after (item_shapes list.old.items)
        (enumeration_at (input reader.entry) (named reader.entry) aliased opening.entry.start (option_map name_shape opening.entry.tag)
        opening.entry.next)) }
    ensures pointed { IfOk result (λ next. HaveTheirPoints list.old.items → HaveTheirPoints list.new.items) }
    ensures ends { IfOk result (λ next. (opening.entry.next < next) × (next ≤ length reader.entry.tokens.now)) }
    ensures lent { OnErr result (list.new.items ≡ list.old.items) }
{
    let (values, behind) = enum_body(reader, opening.next)?;
    let alias = alias_name(reader, behind, aliased)?;
    let next = semicolon(reader, alias.next)?;
    let span = reader.over(opening.start, next);
    let item = EnumDef {
        tag: opening.tag,
        alias: alias.name,
        values,
        span,
    };
    keep_enumeration(list, item)?;
    Ok(next)
}

/// The declarator of an alias after its type, and its `;`, at the end of a list of items.
#[tactic(auto, using(crate::proofs::BodyLaws::plain))]
pub fn plain_alias<'a>(
    reader: Reader<'a, '_>,
    specified: Specified<'a>,
    list: &mut Vec<Item<'a>>,
) -> Result<u32, SyntaxRefusal>
    ensures gives { Gives (λ next. (item_shapes list.new.items, next)) result
        (after (item_shapes list.old.items)
        (going_items (input reader.entry)
        (alias_end (input reader.entry) (named reader.entry) (row_type specified.entry) specified.entry.next) specified.entry.next)) }
    ensures pointed { IfOk result (λ next. HaveTheirPoints list.old.items → HaveTheirPoints list.new.items) }
    ensures ends { IfOk result (λ next. (specified.entry.next < next) × (next ≤ length reader.entry.tokens.now)) }
    ensures lent { OnErr result (list.new.items ≡ list.old.items) }
{
    let of = declarator_at(reader, specified.next)?;
    let next = semicolon(reader, of.next)?;
    let span = reader.over(specified.next, of.next);
    let item = AliasDef {
        name: of.name,
        ctype: ctype(specified, of, None),
        span,
    };
    keep_alias(list, item)?;
    Ok(next)
}
