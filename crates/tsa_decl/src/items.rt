//! Items are read, told by their first tokens: a function up to before its `;` or its body (C11 6.7, 6.9).
ghost use Rattle.std.specs.Prelude.{◌≡◌, ◌≢◌, ◌+◌, ◌≤◌, ◌<◌, length, [], Bool, Some, None, Err, IfOk, IfSome, IsOkAnd, MatchResult, OnErr};
ghost use Rattle.tsa_tree.specs.declarations.Shapes.{base_shape};
ghost use Rattle.tsa_tree.specs.units.Shapes.{item_shapes, HaveTheirPoints};
ghost use Rattle.tsa_tree.specs.Reads.{read};
ghost use Rattle.tsa_tree.specs.Rows.{some_items, an_open_brace, sees, declared as declared_call, item as item_call};
ghost use Rattle.tsa_tree.specs.Rows.{declared_of as declared_of_row, alias_of as alias_of_row, structure_row, enumeration_row};
ghost use Rattle.tsa_tree.specs.Rows.{structure_alias_row, enumeration_alias_row, typedef_row};
ghost use Rattle.tsa_tree.specs.tokens.Signs.{sign_at};
ghost use Rattle.tsa_grammar.specs.Reading.{choose};
ghost use Rattle.tsa_expr.specs.Source.{input, named};
ghost use Rattle.tsa_expr.specs.Gives.{Gives, Leads};
ghost use Rattle.tsa_decl_declarators.specs.Outcomes.{after};
ghost use Rattle.tsa_decl.specs.Outcomes.{finished, going_items, other_item_at};
ghost use Rattle.tsa_decl_declarators.specs.Readings.{row_type};
ghost use Rattle.tsa_decl.specs.Readings.{seen_begun};

use crate::bodies::{Opening, enumeration, opening_at, plain_alias, structure};
use crate::heads::{behind_storage, head_behind};
use crate::lists::globals;
use tsa_attr::{begins_group, read_more};
use tsa_decl_declarators::{Specified, declarator_at, specified_at, specifier, tag};
use tsa_expr::{Reader, SyntaxRefusal};
use tsa_tree::decl::BaseType;
use tsa_tree::expr::Name;
use tsa_tree::item::{FnTree, Item};
use tsa_tree::sign::{Keyword, Sign};

/// An item that was begun. Where it is a function, its head is read, and its `;` or its body has to stand at `next`.
#[derive(Clone, Copy)]
pub struct Begun<'a> {
    pub head: Option<FnTree<'a>>,
    pub next: u32,
}

/// An item that ended before a token, and is no function.
fn without_head<'a>(next: Result<u32, SyntaxRefusal>) -> Result<Begun<'a>, SyntaxRefusal>
    ensures cases { MatchResult next (λ next. IsOkAnd result (λ begun. (begun.head ≡ None) × (begun.next ≡ next))) (λ e. result ≡ Err e) }
{
    match next {
        Ok(next) => Ok(Begun { head: None, next }),
        Err(refusal) => Err(refusal),
    }
}

/// A function whose head was read up to before a token.
fn with_head<'a>(found: (FnTree<'a>, u32)) -> Begun<'a>
    ensures head_is { result.head ≡ Some found.entry.0 }
    ensures next_is { result.next ≡ found.entry.1 }
{
    Begun {
        head: Some(found.0),
        next: found.1,
    }
}

/// One item, at the end of a list: nothing for a tag alone, and several for several globals. A function is left out of the
/// list, as only its head is read. A refused call leaves the list as it was.
#[tactic(auto, using(crate::proofs::ItemLaws::items))]
pub fn begin_item<'a>(
    reader: Reader<'a, '_>,
    at: u32,
    list: &mut Vec<Item<'a>>,
) -> Result<Begun<'a>, SyntaxRefusal>
    ensures leads { (bodies : Bool) → Leads (seen_begun list.new.items) result
        (after (item_shapes list.old.items) (read (input reader.entry) some_items (item_call (named reader.entry) bodies) at))
        (finished (input reader.entry) (named reader.entry) bodies) }
    ensures bodiless { IfOk result (λ begun. IfSome begun.head (λ head. (head.body ≡ None) × (head.points.now ≡ []))) }
    ensures kept { IfOk result (λ begun. begun.head ≢ None → list.new.items ≡ list.old.items) }
    ensures pointed { IfOk result (λ begun. HaveTheirPoints list.old.items → HaveTheirPoints list.new.items) }
    ensures ends { IfOk result (λ begun. (at < begun.next) × (begun.next ≤ length reader.entry.tokens.now)) }
    ensures lent { OnErr result (list.new.items ≡ list.old.items) }
{
    match reader.sign(at) {
        Sign::Keyword(Keyword::Struct) => struct_item(reader, at, list),
        Sign::Keyword(Keyword::Enum) => enum_item(reader, at, list),
        Sign::Keyword(Keyword::Typedef) => without_head(typedef(reader, at, list)),
        _ => plain_item(reader, at, list),
    }
}

/// Globals or a function's head that begin with storage words or with their type.
#[tactic(auto, using(crate::proofs::ItemLaws::others))]
fn plain_item<'a>(
    reader: Reader<'a, '_>,
    at: u32,
    list: &mut Vec<Item<'a>>,
) -> Result<Begun<'a>, SyntaxRefusal>
    ensures leads { (bodies : Bool) → Leads (seen_begun list.new.items) result
        (after (item_shapes list.old.items) (other_item_at (input reader.entry) (named reader.entry) bodies at))
        (finished (input reader.entry) (named reader.entry) bodies) }
    ensures bodiless { IfOk result (λ begun. IfSome begun.head (λ head. (head.body ≡ None) × (head.points.now ≡ []))) }
    ensures kept { IfOk result (λ begun. begun.head ≢ None → list.new.items ≡ list.old.items) }
    ensures pointed { IfOk result (λ begun. HaveTheirPoints list.old.items → HaveTheirPoints list.new.items) }
    ensures ends { IfOk result (λ begun. (at < begun.next) × (begun.next ≤ length reader.entry.tokens.now)) }
    ensures lent { OnErr result (list.new.items ≡ list.old.items) }
{
    let start = behind_storage(reader, at);
    let specified = specifier(reader, start)?;
    globals_or_head(reader, specified, list)
}

/// The globals after a type with their `;`, or the rest of a function's head.
#[tactic(auto, using(crate::proofs::ItemLaws::declared_items))]
fn globals_or_head<'a>(
    reader: Reader<'a, '_>,
    specified: Specified<'a>,
    list: &mut Vec<Item<'a>>,
) -> Result<Begun<'a>, SyntaxRefusal>
    ensures leads { (bodies : Bool) → Leads (seen_begun list.new.items) result
        (after (item_shapes list.old.items)
        (read (input reader.entry) some_items (declared_call (named reader.entry) bodies (row_type specified.entry)) specified.entry.next))
        (finished (input reader.entry) (named reader.entry) bodies) }
    ensures bodiless { IfOk result (λ begun. IfSome begun.head (λ head. (head.body ≡ None) × (head.points.now ≡ []))) }
    ensures kept { IfOk result (λ begun. begun.head ≢ None → list.new.items ≡ list.old.items) }
    ensures pointed { IfOk result (λ begun. HaveTheirPoints list.old.items → HaveTheirPoints list.new.items) }
    ensures ends { IfOk result (λ begun. (specified.entry.next < begun.next) × (begun.next ≤ length reader.entry.tokens.now)) }
    ensures lent { OnErr result (list.new.items ≡ list.old.items) }
{
    let of = declarator_at(reader, specified.next)?;
    match reader.sign(of.next) {
        Sign::Open => head_behind(reader, specified, of).map(with_head),
        _ => without_head(globals(reader, specified, of, list)),
    }
}

/// The globals or the function's head of a type that was told by its tag.
#[tactic(auto, using(crate::proofs::ItemLaws::told_by_tag))]
fn declared_of<'a>(
    reader: Reader<'a, '_>,
    at: u32,
    base: BaseType<'a>,
    list: &mut Vec<Item<'a>>,
) -> Result<Begun<'a>, SyntaxRefusal>
    ensures leads { (bodies : Bool) → Leads (seen_begun list.new.items) result
        (after (item_shapes list.old.items)
        (going_items (input reader.entry) (declared_of_row (input reader.entry) (named reader.entry) bodies (base_shape base.entry) at) at))
        (finished (input reader.entry) (named reader.entry) bodies) }
    ensures bodiless { IfOk result (λ begun. IfSome begun.head (λ head. (head.body ≡ None) × (head.points.now ≡ []))) }
    ensures kept { IfOk result (λ begun. begun.head ≢ None → list.new.items ≡ list.old.items) }
    ensures pointed { IfOk result (λ begun. HaveTheirPoints list.old.items → HaveTheirPoints list.new.items) }
    ensures ends { IfOk result (λ begun. (at < begun.next) × (begun.next ≤ length reader.entry.tokens.now)) }
    ensures lent { OnErr result (list.new.items ≡ list.old.items) }
{
    let specified = specified_at(reader, base, at);
    globals_or_head(reader, specified, list)
}

/// The alias of a type that was told by its tag.
#[tactic(auto, using(crate::proofs::ItemLaws::told_by_tag))]
fn alias_of<'a>(
    reader: Reader<'a, '_>,
    at: u32,
    base: BaseType<'a>,
    list: &mut Vec<Item<'a>>,
) -> Result<u32, SyntaxRefusal>
    ensures gives { Gives (λ next. (item_shapes list.new.items, next)) result
        (after (item_shapes list.old.items)
        (going_items (input reader.entry) (alias_of_row (input reader.entry) (named reader.entry) (base_shape base.entry) at) at)) }
    ensures pointed { IfOk result (λ next. HaveTheirPoints list.old.items → HaveTheirPoints list.new.items) }
    ensures ends { IfOk result (λ next. (at < next) × (next ≤ length reader.entry.tokens.now)) }
    ensures lent { OnErr result (list.new.items ≡ list.old.items) }
{
    let specified = specified_at(reader, base, at);
    plain_alias(reader, specified, list)
}

/// The tag of a type that is used and not declared: one with no brace after it.
#[tactic(auto, using(crate::proofs::TagLaws::used))]
fn used_tag<'a>(reader: Reader<'_, '_>, opening: Opening<'a>) -> Option<Name<'a>>
    ensures { result ≡ choose (sees (input reader.entry) (an_open_brace (named reader.entry)) opening.entry.next) None opening.entry.tag }
{
    match reader.sign(opening.next) {
        Sign::OpenBrace => None,
        _ => opening.tag,
    }
}

/// An item whose `struct` stands at a token: a struct, a tag alone, or globals or a function's head of a struct's type.
#[tactic(auto, using(crate::proofs::TagLaws::structs))]
fn struct_item<'a>(
    reader: Reader<'a, '_>,
    at: u32,
    list: &mut Vec<Item<'a>>,
) -> Result<Begun<'a>, SyntaxRefusal>
    requires within { at < length reader.tokens.now }
    ensures leads { (bodies : Bool) → Leads (seen_begun list.new.items) result
        (after (item_shapes list.old.items)
        (going_items (input reader.entry) (structure_row (input reader.entry) (named reader.entry) bodies at) (at + 1)))
        (finished (input reader.entry) (named reader.entry) bodies) }
    ensures bodiless { IfOk result (λ begun. IfSome begun.head (λ head. (head.body ≡ None) × (head.points.now ≡ []))) }
    ensures kept { IfOk result (λ begun. begun.head ≢ None → list.new.items ≡ list.old.items) }
    ensures pointed { IfOk result (λ begun. HaveTheirPoints list.old.items → HaveTheirPoints list.new.items) }
    ensures ends { IfOk result (λ begun. (at < begun.next) × (begun.next ≤ length reader.entry.tokens.now)) }
    ensures lent { OnErr result (list.new.items ≡ list.old.items) }
{
    let (attrs, behind) = read_more(reader, at + 1, 0, Vec::new(reader.bump))?;
    let tag = tag(reader, behind)?;
    let next = behind + 1;
    if !begins_group(reader.sign(at + 1)) {
        match reader.sign(next) {
            Sign::OpenBrace => {}
            Sign::Semicolon => return without_head(Ok(next + 1)),
            _ => {
                let base = BaseType::Structure(tag);
                return declared_of(reader, next, base, list);
            }
        }
    }
    let opening = Opening {
        start: at,
        tag: Some(tag),
        next,
    };
    without_head(structure(reader, opening, attrs, false, list))
}

/// An item whose `enum` stands at a token: an enum, or globals or a function's head of an enum's type.
#[tactic(auto, using(crate::proofs::TagLaws::enums))]
fn enum_item<'a>(
    reader: Reader<'a, '_>,
    at: u32,
    list: &mut Vec<Item<'a>>,
) -> Result<Begun<'a>, SyntaxRefusal>
    requires within { at < length reader.tokens.now }
    ensures leads { (bodies : Bool) → Leads (seen_begun list.new.items) result
        (after (item_shapes list.old.items)
        (going_items (input reader.entry) (enumeration_row (input reader.entry) (named reader.entry) bodies at) (at + 1)))
        (finished (input reader.entry) (named reader.entry) bodies) }
    ensures bodiless { IfOk result (λ begun. IfSome begun.head (λ head. (head.body ≡ None) × (head.points.now ≡ []))) }
    ensures kept { IfOk result (λ begun. begun.head ≢ None → list.new.items ≡ list.old.items) }
    ensures pointed { IfOk result (λ begun. HaveTheirPoints list.old.items → HaveTheirPoints list.new.items) }
    ensures ends { IfOk result (λ begun. (at < begun.next) × (begun.next ≤ length reader.entry.tokens.now)) }
    ensures lent { OnErr result (list.new.items ≡ list.old.items) }
{
    let opening = opening_at(reader, at, at + 1)?;
    if let Some(tag) = used_tag(reader, opening) {
        let base = BaseType::Enumerated(tag);
        return declared_of(reader, opening.next, base, list);
    }
    without_head(enumeration(reader, opening, false, list))
}

/// An item whose `typedef` stands at a token.
#[tactic(auto, using(crate::proofs::ItemLaws::typedefs))]
fn typedef<'a>(
    reader: Reader<'a, '_>,
    at: u32,
    list: &mut Vec<Item<'a>>,
) -> Result<u32, SyntaxRefusal>
    requires within { at < length reader.tokens.now }
    ensures gives { Gives (λ next. (item_shapes list.new.items, next)) result
        (after (item_shapes list.old.items)
        (going_items (input reader.entry)
        (typedef_row (input reader.entry) (named reader.entry) at (sign_at (input reader.entry) (named reader.entry) (at + 1))) (at + 1))) }
    ensures pointed { IfOk result (λ next. HaveTheirPoints list.old.items → HaveTheirPoints list.new.items) }
    ensures ends { IfOk result (λ next. (at < next) × (next ≤ length reader.entry.tokens.now)) }
    ensures lent { OnErr result (list.new.items ≡ list.old.items) }
{
    match reader.sign(at + 1) {
        Sign::Keyword(Keyword::Struct) => struct_alias(reader, at, list),
        Sign::Keyword(Keyword::Enum) => enum_alias(reader, at, list),
        _ => {
            let specified = specifier(reader, at + 1)?;
            plain_alias(reader, specified, list)
        }
    }
}

/// An item whose `typedef struct` stands at a token: a struct with its alias, or the alias of a struct's type.
#[tactic(auto, using(crate::proofs::TagLaws::struct_aliases))]
fn struct_alias<'a>(
    reader: Reader<'a, '_>,
    at: u32,
    list: &mut Vec<Item<'a>>,
) -> Result<u32, SyntaxRefusal>
    requires within { at + 1 < length reader.tokens.now }
    ensures gives { Gives (λ next. (item_shapes list.new.items, next)) result
        (after (item_shapes list.old.items)
        (going_items (input reader.entry) (structure_alias_row (input reader.entry) (named reader.entry) at) (at + 1 + 1))) }
    ensures pointed { IfOk result (λ next. HaveTheirPoints list.old.items → HaveTheirPoints list.new.items) }
    ensures ends { IfOk result (λ next. (at < next) × (next ≤ length reader.entry.tokens.now)) }
    ensures lent { OnErr result (list.new.items ≡ list.old.items) }
{
    let inside = at + 1 + 1;
    let (attrs, behind) = read_more(reader, inside, 0, Vec::new(reader.bump))?;
    let opening = opening_at(reader, at, behind)?;
    if !begins_group(reader.sign(inside)) {
        if let Some(tag) = used_tag(reader, opening) {
            let base = BaseType::Structure(tag);
            return alias_of(reader, opening.next, base, list);
        }
    }
    structure(reader, opening, attrs, true, list)
}

/// An item whose `typedef enum` stands at a token: an enum with its alias, or the alias of an enum's type.
#[tactic(auto, using(crate::proofs::TagLaws::enum_aliases))]
fn enum_alias<'a>(
    reader: Reader<'a, '_>,
    at: u32,
    list: &mut Vec<Item<'a>>,
) -> Result<u32, SyntaxRefusal>
    requires within { at + 1 < length reader.tokens.now }
    ensures gives { Gives (λ next. (item_shapes list.new.items, next)) result
        (after (item_shapes list.old.items)
        (going_items (input reader.entry) (enumeration_alias_row (input reader.entry) (named reader.entry) at) (at + 1 + 1))) }
    ensures pointed { IfOk result (λ next. HaveTheirPoints list.old.items → HaveTheirPoints list.new.items) }
    ensures ends { IfOk result (λ next. (at < next) × (next ≤ length reader.entry.tokens.now)) }
    ensures lent { OnErr result (list.new.items ≡ list.old.items) }
{
    let opening = opening_at(reader, at, at + 1 + 1)?;
    if let Some(tag) = used_tag(reader, opening) {
        let base = BaseType::Enumerated(tag);
        return alias_of(reader, opening.next, base, list);
    }
    enumeration(reader, opening, true, list)
}
