//! Lists of members and globals are read, a declarator at a time (C11 6.7.2.1, 6.7).
ghost use Rattle.std.specs.Prelude.{◌≡◌, ◌≤◌, ◌<◌, length as count, take, IfOk, OnErr};
ghost use Rattle.tsa_tree.specs.declarations.Spelling.{a_member};
ghost use Rattle.tsa_tree.specs.declarations.Shapes.{decl_shapes};
ghost use Rattle.tsa_tree.specs.units.Shapes.{item_shapes, HaveTheirPoints};
ghost use Rattle.tsa_tree.specs.Reads.{read};
ghost use Rattle.tsa_tree.specs.Rows.{some_declarations, declarators as declarators_call, member_line as line_call};
ghost use Rattle.tsa_tree.specs.Rows.{members as members_call};
ghost use Rattle.tsa_expr.specs.Source.{input, named};
ghost use Rattle.tsa_expr.specs.Gives.{Gives};
ghost use Rattle.tsa_decl_declarators.specs.Outcomes.{after};
ghost use Rattle.tsa_decl.specs.Outcomes.{globals_at};
ghost use Rattle.tsa_decl_declarators.specs.Readings.{row_type, row_declarator};

use crate::nodes::{cut_if_refused, keep_global, length_of};
use bumpalo::Bump;
use tsa_decl_declarators::{
    Declarator, Role, Specified, declarator_at, declared_rest, is_close_brace_at, keep, specifier,
};
use tsa_expr::{Reader, SyntaxRefusal};
use tsa_tree::decl::Decl;
use tsa_tree::item::Item;

/// The declarators of members after their type, at the end of a list, and their `;`.
#[tactic(auto, using(crate::proofs::MemberLaws::one_by_one))]
fn member_declarators<'a>(
    reader: Reader<'a, '_>,
    specified: Specified<'a>,
    list: &mut Vec<Decl<'a>, &'a Bump>,
) -> Result<u32, SyntaxRefusal>
    ensures gives { Gives (λ next. (decl_shapes list.new.items, next)) result
        (after (decl_shapes list.old.items)
        (read (input reader.entry) some_declarations (declarators_call (named reader.entry) a_member 1 (row_type specified.entry))
        specified.entry.next)) }
    ensures ends { IfOk result (λ next. (specified.entry.next < next) × (next ≤ count reader.entry.tokens.now)) }
{
    let mut next = specified.next;
    'declarators: loop {
        let declarator = declarator_at(reader, next)?;
        let declared = declared_rest(reader, Role::Member, specified, declarator)?;
        keep(list, declared.decl)?;
        next = declared.next;
        if !declared.goes_on {
            return Ok(next);
        }
    }
}

/// A type, its declarators and their `;`, at the end of a list of members.
#[tactic(auto, using(crate::proofs::MemberLaws::lines))]
fn member_line<'a>(
    reader: Reader<'a, '_>,
    at: u32,
    list: &mut Vec<Decl<'a>, &'a Bump>,
) -> Result<u32, SyntaxRefusal>
    ensures gives { Gives (λ next. (decl_shapes list.new.items, next)) result
        (after (decl_shapes list.old.items) (read (input reader.entry) some_declarations (line_call (named reader.entry) 1) at)) }
    ensures ends { IfOk result (λ next. (at < next) × (next ≤ count reader.entry.tokens.now)) }
{
    let specified = specifier(reader, at)?;
    member_declarators(reader, specified, list)
}

/// Any number of members, at the end of a list, and the brace that closes them (C11 6.7.2.1).
#[tactic(auto, using(crate::proofs::MemberLaws::lists))]
pub fn members<'a>(
    reader: Reader<'a, '_>,
    at: u32,
    list: &mut Vec<Decl<'a>, &'a Bump>,
) -> Result<u32, SyntaxRefusal>
    ensures gives { Gives (λ next. (decl_shapes list.new.items, next)) result
        (after (decl_shapes list.old.items) (read (input reader.entry) some_declarations (members_call (named reader.entry) 1) at)) }
    ensures ends { IfOk result (λ next. (at < next) × (next ≤ count reader.entry.tokens.now)) }
{
    let mut next = at;
    'members: loop {
        if is_close_brace_at(reader, next) {
            return Ok(next + 1);
        }
        next = member_line(reader, next, list)?;
    }
}

/// Globals, from after their first declarator on, at the end of a list of items, and their `;`. A refused call may leave some
/// of them after the items that the list had.
#[tactic(auto, using(crate::proofs::GlobalLaws::lists))]
fn append_globals<'a>(
    reader: Reader<'a, '_>,
    specified: Specified<'a>,
    first: Declarator<'a>,
    list: &mut Vec<Item<'a>>,
) -> Result<u32, SyntaxRefusal>
    requires within { first.next ≤ count reader.tokens.now }
    ensures gives { Gives (λ next. (item_shapes list.new.items, next)) result
        (after (item_shapes list.old.items)
        (globals_at (input reader.entry) (named reader.entry) (row_type specified.entry) (row_declarator first.entry) first.entry.next)) }
    ensures pointed { IfOk result (λ next. HaveTheirPoints list.old.items → HaveTheirPoints list.new.items) }
    ensures ends { IfOk result (λ next. (first.entry.next < next) × (next ≤ count reader.entry.tokens.now)) }
    ensures front { OnErr result (take (count list.old.items) list.new.items ≡ list.old.items) }
{
    let mut of = first;
    'globals: loop {
        let declared = declared_rest(reader, Role::Global, specified, of)?;
        keep_global(list, declared.decl)?;
        if !declared.goes_on {
            return Ok(declared.next);
        }
        of = declarator_at(reader, declared.next)?;
    }
}

/// Globals, from after their first declarator on, at the end of a list of items, and their `;`. A refused call leaves the
/// list as it was.
pub fn globals<'a>(
    reader: Reader<'a, '_>,
    specified: Specified<'a>,
    first: Declarator<'a>,
    list: &mut Vec<Item<'a>>,
) -> Result<u32, SyntaxRefusal>
    requires within { first.next ≤ count reader.tokens.now }
    ensures gives { Gives (λ next. (item_shapes list.new.items, next)) result
        (after (item_shapes list.old.items)
        (globals_at (input reader.entry) (named reader.entry) (row_type specified.entry) (row_declarator first.entry) first.entry.next)) }
    ensures pointed { IfOk result (λ next. HaveTheirPoints list.old.items → HaveTheirPoints list.new.items) }
    ensures ends { IfOk result (λ next. (first.entry.next < next) × (next ≤ count reader.entry.tokens.now)) }
    ensures lent { OnErr result (list.new.items ≡ list.old.items) }
{
    let before = length_of(list);
    let read = append_globals(reader, specified, first, list);
    cut_if_refused(list, before, read)
}
