//! Items of a unit are read, functions with their bodies (C11 6.9.1).
ghost use Rattle.std.specs.Prelude.{◌≡◌, ◌≤◌, ◌<◌, [], length, Some, None, IfOk, true};
ghost use Rattle.tsa_tree.specs.declarations.Shapes.{head_shape};
ghost use Rattle.tsa_tree.specs.Reads.{read};
ghost use Rattle.tsa_tree.specs.Rows.{some_items, function_end, item as item_call};
ghost use Rattle.tsa_tree.specs.units.Shapes.{item_shapes, HaveTheirPoints};
ghost use Rattle.tsa_tree.specs.tokens.Signs.{lexemes};
ghost use Rattle.tsa_expr.specs.TypeNames.{known};
ghost use Rattle.tsa_expr.specs.Source.{input, named};
ghost use Rattle.tsa_expr.specs.Gives.{Gives};
ghost use Rattle.tsa_decl_declarators.specs.Outcomes.{after};
ghost use Rattle.tsa_decl.specs.Outcomes.{going_items};

use crate::text::Text;
use bumpalo::Bump;
use std::alloc::Global;
use tsa_decl::{begin_item, keep_function};
use tsa_decl_declarators::{in_arena, open_brace};
use tsa_expr::{Aliases, Reader, SyntaxRefusal};
use tsa_tree::item::{FnTree, Item};
use tsa_tree::sign::Sign;
use tsa_tree::stmt::{Action, Point, Stmt};
use tsa_unit_heads::TextReader;
use tsa_unit_simple::mark;
use tsa_unit_statements::statements;

/// One item at the end of a list: nothing for a tag alone, and several for several globals.
#[tactic(auto, using(crate::proofs::FunctionLaws::items))]
pub fn item<'a>(
    bump: &'a Bump,
    text: Text<'_>,
    at: u32,
    aliases: Option<&Aliases>,
    list: &mut Vec<Item<'a>>,
) -> Result<u32, SyntaxRefusal>
    ensures gives { Gives (λ next. (item_shapes list.new.items, next)) result
        (after (item_shapes list.old.items) (read (lexemes text.entry.tokens.now) some_items (item_call (known aliases.entry) true) at)) }
    ensures pointed { IfOk result (λ next. HaveTheirPoints list.old.items → HaveTheirPoints list.new.items) }
    ensures ends { IfOk result (λ next. (at < next) × (next ≤ length text.entry.tokens.now)) }
{
    let reader = Reader {
        bump,
        tokens: text.tokens,
        aliases,
    };
    let begun = begin_item(reader, at, list)?;
    let Some(head) = &begun.head else {
        return Ok(begun.next);
    };
    let source = TextReader { reader };
    function(source, begun.next, head, list)
}

/// A function from after its head on, at the end of a list: a `;`, or its body with the body's points, the last of which
/// is its end.
#[tactic(auto, using(crate::proofs::FunctionLaws::functions))]
fn function<'a>(
    source: TextReader<'a, '_>,
    at: u32,
    head: &FnTree<'a>,
    list: &mut Vec<Item<'a>>,
) -> Result<u32, SyntaxRefusal>
    requires bodiless { (head.now.body ≡ None) × (head.now.points.now ≡ []) }
    ensures gives { Gives (λ next. (item_shapes list.new.items, next)) result
        (after (item_shapes list.old.items)
        (going_items (input source.entry.reader)
        (function_end (input source.entry.reader) (named source.entry.reader) true (head_shape head.now) at) at)) }
    ensures pointed { IfOk result (λ next. HaveTheirPoints list.old.items → HaveTheirPoints list.new.items) }
    ensures ends { IfOk result (λ next. (at < next) × (next ≤ length source.entry.reader.tokens.now)) }
{
    if let Sign::Semicolon = source.reader.sign(at) {
        keep_function(list, head)?;
        return Ok(at + 1);
    }
    let inside = open_brace(source.reader, at, 0)?;
    let mut points = Vec::new(allocator_of(list));
    let (body, next) = statements(source, inside, 1, &mut points)?;
    mark(&mut points, Action::End, source.reader.span(next - 1))?;
    let points = in_arena(source.reader.bump, &points)?;
    let whole = with_body(head, body, points);
    keep_function(list, &whole)?;
    Ok(next)
}

/// The allocator of a list, which is lent whole: a shared reference of a list of items costs the check ten seconds.
fn allocator_of<T: Copy>(list: &mut Vec<T>) -> Global
    ensures same { list.new.items ≡ list.old.items }
{
    *list.allocator()
}

/// A function with its body and the body's points.
fn with_body<'a>(head: &FnTree<'a>, body: &'a [Stmt<'a>], points: &'a [Point<'a>]) -> FnTree<'a>
    ensures head { head_shape result ≡ head_shape head.now }
    ensures body { result.body ≡ Some body.entry }
    ensures points { result.points ≡ points.entry }
{
    FnTree {
        name: head.name,
        result: head.result,
        params: head.params,
        attrs: head.attrs,
        body: Some(body),
        points,
    }
}
