//! The nodes of attributes are made.
ghost use Rattle.std.specs.Prelude.{◌≡◌, ◌++◌, ◌∷◌, [], Some, None, IfOk, OnOk, OnErr, Err};
ghost use Rattle.std.specs.Option.{option_map};
ghost use Rattle.tsa_tree.specs.attributes.Syntax.{attr_shape, attr_shapes, unquoted, without_not as spec_without};
ghost use Rattle.tsa_tree.specs.attributes.Syntax.{without_nots as spec_withouts, negative as spec_negative};
ghost use Rattle.tsa_tree.specs.attributes.Spelling.{attribute, attribute_of};
ghost use Rattle.tsa_tree.specs.expressions.Syntax.{none, more};
ghost use Rattle.tsa_tree.specs.expressions.Shapes.{shape, shapes};
ghost use Rattle.tsa_tree.specs.tokens.Signs.{identifier_at};
ghost use Rattle.tsa_expr.specs.Source.{input};
ghost use Rattle.tsa_attr.specs.Readings.{made};

use crate::reading::{AttributeName, Reading};
use bumpalo::Bump;
use bumpalo::collections::into_bump_slice;
use std::alloc::AllocError;
use tsa_base::Span;
use tsa_expr::{ArgumentList, Reader, SyntaxRefusal};
use tsa_tree::attr::{Attr, AttrKind};
use tsa_tree::expr::{Expr, ExprKind, UnaryOp};

/// An attribute of a text.
pub fn of_text<'a>(kind: AttrKind, text: &'a [u8], span: Span) -> Attr<'a>
    ensures { attr_shape result ≡ made kind (Some text.entry.now) None none span }
{
    Attr {
        kind,
        text: Some(text),
        success: None,
        args: &[],
        span,
    }
}

/// An attribute of expressions, with the result of a try where it has one.
pub fn of_args<'a>(
    kind: AttrKind,
    success: Option<bool>,
    args: &'a [Expr<'a>],
    span: Span,
) -> Attr<'a>
    ensures { attr_shape result ≡ made kind None success (shapes args.entry.now) span }
{
    Attr {
        kind,
        text: None,
        success,
        args,
        span,
    }
}

/// The attribute of a name whose last tokens are its expressions and their closing parenthesis.
pub fn of_list<'a>(
    reader: Reader<'a, '_>,
    name: AttributeName,
    success: Option<bool>,
    args: ArgumentList<'a>,
) -> Reading<'a>
    ensures is { attr_shape result.attr ≡ attribute (input reader.entry) name.kind None success (shapes args.entry.items.now) name.at
        args.entry.next }
    ensures ends { result.next ≡ args.entry.next }
{
    let span = reader.over(name.at, args.next);
    let attr = of_args(name.kind, success, args.items, span);
    Reading {
        attr,
        next: args.next,
    }
}

/// The attribute of a name and its expressions. One that requires of each of its locks that it isn't held excludes them.
pub fn of_expressions<'a>(
    reader: Reader<'a, '_>,
    name: AttributeName,
    args: ArgumentList<'a>,
) -> Result<Reading<'a>, SyntaxRefusal>
    ensures is { IfOk result (λ r. attr_shape r.attr ≡ attribute_of (input reader.entry) name.kind (shapes args.entry.items.now) name.at
        args.entry.next) }
    ensures ends { IfOk result (λ r. r.next ≡ args.entry.next) }
    ensures memory { OnErr result (result ≡ Err SyntaxRefusal.NoMemory) }
{
    let Some(items) = negative(reader.bump, name.kind, args.items)? else {
        return Ok(of_list(reader, name, None, args));
    };
    let span = reader.over(name.at, args.next);
    let attr = of_args(AttrKind::Excludes, None, items, span);
    Ok(Reading {
        attr,
        next: args.next,
    })
}

/// What an attribute excludes that requires of each of its locks that it isn't held.
fn negative<'a>(
    bump: &'a Bump,
    kind: AttrKind,
    args: &[Expr<'a>],
) -> Result<Option<&'a [Expr<'a>]>, SyntaxRefusal>
    ensures is { IfOk result (λ found. option_map (λ items. shapes items.now) found ≡ spec_negative kind (shapes args.now)) }
    ensures memory { OnErr result (result ≡ Err SyntaxRefusal.NoMemory) }
{
    match kind {
        AttrKind::Requires => without_nots(bump, args),
        _ => Ok(None),
    }
}

/// What the `!` of some expressions stand before, where each of them begins with one, kept in the arena.
#[tactic(auto, using(crate::proofs::Negatives::negatives))]
fn without_nots<'a>(
    bump: &'a Bump,
    args: &[Expr<'a>],
) -> Result<Option<&'a [Expr<'a>]>, SyntaxRefusal>
    ensures is { IfOk result (λ found. option_map (λ items. shapes items.now) found ≡ spec_withouts (shapes args.now)) }
    ensures memory { OnErr result (result ≡ Err SyntaxRefusal.NoMemory) }
{
    let mut items = Vec::new(bump);
    'each: for arg in args {
        let Some(inner) = without_not(arg) else {
            return Ok(None);
        };
        items.push(inner)?;
    }
    Ok(Some(into_bump_slice(items)))
}

/// What a `!` stands before.
fn without_not<'a>(arg: &Expr<'a>) -> Option<Expr<'a>>
    ensures { option_map shape result ≡ spec_without (shape arg.now) }
{
    match arg.kind {
        ExprKind::Unary {
            op: UnaryOp::Not,
            inner,
        } => Some(*inner),
        _ => None,
    }
}

/// A list of one expression, kept in the arena.
pub fn list_of_one<'a>(bump: &'a Bump, tree: Expr<'a>) -> Result<&'a [Expr<'a>], SyntaxRefusal>
    ensures is { IfOk result (λ args. shapes args.now ≡ more (shape tree.entry) none) }
    ensures memory { OnErr result (result ≡ Err SyntaxRefusal.NoMemory) }
{
    let list: &'a [Expr<'a>] = bump.try_alloc_slice_copy(&[tree])?;
    Ok(list)
}

/// The bytes between the quotes of a text.
fn without_quotes(text: &[u8]) -> &[u8]
    ensures { result.now ≡ unquoted text.now }
{
    if text.len() >= 2 {
        &text[1..text.len() - 1]
    } else {
        &[]
    }
}

/// The bytes between the quotes of the text at a place, kept in the arena.
#[tactic(auto, unfolding(tsa_tree::specs::tokens::Signs::identifier_at))]
pub fn text_at<'a>(reader: Reader<'a, '_>, at: u32) -> Result<&'a [u8], AllocError>
    ensures { IfOk result (λ text. text.now ≡ unquoted (identifier_at (input reader.entry) at).text) }
{
    match reader.tokens.get(at as usize) {
        Some(token) => {
            let text: &'a [u8] = reader
                .bump
                .try_alloc_slice_copy(without_quotes(token.text))?;
            Ok(text)
        }
        None => Ok(&[]),
    }
}

/// One more at the end of a list.
pub fn append<'a>(list: &mut Vec<Attr<'a>, &'a Bump>, item: Attr<'a>) -> Result<(), SyntaxRefusal>
    ensures gives { OnOk result (list.new.items ≡ list.old.items ++ item.entry ∷ []) }
    ensures memory { OnErr result (result ≡ Err SyntaxRefusal.NoMemory) }
{
    list.push(item)?;
    Ok(())
}

/// A list of attributes, kept in the arena.
pub fn into_arena<'a>(items: Vec<Attr<'a>, &'a Bump>) -> &'a [Attr<'a>]
    ensures { attr_shapes result.now ≡ attr_shapes items.entry.items }
{
    into_bump_slice(items)
}
