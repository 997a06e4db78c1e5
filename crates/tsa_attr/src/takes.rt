//! An attribute is read, from its name or macro word to its parenthesis.
ghost use Rattle.std.specs.Prelude.{◌<◌, IfOk};
ghost use Rattle.tsa_tree.specs.attributes.Syntax as takes;
ghost use Rattle.tsa_tree.specs.attributes.Syntax.{attr_shapes};
ghost use Rattle.tsa_expr.specs.Gives.{Gives};
ghost use Rattle.tsa_expr.specs.Source.{input, named};
ghost use Rattle.tsa_attr.specs.Outcomes.{after, arguments_at, attribute_at};
ghost use Rattle.tsa_attr.specs.Readings.{IsBehind, seen};

use crate::nodes::{append, list_of_one, of_args, of_expressions, of_list, of_text, text_at};
use crate::reading::{AttributeName, Reading};
use crate::view::{Content, close, content_of, lacks_inside, try_value_at};
use bumpalo::Bump;
use tsa_base::NESTING_LIMIT;
use tsa_expr::{Reader, SyntaxCode, SyntaxRefusal, refuse};
use tsa_tree::attr::Attr;
use tsa_tree::sign::Sign;

/// An attribute at the end of a list, and the token after it.
#[tactic(auto, using(crate::proofs::Contents::appended))]
pub fn append_attribute<'a>(
    reader: Reader<'a, '_>,
    name: AttributeName,
    depth: u32,
    list: &mut Vec<Attr<'a>, &'a Bump>,
) -> Result<u32, SyntaxRefusal>
    ensures gives { Gives (λ next. (attr_shapes list.new.items, next)) result
        (after (attr_shapes list.old.items) (attribute_at (input reader.entry) (named reader.entry) depth name.kind name.at)) }
    ensures ends { IfOk result (IsBehind reader.entry name.at) }
{
    let reading = attribute(reader, name, depth)?;
    append(list, reading.attr)?;
    Ok(reading.next)
}

/// An attribute, by what stands after its name.
#[tactic(auto, using(crate::proofs::Contents::attributes))]
fn attribute<'a>(
    reader: Reader<'a, '_>,
    name: AttributeName,
    depth: u32,
) -> Result<Reading<'a>, SyntaxRefusal>
    ensures gives { Gives seen result (attribute_at (input reader.entry) (named reader.entry) depth name.kind name.at) }
    ensures ends { IfOk result (λ r. IsBehind reader.entry name.at r.next) }
{
    let sign = reader.sign(name.at + 1);
    if let Sign::End = sign {
        return Err(refuse(SyntaxCode::SY1, name.at + 1));
    }
    let Sign::Open = sign else {
        return Err(refuse(SyntaxCode::AT2, name.at));
    };
    if lacks_inside(reader, name) {
        return Err(refuse(SyntaxCode::AT2, name.at));
    }
    if depth >= NESTING_LIMIT {
        return Err(refuse(SyntaxCode::LM2, name.at + 1));
    }
    match content_of(name.kind) {
        Content::Text => text(reader, name, depth + 1),
        Content::Expression => expression(reader, name, depth + 1),
        Content::Expressions => expressions(reader, name, depth + 1),
        Content::Try => attempt(reader, name, depth + 1),
    }
}

/// A text and the closing parenthesis.
#[tactic(auto, using(crate::proofs::Contents::texts))]
fn text<'a>(
    reader: Reader<'a, '_>,
    name: AttributeName,
    depth: u32,
) -> Result<Reading<'a>, SyntaxRefusal>
    ensures gives { Gives seen result (arguments_at (input reader.entry) (named reader.entry) depth name.kind name.at takes.a_text) }
    ensures ends { IfOk result (λ r. IsBehind reader.entry name.at r.next) }
{
    let at = name.at + 1 + 1;
    let Sign::Text = reader.sign(at) else {
        return Err(refuse(SyntaxCode::SY1, at));
    };
    let next = close(reader, at + 1)?;
    let text = text_at(reader, at)?;
    let attr = of_text(name.kind, text, reader.over(name.at, next));
    Ok(Reading { attr, next })
}

/// One expression and the closing parenthesis.
#[tactic(auto, using(crate::proofs::Contents::expressions))]
fn expression<'a>(
    reader: Reader<'a, '_>,
    name: AttributeName,
    depth: u32,
) -> Result<Reading<'a>, SyntaxRefusal>
    ensures gives { Gives seen result (arguments_at (input reader.entry) (named reader.entry) depth name.kind name.at takes.one_expression) }
    ensures ends { IfOk result (λ r. IsBehind reader.entry name.at r.next) }
{
    let inner = reader.expression(name.at + 1 + 1, depth, 0)?;
    let next = close(reader, inner.next)?;
    let args = list_of_one(reader.bump, inner.tree)?;
    let attr = of_args(name.kind, None, args, reader.over(name.at, next));
    Ok(Reading { attr, next })
}

/// Expressions and the closing parenthesis.
#[tactic(auto, using(crate::proofs::Contents::lists))]
fn expressions<'a>(
    reader: Reader<'a, '_>,
    name: AttributeName,
    depth: u32,
) -> Result<Reading<'a>, SyntaxRefusal>
    ensures gives { Gives seen result (arguments_at (input reader.entry) (named reader.entry) depth name.kind name.at takes.expressions) }
    ensures ends { IfOk result (λ r. IsBehind reader.entry name.at r.next) }
{
    let args = reader.arguments(name.at + 1 + 1, depth)?;
    of_expressions(reader, name, args)
}

/// The result of a try, a comma, expressions and the closing parenthesis.
#[tactic(auto, using(crate::proofs::Contents::attempts))]
fn attempt<'a>(
    reader: Reader<'a, '_>,
    name: AttributeName,
    depth: u32,
) -> Result<Reading<'a>, SyntaxRefusal>
    ensures gives { Gives seen result (arguments_at (input reader.entry) (named reader.entry) depth name.kind name.at takes.a_try) }
    ensures ends { IfOk result (λ r. IsBehind reader.entry name.at r.next) }
{
    let at = name.at + 1 + 1;
    let Some(success) = try_value_at(reader, at) else {
        return Err(refuse(SyntaxCode::SY1, at));
    };
    let Sign::Comma = reader.sign(at + 1) else {
        return Err(refuse(SyntaxCode::SY1, at + 1));
    };
    let args = reader.arguments(at + 1 + 1, depth)?;
    Ok(of_list(reader, name, Some(success), args))
}
