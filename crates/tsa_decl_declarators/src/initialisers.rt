//! Initialisers are read (C11 6.7.9). The recursion is as deep as braces may be nested.
ghost use Rattle.std.specs.Prelude.{◌≡◌, ◌≤◌, ◌<◌, length, IfOk};
ghost use Rattle.tsa_tree.specs.declarations.Syntax.{list};
ghost use Rattle.tsa_tree.specs.declarations.Shapes.{init_shape, init_shapes};
ghost use Rattle.tsa_tree.specs.Reads.{read};
ghost use Rattle.tsa_tree.specs.Rows.{an_initialiser, initialiser as initialiser_call};
ghost use Rattle.tsa_expr.specs.Source.{input, named};
ghost use Rattle.tsa_expr.specs.Gives.{Gives};
ghost use Rattle.tsa_decl_declarators.specs.Outcomes.{values_after, braced_at, expression_at};
ghost use Rattle.tsa_decl_declarators.specs.Readings.{seen_value};

use crate::nodes::{keep, listed};
use crate::view::is_close_brace_at;
use bumpalo::Bump;
use tsa_base::{NESTING_LIMIT, Span};
use tsa_expr::{Reader, SyntaxCode, SyntaxRefusal, refuse};
use tsa_tree::decl::Init;
use tsa_tree::sign::Sign;

/// An initialiser, and the token after it.
#[derive(Clone, Copy)]
pub struct InitialiserReading<'a> {
    pub init: Init<'a>,
    pub next: u32,
}

/// An expression, or initialisers in braces.
#[cycle(initialisers)]
#[tactic(auto, using(crate::proofs::ValueLaws::alone))]
pub fn initialiser<'a>(
    reader: Reader<'a, '_>,
    at: u32,
    depth: u32,
) -> Result<InitialiserReading<'a>, SyntaxRefusal>
    ensures gives { Gives seen_value result (read (input reader.entry) an_initialiser (initialiser_call (named reader.entry) depth) at) }
    ensures ends { IfOk result (λ r. (at < r.next) × (r.next ≤ length reader.entry.tokens.now)) }
{
    let Sign::OpenBrace = reader.sign(at) else {
        return expression_value(reader, at, depth);
    };
    if depth >= NESTING_LIMIT {
        return Err(refuse(SyntaxCode::LM2, at));
    }
    let mut items = Vec::new(reader.bump);
    let next = braced_list(reader, at + 1, depth + 1, &mut items)?;
    let span = reader.over(at, next);
    Ok(list_before(listed(items), span, next))
}

/// An expression that initialises.
#[tactic(auto, using(crate::proofs::ValueLaws::expressions))]
pub fn expression_value<'a>(
    reader: Reader<'a, '_>,
    at: u32,
    depth: u32,
) -> Result<InitialiserReading<'a>, SyntaxRefusal>
    ensures gives { Gives seen_value result (expression_at (input reader.entry) (named reader.entry) depth at) }
    ensures ends { IfOk result (λ r. (at < r.next) × (r.next ≤ length reader.entry.tokens.now)) }
{
    let inner = reader.expression(at, depth, 0)?;
    Ok(InitialiserReading {
        init: Init::Value(inner.tree),
        next: inner.next,
    })
}

/// Initialisers in braces that end before a token.
#[tactic(auto, using(crate::proofs::ValueLaws::lists_of))]
fn list_before<'a>(items: &'a [Init<'a>], span: Span, next: u32) -> InitialiserReading<'a>
    ensures is { init_shape result.init ≡ list (init_shapes items.entry.now) span }
    ensures next_is { result.next ≡ next }
{
    InitialiserReading {
        init: Init::List { items, span },
        next,
    }
}

/// Any number of initialisers, separated by commas, at the end of a list, and the brace that closes them.
#[cycle(initialisers)]
#[tactic(auto, using(crate::proofs::ValueLaws::values))]
fn braced_list<'a>(
    reader: Reader<'a, '_>,
    at: u32,
    depth: u32,
    list: &mut Vec<Init<'a>, &'a Bump>,
) -> Result<u32, SyntaxRefusal>
    ensures gives { Gives (λ next. (init_shapes list.new.items, next)) result
        (values_after (init_shapes list.old.items) (braced_at (input reader.entry) (named reader.entry) depth at)) }
    ensures ends { IfOk result (λ next. (at < next) × (next ≤ length reader.entry.tokens.now)) }
{
    let mut next = at;
    'values: loop {
        if is_close_brace_at(reader, next) {
            return Ok(next + 1);
        }
        let inner = initialiser(reader, next, depth)?;
        keep(list, inner.init)?;
        match reader.sign(inner.next) {
            Sign::Comma => next = inner.next + 1,
            Sign::CloseBrace => return Ok(inner.next + 1),
            _ => return Err(refuse(SyntaxCode::SY1, inner.next)),
        }
    }
}
