//! Locals are read (C11 6.8.2).
ghost use Rattle.std.specs.Prelude.{◌+◌, ◌≤◌, ◌<◌, length as count, IfOk};
ghost use Rattle.tsa_tree.specs.declarations.Shapes.{decl_shapes};
ghost use Rattle.tsa_tree.specs.Reads.{read};
ghost use Rattle.tsa_tree.specs.Rows.{a_variable, some_declarations, variable as variable_call, locals as locals_call};
ghost use Rattle.tsa_expr.specs.Source.{input, named};
ghost use Rattle.tsa_expr.specs.Gives.{Gives};
ghost use Rattle.tsa_decl_declarators.specs.Outcomes.{after, value_at, variables_at};
ghost use Rattle.tsa_decl_declarators.specs.Readings.{seen_init, seen_local, row_type};

use crate::declarations::{Initialisation, Suffix, declaration, no_initialiser, some_initialiser};
use crate::declarators::{declarator_at, length_at};
use crate::initialisers::expression_value;
use crate::nodes::{keep, listed};
use crate::types::{Specified, specifier};
use bumpalo::Bump;
use tsa_expr::{Reader, SyntaxRefusal};
use tsa_tree::decl::Decl;
use tsa_tree::sign::Sign;

/// A local, and the token after it.
#[derive(Clone, Copy)]
pub struct Local<'a> {
    pub decl: Decl<'a>,
    pub next: u32,
}

/// The expression that may initialise a local.
#[tactic(auto, using(crate::proofs::LocalLaws::values))]
fn value<'a>(
    reader: Reader<'a, '_>,
    at: u32,
    depth: u32,
) -> Result<Initialisation<'a>, SyntaxRefusal>
    ensures gives { Gives seen_init result (value_at (input reader.entry) (named reader.entry) depth at) }
    ensures ends { IfOk result (λ r. at ≤ r.next) }
    ensures within { IfOk result (λ r. at ≤ count reader.entry.tokens.now → r.next ≤ count reader.entry.tokens.now) }
{
    let Sign::Equals = reader.sign(at) else {
        return Ok(no_initialiser(at));
    };
    expression_value(reader, at + 1, depth).map(some_initialiser)
}

/// A local's declarator, and what initialises it.
#[tactic(auto, using(crate::proofs::LocalLaws::one_variable))]
fn variable<'a>(
    reader: Reader<'a, '_>,
    at: u32,
    depth: u32,
    specified: Specified<'a>,
) -> Result<Local<'a>, SyntaxRefusal>
    ensures gives { Gives seen_local result
        (read (input reader.entry) a_variable (variable_call (named reader.entry) depth (row_type specified.entry)) at) }
    ensures ends { IfOk result (λ r. (at < r.next) × (r.next ≤ count reader.entry.tokens.now)) }
{
    let declarator = declarator_at(reader, at)?;
    let length = length_at(reader, declarator.next, depth)?;
    let value = value(reader, length.next, depth)?;
    let span = reader.over(at, value.next);
    let suffix = Suffix {
        length: length.length,
        attrs: &[],
        init: value.init,
        next: value.next,
    };
    Ok(Local {
        decl: declaration(specified, declarator, suffix, span),
        next: value.next,
    })
}

/// Locals after their type, at the end of a list: one or more, or one alone where `single` is true.
#[tactic(auto, using(crate::proofs::LocalLaws::lists))]
fn variables<'a>(
    reader: Reader<'a, '_>,
    depth: u32,
    single: bool,
    specified: Specified<'a>,
    list: &mut Vec<Decl<'a>, &'a Bump>,
) -> Result<u32, SyntaxRefusal>
    ensures gives { Gives (λ next. (decl_shapes list.new.items, next)) result
        (after (decl_shapes list.old.items)
        (variables_at (input reader.entry) (named reader.entry) single depth (row_type specified.entry) specified.entry.next)) }
    ensures few { IfOk result (λ next. count list.new.items + specified.entry.next ≤ count list.old.items + next) }
    ensures ends { IfOk result (λ next. (specified.entry.next < next) × (next ≤ count reader.entry.tokens.now)) }
{
    let mut next = specified.next;
    'variables: loop {
        let local = variable(reader, next, depth, specified)?;
        keep(list, local.decl)?;
        next = local.next;
        if single {
            return Ok(next);
        }
        let Sign::Comma = reader.sign(next) else {
            return Ok(next);
        };
        next += 1;
    }
}

/// A type and its locals, up to before their `;`, or one local alone where `single` is true.
#[tactic(auto, using(crate::proofs::LocalLaws::behind_types))]
pub fn read_locals<'a>(
    reader: Reader<'a, '_>,
    at: u32,
    depth: u32,
    single: bool,
) -> Result<(&'a [Decl<'a>], u32), SyntaxRefusal>
    ensures gives { Gives (λ found. (decl_shapes found.0.now, found.1)) result
        (read (input reader.entry) some_declarations (locals_call (named reader.entry) single depth) at) }
    ensures few { IfOk result (λ found. count found.0.now + at ≤ found.1) }
    ensures ends { IfOk result (λ found. (at < found.1) × (found.1 ≤ count reader.entry.tokens.now)) }
{
    let specified = specifier(reader, at)?;
    let mut list = Vec::new(reader.bump);
    let next = variables(reader, depth, single, specified, &mut list)?;
    let list = listed(list);
    Ok((list, next))
}
