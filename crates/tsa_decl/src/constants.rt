//! The enumerators of an enum are read (C11 6.7.2.2).
ghost use Rattle.std.specs.Prelude.{◌≤◌, ◌<◌, length, IfOk};
ghost use Rattle.tsa_tree.specs.declarations.Shapes.{enumerator_shapes};
ghost use Rattle.tsa_tree.specs.Reads.{read};
ghost use Rattle.tsa_tree.specs.Rows.{some_constants, constants as constants_call, enum_body as body_call};
ghost use Rattle.tsa_expr.specs.Source.{input, named};
ghost use Rattle.tsa_expr.specs.Gives.{Gives};
ghost use Rattle.tsa_decl_declarators.specs.Outcomes.{after};
ghost use Rattle.tsa_decl.specs.Outcomes.{constant_at as spec_constant};
ghost use Rattle.tsa_decl.specs.Readings.{seen_constant};

use bumpalo::Bump;
use tsa_decl_declarators::{is_close_brace_at, keep, listed, name, open_brace};
use tsa_expr::{Reader, SyntaxCode, SyntaxRefusal, refuse};
use tsa_tree::item::Enumerator;
use tsa_tree::sign::Sign;

/// An enumerator, and the token after it.
#[derive(Clone, Copy)]
pub struct Constant<'a> {
    pub constant: Enumerator<'a>,
    pub next: u32,
}

/// An enumerator, with its value where one is written.
#[tactic(auto, using(crate::proofs::EnumeratorLaws::alone))]
fn constant_at<'a>(reader: Reader<'a, '_>, at: u32) -> Result<Constant<'a>, SyntaxRefusal>
    ensures gives { Gives seen_constant result (spec_constant (input reader.entry) (named reader.entry) at) }
    ensures ends { IfOk result (λ r. (at < r.next) × (r.next ≤ length reader.entry.tokens.now)) }
{
    let name = name(reader, at)?;
    let Sign::Equals = reader.sign(at + 1) else {
        return Ok(Constant {
            constant: Enumerator { name, value: None },
            next: at + 1,
        });
    };
    let inner = reader.expression(at + 1 + 1, 1, 0)?;
    Ok(Constant {
        constant: Enumerator {
            name,
            value: Some(inner.tree),
        },
        next: inner.next,
    })
}

/// Enumerators separated by commas, one or more, at the end of a list, and the brace that closes them.
#[tactic(auto, using(crate::proofs::EnumeratorLaws::listed))]
fn constants<'a>(
    reader: Reader<'a, '_>,
    at: u32,
    list: &mut Vec<Enumerator<'a>, &'a Bump>,
) -> Result<u32, SyntaxRefusal>
    ensures gives { Gives (λ next. (enumerator_shapes list.new.items, next)) result
        (after (enumerator_shapes list.old.items) (read (input reader.entry) some_constants (constants_call (named reader.entry)) at)) }
    ensures ends { IfOk result (λ next. (at < next) × (next ≤ length reader.entry.tokens.now)) }
{
    let mut next = at;
    'constants: loop {
        let inner = constant_at(reader, next)?;
        keep(list, inner.constant)?;
        match reader.sign(inner.next) {
            Sign::Comma => next = inner.next + 1,
            Sign::CloseBrace => return Ok(inner.next + 1),
            _ => return Err(refuse(SyntaxCode::SY1, inner.next)),
        }
        if is_close_brace_at(reader, next) {
            return Ok(next + 1);
        }
    }
}

/// The enumerators of an enum with both braces.
#[tactic(auto, using(crate::proofs::EnumeratorLaws::bodies))]
pub fn enum_body<'a>(
    reader: Reader<'a, '_>,
    at: u32,
) -> Result<(&'a [Enumerator<'a>], u32), SyntaxRefusal>
    ensures gives { Gives (λ found. (enumerator_shapes found.0.now, found.1)) result
        (read (input reader.entry) some_constants (body_call (named reader.entry)) at) }
    ensures ends { IfOk result (λ found. (at < found.1) × (found.1 ≤ length reader.entry.tokens.now)) }
{
    let inside = open_brace(reader, at, 0)?;
    let mut list = Vec::new(reader.bump);
    let next = constants(reader, inside, &mut list)?;
    let list = listed(list);
    Ok((list, next))
}
