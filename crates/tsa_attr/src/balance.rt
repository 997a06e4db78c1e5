//! Balanced tokens are passed over.
ghost use Rattle.std.specs.Prelude.{◌≡◌, ◌+◌, ◌<◌, nat_eq, suc, IfOk};
ghost use Rattle.tsa_base.specs.declared.limits.TheConstants.{NESTING_LIMIT};
ghost use Rattle.tsa_tree.specs.Reads.{read};
ghost use Rattle.tsa_tree.specs.Rows.{mark, a_skip, balanced, closer_kind};
ghost use Rattle.tsa_expr.specs.Gives.{Gives};
ghost use Rattle.tsa_expr.specs.Source.{input, named};
ghost use Rattle.tsa_attr.specs.Readings.{IsBehind, passed, row_closer, opened_by};

use crate::view::is_plain;
use tsa_base::NESTING_LIMIT;
use tsa_expr::{Reader, SyntaxCode, SyntaxRefusal, refuse};
use tsa_tree::sign::Sign;

/// What closes balanced tokens.
#[derive(Clone, Copy)]
pub enum Closer {
    Parenthesis,
    Bracket,
    Brace,
}

/// Whether a sign closes them.
fn closes(closer: Closer, sign: Sign) -> bool
    ensures { result ≡ nat_eq (mark sign) (suc (closer_kind (row_closer closer))) }
{
    match closer {
        Closer::Parenthesis => match sign {
            Sign::Close => true,
            _ => false,
        },
        Closer::Bracket => match sign {
            Sign::CloseBracket => true,
            _ => false,
        },
        Closer::Brace => match sign {
            Sign::CloseBrace => true,
            _ => false,
        },
    }
}

/// What closes the list that a sign opens.
fn closer_of(sign: Sign) -> Option<Closer>
    ensures { result ≡ opened_by sign }
{
    match sign {
        Sign::Open => Some(Closer::Parenthesis),
        Sign::OpenBracket => Some(Closer::Bracket),
        Sign::OpenBrace => Some(Closer::Brace),
        _ => None,
    }
}

/// The place after balanced tokens and the token that closes them. Each parenthesis, bracket and brace is counted as open.
#[tactic(auto, using(crate::proofs::Balancing::balances))]
pub fn skip_balanced(
    reader: Reader<'_, '_>,
    at: u32,
    depth: u32,
    closer: Closer,
) -> Result<u32, SyntaxRefusal>
    ensures gives { Gives passed result (read (input reader.entry) a_skip (balanced (named reader.entry) depth (row_closer closer)) at) }
    ensures ends { IfOk result (IsBehind reader.entry at) }
{
    let mut next = at;
    'tokens: loop {
        let sign = reader.sign(next);
        if closes(closer, sign) {
            return Ok(next + 1);
        }
        match closer_of(sign) {
            Some(inner) => {
                if depth >= NESTING_LIMIT {
                    return Err(refuse(SyntaxCode::LM2, next));
                }
                next = skip_balanced(reader, next + 1, depth + 1, inner)?;
            }
            None => {
                if !is_plain(sign) {
                    return Err(refuse(SyntaxCode::SY1, next));
                }
                next += 1;
            }
        }
    }
}
