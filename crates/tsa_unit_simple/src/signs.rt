//! What statements see of a sign.
ghost use Rattle.std.specs.Prelude.{◌≡◌, ◌≢◌, None, true};
ghost use Rattle.tsa_tree.specs.tokens.Signs.{assigns as spec_assigns, begins_type as spec_begins_type};
ghost use Rattle.tsa_tree.specs.tokens.Signs.{begins_statement as spec_begins_statement};
ghost use Rattle.tsa_unit_simple.specs.Outcomes.{step_in, closes_block as spec_closes_block};

use tsa_tree::expr::BinaryOp;
use tsa_tree::sign::{Keyword, Sign};

/// What `++` and `--` do: they add and subtract.
pub fn step_of(sign: Sign) -> Option<BinaryOp>
    ensures is { result ≡ step_in sign }
    ensures real { result ≢ None → sign ≢ Sign.End }
{
    match sign {
        Sign::Step(op) => Some(op),
        _ => None,
    }
}

/// The operator of an assignment, where a sign is one: `=` has none (C11 6.5.16).
pub fn assigns(sign: Sign) -> Option<Option<BinaryOp>>
    ensures is { result ≡ spec_assigns sign }
    ensures real { result ≢ None → sign ≢ Sign.End }
{
    match sign {
        Sign::Equals => Some(None),
        Sign::Assign(op) => Some(Some(op)),
        _ => None,
    }
}

/// Whether a sign closes a block (C11 6.8.2).
pub fn closes_block(sign: Sign) -> bool
    ensures is { result ≡ spec_closes_block sign }
    ensures real { result ≡ true → sign ≢ Sign.End }
{
    match sign {
        Sign::CloseBrace => true,
        _ => false,
    }
}

/// Whether a sign begins a type, and so a declaration in a block (C11 6.8.2).
pub fn begins_type(sign: Sign) -> bool
    ensures { result ≡ spec_begins_type sign }
{
    match sign {
        Sign::TypeName => true,
        Sign::Keyword(
            Keyword::Const
            | Keyword::Int
            | Keyword::Unsigned
            | Keyword::Signed
            | Keyword::Void
            | Keyword::Struct
            | Keyword::Enum,
        ) => true,
        _ => false,
    }
}

/// Whether a sign begins a statement that may be the body of another one: no declaration does (C11 6.8).
pub fn begins_statement(sign: Sign) -> bool
    ensures { result ≡ spec_begins_statement sign }
{
    match sign {
        Sign::OpenBrace | Sign::Semicolon | Sign::Step(_) => true,
        Sign::Name | Sign::Number | Sign::Null | Sign::Open | Sign::Not | Sign::Flip => true,
        Sign::Operator(BinaryOp::Minus | BinaryOp::BitAnd | BinaryOp::Times) => true,
        Sign::Keyword(word) => begins_with(word),
        _ => false,
    }
}

/// Whether a statement begins with a keyword.
fn begins_with(word: Keyword) -> bool
    ensures { result ≡ spec_begins_statement (Sign.Keyword word) }
{
    match word {
        Keyword::If | Keyword::While | Keyword::Do | Keyword::For | Keyword::Switch => true,
        Keyword::Case | Keyword::Default => true,
        Keyword::Break | Keyword::Continue | Keyword::Goto | Keyword::Return => true,
        _ => false,
    }
}
