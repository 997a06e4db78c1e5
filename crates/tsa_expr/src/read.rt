//! Expressions and unary expressions, as the parts of a unit ask for them.
ghost use Rattle.std.specs.Prelude.{◌≡◌, ◌≤◌, ◌<◌, ℕ, length, [], IfOk, IsErrOf};
ghost use Rattle.tsa_base.specs.declared.limits.TheConstants.{INPUT_LIMIT};
ghost use Rattle.tsa_tree.specs.expressions.Answers.{an_expression, a_unary, IsLongest, IsBroken, IsTooDeep};
ghost use Rattle.tsa_tree.specs.expressions.Shapes.{shape};
ghost use Rattle.tsa_tree.specs.tokens.Signs.{lexemes};
ghost use Rattle.tsa_expr.specs.Gives.{IsOfExpressions};

use crate::refusal::{SyntaxCode, SyntaxRefusal};
use crate::source::Reader;
use bumpalo::Bump;
use tsa_base::Token;
use tsa_tree::expr::Expr;

/// The longest expression at a token, where `depth` constructs are open and no names of types are known, and the token
/// after it. Of the tokens from `at` on the longest list that begins an expression decides: SY1 stands at the token after it
/// where it spells none, and LM2 at the first of its tokens that passes the limit, whether it spells one or not (C11 6.5).
#[tactic(auto, using(crate::proofs::Exact::expression_no_other))]
pub fn read_expr<'a>(
    bump: &'a Bump,
    tokens: &[Token<'_>],
    at: u32,
    depth: u32,
) -> Result<(Expr<'a>, u32), SyntaxRefusal>
    requires room { length tokens.now ≤ INPUT_LIMIT }
    ensures found { IfOk result (λ found. IsLongest (lexemes tokens.now) [] an_expression depth at (shape found.0) found.1) }
    ensures broken { (token : ℕ) → IsErrOf result (SyntaxRefusal.At SyntaxCode.SY1 token)
        → IsBroken (lexemes tokens.now) [] an_expression depth at token }
    ensures too_deep { (token : ℕ) → IsErrOf result (SyntaxRefusal.At SyntaxCode.LM2 token)
        → IsTooDeep (lexemes tokens.now) [] an_expression depth at token }
    ensures no_other { (refusal : _) → IsErrOf result refusal → IsOfExpressions refusal }
    ensures next { IfOk result (λ found. (at < found.1) × (found.1 ≤ length tokens.now)) }
{
    match (Reader {
        bump,
        tokens,
        aliases: None,
    })
    .expression(at, depth, 0)
    {
        Ok(reading) => Ok((reading.tree, reading.next)),
        Err(refusal) => Err(refusal),
    }
}

/// The longest unary expression at a token, as the operand of a prefix `++` or `--`, and the token after it; refused as
/// `read_expr` refuses (C11 6.5.3).
#[tactic(auto, using(crate::proofs::Exact::unary_no_other))]
pub fn read_unary<'a>(
    bump: &'a Bump,
    tokens: &[Token<'_>],
    at: u32,
    depth: u32,
) -> Result<(Expr<'a>, u32), SyntaxRefusal>
    requires room { length tokens.now ≤ INPUT_LIMIT }
    ensures found { IfOk result (λ found. IsLongest (lexemes tokens.now) [] a_unary depth at (shape found.0) found.1) }
    ensures broken { (token : ℕ) → IsErrOf result (SyntaxRefusal.At SyntaxCode.SY1 token)
        → IsBroken (lexemes tokens.now) [] a_unary depth at token }
    ensures too_deep { (token : ℕ) → IsErrOf result (SyntaxRefusal.At SyntaxCode.LM2 token)
        → IsTooDeep (lexemes tokens.now) [] a_unary depth at token }
    ensures no_other { (refusal : _) → IsErrOf result refusal → IsOfExpressions refusal }
    ensures next { IfOk result (λ found. (at < found.1) × (found.1 ≤ length tokens.now)) }
{
    match (Reader {
        bump,
        tokens,
        aliases: None,
    })
    .operand(at, depth)
    {
        Ok(reading) => Ok((reading.tree, reading.next)),
        Err(refusal) => Err(refusal),
    }
}
