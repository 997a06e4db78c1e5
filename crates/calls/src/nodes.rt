//! Expressions and attributes, where their nodes stand in the text, and those of a given depth.
ghost use Rattle.std.specs.Prelude.{◌≤◌, length};
ghost use Rattle.tsa_base.specs.declared.limits.TheConstants.{INPUT_LIMIT as LONGEST};

use crate::texts::{put, put_number, put_span};
use crate::units::{Row, Shown, others};
use bumpalo::Bump;
use std::test::Fail;
use tsa_attr::read_attributes;
use tsa_base::Token;
use tsa_expr::{SyntaxCode, SyntaxRefusal, read_expr, read_unary};
use tsa_print::print_expr;
use tsa_tree::attr::Attr;
use tsa_tree::expr::Expr;

// The bytes of an expression, and the token after it.
fn put_expression(out: &mut Vec<u8>, text: &[u8], expr: &Expr<'_>, next: u32) -> Result<(), Fail> {
    put_span(out, text, expr.span)?;
    put_number(out, next)
}

// The canonical text of an expression.
fn put_canonical(out: &mut Vec<u8>, expr: &Expr<'_>) -> Result<(), Fail> {
    put(out, &print_expr(*out.allocator(), expr)?)?;
    put(out, b" ")
}

// An expression that was read, with its canonical text.
fn put_whole(
    out: &mut Vec<u8>,
    text: &[u8],
    found: Result<(Expr<'_>, u32), SyntaxRefusal>,
) -> Result<(), Fail> {
    let (expr, next) = found?;
    put_expression(out, text, &expr, next)?;
    put_canonical(out, &expr)
}

// A unary expression that was read, without its canonical text.
fn put_unary(
    out: &mut Vec<u8>,
    text: &[u8],
    found: Result<(Expr<'_>, u32), SyntaxRefusal>,
) -> Result<(), Fail> {
    let (expr, next) = found?;
    put_expression(out, text, &expr, next)
}

/// The expression that a text begins with: its bytes, the token after it, and its canonical text. Then the same of the
/// unary expression, without its canonical text.
pub fn put_expressions<'a>(
    out: &mut Vec<u8>,
    text: &[u8],
    bump: &'a Bump,
    tokens: &[Token<'_>],
) -> Result<(), Fail>
    requires few { length tokens.now ≤ LONGEST }
{
    put_whole(out, text, read_expr(bump, tokens, 0, 0))?;
    put_unary(out, text, read_unary(bump, tokens, 0, 0))
}

// Texts with the expression and the unary expression that they begin with.
const EXPRESSIONS: [Row; 10] = [
    (b" a ", b"'a' 1 a 'a' 1 "),
    (b"(a)", b"'a' 3 a 'a' 3 "),
    (b"(a)-(b) c", b"'(a)-(b)' 7 a - b 'a' 3 "),
    (b"- (a), b", b"'- (a)' 4 -a '- (a)' 4 "),
    (b"f( a, b ) ;", b"'f( a, b )' 6 f(a, b) 'f( a, b )' 6 "),
    (b"f ( )", b"'f ( )' 3 f() 'f ( )' 3 "),
    (b"(a)[ 1 ]=", b"'(a)[ 1 ]' 6 a[1] '(a)[ 1 ]' 6 "),
    (b"a = b", b"'a' 1 a 'a' 1 "),
    (b"(a) . b + 1", b"'(a) . b + 1' 7 a.b + 1 '(a) . b' 5 "),
    (b"*p.f + 1", b"'*p.f + 1' 6 *p.f + 1 '*p.f' 4 "),
];

#[test]
fn an_expression_has_its_span(rt: HostRuntime) -> Result<(), Fail> {
    let others = others(rt.alloc(), Shown::Expressions, &EXPRESSIONS)?;
    assert_eq!(rt; others.as_slice(), b"".as_slice());
    Ok(())
}

// The bytes of an attribute and of its expressions.
fn put_attribute(out: &mut Vec<u8>, text: &[u8], attribute: &Attr<'_>) -> Result<(), Fail> {
    put_span(out, text, attribute.span)?;
    'each: for argument in attribute.args {
        put_span(out, text, argument.span)?;
    }
    Ok(())
}

// Some attributes.
fn put_all(out: &mut Vec<u8>, text: &[u8], attributes: &[Attr<'_>]) -> Result<(), Fail> {
    'each: for attribute in attributes {
        put_attribute(out, text, attribute)?;
    }
    Ok(())
}

// The token where one construct too many is opened.
fn put_refusal(out: &mut Vec<u8>, refusal: SyntaxRefusal) -> Result<(), Fail> {
    match refusal {
        SyntaxRefusal::At {
            code: SyntaxCode::LM2,
            token,
        } => {
            put(out, b"too deep ")?;
            put_number(out, token)
        }
        refusal => Err(Fail::from(refusal)),
    }
}

/// The attributes that a text begins with at a depth: the bytes of each and of its expressions, and the token after them;
/// or the token where one construct too many is opened.
pub fn put_attributes<'a>(
    out: &mut Vec<u8>,
    text: &[u8],
    bump: &'a Bump,
    tokens: &[Token<'_>],
    depth: u32,
) -> Result<(), Fail>
    requires few { length tokens.now ≤ LONGEST }
{
    match read_attributes(bump, tokens, 0, depth) {
        Ok((attributes, next)) => {
            put_all(out, text, attributes)?;
            put_number(out, next)
        }
        Err(refusal) => put_refusal(out, refusal),
    }
}

// Depths, texts, and the attributes that stand there.
const ATTRIBUTES: [(u32, &[Row]); 6] = [
    (
        0,
        &[
            (b"x", b"0 "),
            (b"CAPABILITY(\"mutex\") x", b"'CAPABILITY(\"mutex\")' 4 "),
            (b"GUARDED_BY( a ) ;", b"'GUARDED_BY( a )' 'a' 4 "),
            (b"GUARDED_BY(&p->m)", b"'GUARDED_BY(&p->m)' '&p->m' 7 "),
            (b"REQUIRES(a, b[1])", b"'REQUIRES(a, b[1])' 'a' 'b[1]' 9 "),
            (
                b"TRY_ACQUIRE_SHARED(0, a, b)",
                b"'TRY_ACQUIRE_SHARED(0, a, b)' 'a' 'b' 8 ",
            ),
            (b"__attribute__(()) x", b"5 "),
            (
                b"__attribute__((__guarded_by__(a)))",
                b"'__guarded_by__(a)' 'a' 9 ",
            ),
            (
                b"__attribute__((guarded_by(a), const, __excludes__, locks_excluded(b, c)))",
                b"'guarded_by(a)' 'a' 'locks_excluded(b, c)' 'b' 'c' 20 ",
            ),
            (
                b"ACQUIRE(a) __attribute__((aligned(4), release_capability(b))) EXCLUDES(c)",
                b"'ACQUIRE(a)' 'a' 'release_capability(b)' 'b' 'EXCLUDES(c)' 'c' 22 ",
            ),
        ],
    ),
    (
        100,
        &[
            (b"GUARDED_BY(a)", b"too deep 1 "),
            (b"__attribute__((a))", b"too deep 1 "),
        ],
    ),
    (
        99,
        &[
            (b"GUARDED_BY(a)", b"'GUARDED_BY(a)' 'a' 4 "),
            (b"GUARDED_BY((a))", b"too deep 2 "),
            (b"CAPABILITY(\"a\")", b"'CAPABILITY(\"a\")' 4 "),
            (b"TRY_ACQUIRE(1, (a))", b"too deep 4 "),
            (b"__attribute__((a))", b"too deep 2 "),
        ],
    ),
    (
        98,
        &[
            (b"__attribute__((a))", b"6 "),
            (b"__attribute__((a(1)))", b"too deep 4 "),
            (b"__attribute__((guarded_by(a)))", b"too deep 4 "),
        ],
    ),
    (
        97,
        &[
            (b"__attribute__((a(1)))", b"9 "),
            (b"__attribute__((a([])))", b"too deep 5 "),
            (b"__attribute__((guarded_by(a)))", b"'guarded_by(a)' 'a' 9 "),
        ],
    ),
    (96, &[(b"__attribute__((a({}[]())))", b"14 ")]),
];

#[test]
fn attributes_have_their_spans_and_their_depth(rt: HostRuntime) -> Result<(), Fail> {
    'each: for (depth, rows) in &ATTRIBUTES {
        let others = others(rt.alloc(), Shown::Attributes(*depth), rows)?;
        assert_eq!(rt; others.as_slice(), b"".as_slice());
    }
    Ok(())
}
