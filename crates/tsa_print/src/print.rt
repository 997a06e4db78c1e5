//! Expressions are written as canonical text.
ghost use Rattle.std.specs.Prelude.{◌≡◌, ◌++◌, [], if◌then◌else◌, IfOk, OnOk};
ghost use Rattle.tsa_tree.specs.expressions.Syntax.{call, unary, binary, field, index, nowhere};
ghost use Rattle.tsa_tree.specs.expressions.Shapes.{name_shape, shape, shapes};
ghost use Rattle.tsa_print.specs.Canonical.{numeral, piece_text, operator_text as spec_operator_text, prefix_text as spec_prefix_text};
ghost use Rattle.tsa_print.specs.Canonical.{pieces, arguments, written, canonical};

use itoa::Buffer;
use std::alloc::Global;
use tsa_base::NoMemory;
use tsa_tree::expr::{BinaryOp, Expr, ExprKind, Name, UnaryOp};

/// The canonical text of an expression: with the fewest parentheses, and with no line end. Want of memory is the only
/// error. Recursion is as deep as the tree is high.
#[tactic(auto, unfolding(crate::specs::Canonical::canonical))]
pub fn print_expr(alloc: Global, expr: &Expr<'_>) -> Result<Vec<u8>, NoMemory>
    ensures text { IfOk result (λ text. text.items ≡ canonical (shape expr.now)) }
{
    let mut out = Vec::new(alloc);
    write_expr(&mut out, expr, 0)?;
    Ok(out)
}

/// The bytes of an operator.
pub fn operator_text(op: BinaryOp) -> &'static [u8]
    ensures { result.now ≡ spec_operator_text op }
{
    match op {
        BinaryOp::Or => b"||",
        BinaryOp::And => b"&&",
        BinaryOp::BitOr => b"|",
        BinaryOp::BitXor => b"^",
        BinaryOp::BitAnd => b"&",
        BinaryOp::Equal => b"==",
        BinaryOp::Unequal => b"!=",
        BinaryOp::Less => b"<",
        BinaryOp::More => b">",
        BinaryOp::LessEqual => b"<=",
        BinaryOp::MoreEqual => b">=",
        BinaryOp::Plus => b"+",
        BinaryOp::Minus => b"-",
        BinaryOp::Times => b"*",
        BinaryOp::Divide => b"/",
        BinaryOp::Remainder => b"%",
    }
}

fn prefix_text(op: UnaryOp) -> &'static [u8]
    ensures { result.now ≡ spec_prefix_text op }
{
    match op {
        UnaryOp::Minus => b"-",
        UnaryOp::Not => b"!",
        UnaryOp::Flip => b"~",
        UnaryOp::Address => b"&",
        UnaryOp::Follow => b"*",
    }
}

/// Appends a text, where it is needed.
pub fn append_if(out: &mut Vec<u8>, needed: bool, text: &[u8]) -> Result<(), NoMemory>
    ensures { OnOk result (out.new.items ≡ out.old.items ++ (if needed then text.now else [])) }
{
    if needed {
        out.extend_from_slice(text)?;
    }
    Ok(())
}

/// Appends a text.
pub fn append(out: &mut Vec<u8>, text: &[u8]) -> Result<(), NoMemory>
    ensures { OnOk result (out.new.items ≡ out.old.items ++ text.now) }
{
    out.extend_from_slice(text)?;
    Ok(())
}

/// Appends a number in decimal, with `u` after an unsigned one.
pub fn write_number(out: &mut Vec<u8>, value: u32, unsigned: bool) -> Result<(), NoMemory>
    ensures { OnOk result (out.new.items ≡ out.old.items ++ piece_text (numeral value unsigned)) }
{
    let mut digits = Buffer::new();
    out.extend_from_slice(digits.format(value).as_bytes())?;
    append_if(out, unsigned, b"u")
}

/// Appends an expression, in parentheses where it binds looser than its place needs.
#[cycle(printing)]
#[tactic(auto, using(crate::proofs::WrittenParts::written_one))]
pub fn write_expr(out: &mut Vec<u8>, expr: &Expr<'_>, place: u32) -> Result<(), NoMemory>
    ensures { OnOk result (out.new.items ≡ out.old.items ++ written (pieces (shape expr.now) place)) }
{
    match &expr.kind {
        ExprKind::Number { value, unsigned } => write_number(out, *value, *unsigned),
        ExprKind::Null => append(out, b"NULL"),
        ExprKind::Named(name) => append(out, name.text),
        ExprKind::Call { callee, args } => write_call(out, *callee, args),
        ExprKind::Unary { op, inner } => write_unary(out, *op, inner, place),
        ExprKind::Binary { op, left, right } => write_binary(out, *op, left, right, place),
        ExprKind::Field { base, name, arrow } => write_field(out, base, *name, *arrow),
        ExprKind::Index { base, index } => write_index(out, base, index),
    }
}

// Appends a call.
#[cycle(printing)]
fn write_call(out: &mut Vec<u8>, callee: Name<'_>, args: &[Expr<'_>]) -> Result<(), NoMemory>
    ensures { OnOk result (out.new.items ≡ out.old.items ++ written (pieces (call (name_shape callee.entry) (shapes args.now) nowhere) 0)) }
{
    out.extend_from_slice(callee.text)?;
    out.extend_from_slice(b"(")?;
    write_arguments(out, args)?;
    out.extend_from_slice(b")")?;
    Ok(())
}

// Appends arguments, with a comma and a blank before each but the first.
#[cycle(printing)]
fn write_arguments(out: &mut Vec<u8>, args: &[Expr<'_>]) -> Result<(), NoMemory>
    ensures { OnOk result (out.new.items ≡ out.old.items ++ written (arguments (shapes args.now))) }
{
    let mut separator: &'static [u8] = b"";
    'each: for arg in args {
        out.extend_from_slice(separator)?;
        write_expr(out, arg, 0)?;
        separator = b", ";
    }
    Ok(())
}

// Appends a prefix operator and its operand.
#[cycle(printing)]
fn write_unary(out: &mut Vec<u8>, op: UnaryOp, inner: &Expr<'_>, place: u32) -> Result<(), NoMemory>
    ensures { OnOk result (out.new.items ≡ out.old.items ++ written (pieces (unary op (shape inner.now) nowhere) place)) }
{
    let loose = 10 < place;
    append_if(out, loose, b"(")?;
    out.extend_from_slice(prefix_text(op))?;
    write_expr(out, inner, 11)?;
    append_if(out, loose, b")")
}

// Appends a binary operator between its operands, with a blank on each side.
#[cycle(printing)]
fn write_binary(
    out: &mut Vec<u8>,
    op: BinaryOp,
    left: &Expr<'_>,
    right: &Expr<'_>,
    place: u32,
) -> Result<(), NoMemory>
    ensures { OnOk result (out.new.items ≡ out.old.items ++ written (pieces (binary op (shape left.now) (shape right.now) nowhere) place)) }
{
    let own = op.level();
    let loose = own < place;
    append_if(out, loose, b"(")?;
    write_expr(out, left, own)?;
    out.extend_from_slice(b" ")?;
    out.extend_from_slice(operator_text(op))?;
    out.extend_from_slice(b" ")?;
    write_expr(out, right, own + 1)?;
    append_if(out, loose, b")")
}

// Appends a base and the name of its member.
#[cycle(printing)]
fn write_field(
    out: &mut Vec<u8>,
    base: &Expr<'_>,
    name: Name<'_>,
    arrow: bool,
) -> Result<(), NoMemory>
    ensures { OnOk result (out.new.items ≡ out.old.items
        ++ written (pieces (field (shape base.now) (name_shape name.entry) arrow nowhere) 0)) }
{
    write_expr(out, base, 11)?;
    let sign: &'static [u8] = if arrow { b"->" } else { b"." };
    out.extend_from_slice(sign)?;
    out.extend_from_slice(name.text)?;
    Ok(())
}

// Appends a base and an index in brackets.
#[cycle(printing)]
fn write_index(out: &mut Vec<u8>, array: &Expr<'_>, at: &Expr<'_>) -> Result<(), NoMemory>
    ensures { OnOk result (out.new.items ≡ out.old.items ++ written (pieces (index (shape array.now) (shape at.now) nowhere) 0)) }
{
    write_expr(out, array, 11)?;
    out.extend_from_slice(b"[")?;
    write_expr(out, at, 0)?;
    out.extend_from_slice(b"]")?;
    Ok(())
}
