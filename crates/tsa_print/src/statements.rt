//! Statements are put on a sheet.
ghost use Rattle.std.specs.Prelude.{◌≡◌, ◌++◌, ◌∷◌, [], OnOk, codes};
ghost use Rattle.std.specs.Option.{option_map};
ghost use Rattle.tsa_tree.specs.expressions.Syntax.{nowhere};
ghost use Rattle.tsa_tree.specs.declarations.Shapes.{decl_shape};
ghost use Rattle.tsa_tree.specs.expressions.Shapes.{shape};
ghost use Rattle.tsa_tree.specs.statements.Syntax.{assignment, do_loop};
ghost use Rattle.tsa_tree.specs.statements.Shapes.{init_given, step_given, stmt_shape, stmt_shapes};
ghost use Rattle.tsa_print.specs.Canonical.{word, pieces, mark};
ghost use Rattle.tsa_print.specs.declared.mark.Mark.TheVariants as marks;
ghost use Rattle.tsa_print.specs.UnitPieces.{simple_pieces, optional_pieces, test_pieces, for_init_pieces, for_step_pieces};
ghost use Rattle.tsa_print.specs.UnitPieces.{statement_pieces, statements_pieces};
ghost use Rattle.tsa_print.specs.DeclarationPieces.{declaration_pieces};
ghost use Rattle.tsa_print.specs.Sheets.{page_of, put, for_pieces, if_pieces};

use crate::declarations::put_declaration;
use crate::mark::Mark;
use crate::sheet::Sheet;
use tsa_base::NoMemory;
use tsa_tree::decl::Decl;
use tsa_tree::expr::{BinaryOp, Expr, Name};
use tsa_tree::stmt::{Stmt, StmtKind};

// Puts an assignment without its semicolon.
#[tactic(auto, using(crate::proofs::Pages::put_append))]
fn put_assignment(
    sheet: &mut Sheet,
    left: &Expr<'_>,
    op: Option<BinaryOp>,
    right: &Expr<'_>,
) -> Result<(), NoMemory>
    ensures { OnOk result (page_of sheet.new
        ≡ put (page_of sheet.old) (simple_pieces (assignment (shape left.now) op (shape right.now) nowhere))) }
{
    sheet.put_expr(left, 10)?;
    sheet.put_assigned(op)?;
    sheet.put_expr(right, 0)
}

// Puts an expression where there is one.
fn put_optional(sheet: &mut Sheet, expr: Option<&Expr<'_>>) -> Result<(), NoMemory>
    ensures { OnOk result (page_of sheet.new ≡ put (page_of sheet.old) (optional_pieces (option_map (λ x. shape x.now) expr.entry))) }
{
    match expr {
        Some(expr) => sheet.put_expr(expr, 0),
        None => Ok(()),
    }
}

// Puts the first part of a `for`.
fn put_first_part(sheet: &mut Sheet, part: Option<&Stmt<'_>>) -> Result<(), NoMemory>
    ensures { OnOk result (page_of sheet.new ≡ put (page_of sheet.old) (for_init_pieces (init_given part.entry))) }
{
    let Some(part) = part else {
        return Ok(());
    };
    match &part.kind {
        StmtKind::Local(decl) => put_declaration(sheet, decl),
        StmtKind::Eval(tree) => sheet.put_expr(tree, 0),
        StmtKind::Assign { left, op, right } => put_assignment(sheet, left, *op, right),
        _ => Ok(()),
    }
}

// Puts the third part of a `for`.
fn put_third_part(sheet: &mut Sheet, part: Option<&Stmt<'_>>) -> Result<(), NoMemory>
    ensures { OnOk result (page_of sheet.new ≡ put (page_of sheet.old) (for_step_pieces (step_given part.entry))) }
{
    let Some(part) = part else {
        return Ok(());
    };
    match &part.kind {
        StmtKind::Eval(tree) => sheet.put_expr(tree, 0),
        StmtKind::Assign { left, op, right } => put_assignment(sheet, left, *op, right),
        _ => Ok(()),
    }
}

// Puts what stands before the body of a `for`.
#[tactic(auto, using(crate::proofs::Pages::put_append))]
fn put_for(
    sheet: &mut Sheet,
    init: Option<&Stmt<'_>>,
    test: Option<&Expr<'_>>,
    step: Option<&Stmt<'_>>,
) -> Result<(), NoMemory>
    ensures { OnOk result (page_of sheet.new
        ≡ put (page_of sheet.old) (for_pieces (init_given init.entry) (option_map (λ x. shape x.now) test.entry) (step_given step.entry))) }
{
    sheet.put_word(b"for")?;
    sheet.put_mark(Mark::OpenParenthesis)?;
    put_first_part(sheet, init)?;
    sheet.put_mark(Mark::ForSemicolon)?;
    put_optional(sheet, test)?;
    sheet.put_mark(Mark::ForSemicolon)?;
    put_third_part(sheet, step)?;
    sheet.put_mark(Mark::CloseParenthesis)
}

// Puts a word, and an expression in parentheses.
#[tactic(auto, using(crate::proofs::Pages::put_append))]
fn put_tested(sheet: &mut Sheet, text: &[u8], test: &Expr<'_>) -> Result<(), NoMemory>
    ensures { OnOk result (page_of sheet.new ≡ put (page_of sheet.old) (word text.now ∷ test_pieces (shape test.now))) }
{
    sheet.put_word(text)?;
    sheet.put_mark(Mark::OpenParenthesis)?;
    sheet.put_expr(test, 0)?;
    sheet.put_mark(Mark::CloseParenthesis)
}

// Puts a word, and a colon after it.
fn put_labelled(sheet: &mut Sheet, text: &[u8]) -> Result<(), NoMemory>
    ensures { OnOk result (page_of sheet.new ≡ put (page_of sheet.old) (word text.now ∷ (mark marks.Colon ∷ []))) }
{
    sheet.put_word(text)?;
    sheet.put_mark(Mark::Colon)
}

// Puts a `case` with its value and a colon.
#[tactic(auto, using(crate::proofs::Pages::put_append))]
fn put_case(sheet: &mut Sheet, value: &Expr<'_>) -> Result<(), NoMemory>
    ensures { OnOk result (page_of sheet.new
        ≡ put (page_of sheet.old) (word (codes "case") ∷ (pieces (shape value.now) 0 ++ mark marks.Colon ∷ []))) }
{
    sheet.put_word(b"case")?;
    sheet.put_expr(value, 0)?;
    sheet.put_mark(Mark::Colon)
}

// Puts a declaration as a statement.
#[tactic(auto, using(crate::proofs::Pages::put_append))]
fn put_local(sheet: &mut Sheet, decl: &Decl<'_>) -> Result<(), NoMemory>
    ensures { OnOk result (page_of sheet.new
        ≡ put (page_of sheet.old) (declaration_pieces (decl_shape decl.now) ++ mark marks.Semicolon ∷ [])) }
{
    put_declaration(sheet, decl)?;
    sheet.put_mark(Mark::Semicolon)
}

// Puts an expression as a statement.
#[tactic(auto, using(crate::proofs::Pages::put_append))]
fn put_evaluation(sheet: &mut Sheet, tree: &Expr<'_>) -> Result<(), NoMemory>
    ensures { OnOk result (page_of sheet.new ≡ put (page_of sheet.old) (pieces (shape tree.now) 0 ++ mark marks.Semicolon ∷ [])) }
{
    sheet.put_expr(tree, 0)?;
    sheet.put_mark(Mark::Semicolon)
}

// Puts an assignment as a statement.
#[tactic(auto, using(crate::proofs::Pages::put_append))]
fn put_changed(
    sheet: &mut Sheet,
    left: &Expr<'_>,
    op: Option<BinaryOp>,
    right: &Expr<'_>,
) -> Result<(), NoMemory>
    ensures { OnOk result (page_of sheet.new
        ≡ put (page_of sheet.old) (simple_pieces (assignment (shape left.now) op (shape right.now) nowhere) ++ mark marks.Semicolon ∷ [])) }
{
    put_assignment(sheet, left, op, right)?;
    sheet.put_mark(Mark::Semicolon)
}

// Puts a word, and the semicolon of a statement.
fn put_jump(sheet: &mut Sheet, text: &[u8]) -> Result<(), NoMemory>
    ensures { OnOk result (page_of sheet.new ≡ put (page_of sheet.old) (word text.now ∷ (mark marks.Semicolon ∷ []))) }
{
    sheet.put_word(text)?;
    sheet.put_mark(Mark::Semicolon)
}

// Puts a `goto` with its label and a semicolon.
fn put_goto(sheet: &mut Sheet, name: Name<'_>) -> Result<(), NoMemory>
    ensures { OnOk result (page_of sheet.new
        ≡ put (page_of sheet.old) (word (codes "goto") ∷ (word name.entry.text.now ∷ (mark marks.Semicolon ∷ [])))) }
{
    sheet.put_word(b"goto")?;
    put_jump(sheet, name.text)
}

// Puts a `return` with its value, where it has one, and a semicolon.
#[tactic(auto, using(crate::proofs::Pages::put_append))]
fn put_return(sheet: &mut Sheet, value: Option<&Expr<'_>>) -> Result<(), NoMemory>
    ensures { OnOk result (page_of sheet.new
        ≡ put (page_of sheet.old) (word (codes "return") ∷
        (optional_pieces (option_map (λ x. shape x.now) value.entry) ++ mark marks.Semicolon ∷ []))) }
{
    sheet.put_word(b"return")?;
    put_optional(sheet, value)?;
    sheet.put_mark(Mark::Semicolon)
}

// Puts a statement, with this brace at the end of a block.
#[cycle(statements)]
#[tactic(auto, using(crate::proofs::Pages::put_append))]
fn put_statement(sheet: &mut Sheet, stmt: &Stmt<'_>, closing: Mark) -> Result<(), NoMemory>
    ensures { OnOk result (page_of sheet.new ≡ put (page_of sheet.old) (statement_pieces closing (stmt_shape stmt.now.kind stmt.now.span))) }
{
    match &stmt.kind {
        StmtKind::Block(items) => put_block(sheet, items, closing),
        StmtKind::Empty => sheet.put_mark(Mark::Semicolon),
        StmtKind::Local(decl) => put_local(sheet, decl),
        StmtKind::Eval(tree) => put_evaluation(sheet, tree),
        StmtKind::Assign { left, op, right } => put_changed(sheet, left, *op, right),
        StmtKind::If { test, yes, no } => put_if(sheet, test, yes, *no),
        StmtKind::While { test, body } => put_under_test(sheet, b"while", test, body),
        StmtKind::DoWhile { body, test } => put_do(sheet, body, test),
        StmtKind::For {
            init,
            test,
            step,
            body,
        } => {
            put_for(sheet, *init, *test, *step)?;
            put_statement(sheet, body, Mark::CloseBlock)
        }
        StmtKind::Switch { value, body } => put_under_test(sheet, b"switch", value, body),
        StmtKind::Case { value, body } => put_under_case(sheet, value, body),
        StmtKind::Otherwise { body } => put_under_label(sheet, b"default", body),
        StmtKind::Label { name, body } => put_under_label(sheet, name.text, body),
        StmtKind::Break => put_jump(sheet, b"break"),
        StmtKind::Continue => put_jump(sheet, b"continue"),
        StmtKind::Goto(name) => put_goto(sheet, *name),
        StmtKind::Return(value) => put_return(sheet, *value),
    }
}

// Puts a word, an expression in parentheses, and a statement.
#[cycle(statements)]
#[tactic(auto, using(crate::proofs::Pages::put_append))]
fn put_under_test(
    sheet: &mut Sheet,
    text: &[u8],
    test: &Expr<'_>,
    body: &Stmt<'_>,
) -> Result<(), NoMemory>
    ensures { OnOk result (page_of sheet.new
        ≡ put (page_of sheet.old) (word text.now ∷
        (test_pieces (shape test.now) ++ statement_pieces marks.CloseBlock (stmt_shape body.now.kind body.now.span)))) }
{
    put_tested(sheet, text, test)?;
    put_statement(sheet, body, Mark::CloseBlock)
}

// Puts a word, a colon, and a statement.
#[cycle(statements)]
fn put_under_label(sheet: &mut Sheet, text: &[u8], body: &Stmt<'_>) -> Result<(), NoMemory>
    ensures { OnOk result (page_of sheet.new
        ≡ put (page_of sheet.old) (word text.now ∷
        (mark marks.Colon ∷ statement_pieces marks.CloseBlock (stmt_shape body.now.kind body.now.span)))) }
{
    put_labelled(sheet, text)?;
    put_statement(sheet, body, Mark::CloseBlock)
}

// Puts a `case` with its value and a colon, and a statement.
#[cycle(statements)]
#[tactic(auto, using(crate::proofs::Pages::put_append))]
fn put_under_case(sheet: &mut Sheet, value: &Expr<'_>, body: &Stmt<'_>) -> Result<(), NoMemory>
    ensures { OnOk result (page_of sheet.new
        ≡ put (page_of sheet.old) (word (codes "case") ∷
        (pieces (shape value.now) 0 ++ (mark marks.Colon ∷ statement_pieces marks.CloseBlock (stmt_shape body.now.kind body.now.span))))) }
{
    put_case(sheet, value)?;
    put_statement(sheet, body, Mark::CloseBlock)
}

// Puts an `if` with its arm, and its `else` where it has one.
#[cycle(statements)]
#[tactic(auto, using(crate::proofs::Pages::put_append))]
fn put_if(
    sheet: &mut Sheet,
    test: &Expr<'_>,
    arm: &Stmt<'_>,
    other: Option<&Stmt<'_>>,
) -> Result<(), NoMemory>
    ensures { OnOk result (page_of sheet.new
        ≡ put (page_of sheet.old) (if_pieces (shape test.now) (stmt_shape arm.now.kind arm.now.span) other.entry)) }
{
    put_under_test(sheet, b"if", test, arm)?;
    match other {
        Some(other) => {
            sheet.put_word(b"else")?;
            put_statement(sheet, other, Mark::CloseBlock)
        }
        None => Ok(()),
    }
}

// Puts a `do` with its body, its test and a semicolon.
#[cycle(statements)]
#[tactic(auto, using(crate::proofs::Pages::put_append))]
fn put_do(sheet: &mut Sheet, body: &Stmt<'_>, test: &Expr<'_>) -> Result<(), NoMemory>
    ensures { OnOk result (page_of sheet.new
        ≡ put (page_of sheet.old) (statement_pieces marks.CloseBlock
        (do_loop (stmt_shape body.now.kind body.now.span) (shape test.now) nowhere))) }
{
    sheet.put_word(b"do")?;
    put_statement(sheet, body, Mark::CloseBody)?;
    put_tested(sheet, b"while", test)?;
    sheet.put_mark(Mark::Semicolon)
}

/// Puts statements in braces, with this brace at the end.
#[cycle(statements)]
#[tactic(auto, using(crate::proofs::Pages::put_append))]
pub fn put_block(sheet: &mut Sheet, items: &[Stmt<'_>], closing: Mark) -> Result<(), NoMemory>
    ensures { OnOk result (page_of sheet.new
        ≡ put (page_of sheet.old) (mark marks.OpenBlock ∷ (statements_pieces (stmt_shapes items.now) ++ mark closing ∷ []))) }
{
    sheet.put_mark(Mark::OpenBlock)?;
    put_statements(sheet, items)?;
    sheet.put_mark(closing)
}

// Puts statements one after another.
#[cycle(statements)]
fn put_statements(sheet: &mut Sheet, items: &[Stmt<'_>]) -> Result<(), NoMemory>
    ensures { OnOk result (page_of sheet.new ≡ put (page_of sheet.old) (statements_pieces (stmt_shapes items.now))) }
{
    'each: for stmt in items {
        put_statement(sheet, stmt, Mark::CloseBlock)?;
    }
    Ok(())
}
