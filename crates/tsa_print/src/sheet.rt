//! The sheet on which canonical text is written, token by token.
ghost use Rattle.std.specs.Prelude.{◌≡◌, ◌++◌, [], OnOk, false, vec_len};
ghost use Rattle.tsa_print.specs.declared.sheet.Behind.TheVariants.{LineStart};
ghost use Rattle.tsa_tree.specs.expressions.Shapes.{shape};
ghost use Rattle.tsa_print.specs.Canonical.{word, numeral, quoted, assigned, assign_text, mark, pieces};
ghost use Rattle.tsa_print.specs.Layout.{indentation, levels_behind, behind_of};
ghost use Rattle.tsa_print.specs.Sheets.{page_of, put, put_one, lead_by};

use crate::mark::Mark;
use crate::print::{append, append_if, operator_text, write_expr, write_number};
use std::alloc::Global;
use tsa_base::NoMemory;
use tsa_tree::expr::{BinaryOp, Expr};

/// What the next token stands after: the beginning of a line, a token after which no blank stands, or any other one.
#[derive(Clone, Copy)]
pub enum Behind {
    LineStart,
    Tight,
    Loose,
}

/// A text, the tokens that opened the blocks and structs that are open after it, and what its next token stands after.
#[derive(Drop)]
pub struct Sheet {
    pub text: Vec<u8>,
    pub opened: Vec<Mark>,
    pub behind: Behind,
}

/// How many blocks and structs are indented at once.
const STEP: usize = 128;

const BLANKS: [u8; 256] = [b' '; 256];

// Appends two blanks for each open block or struct. Most tokens begin no line, so it stands apart from what puts them.
#[inline(never)]
#[tactic(auto, using(crate::proofs::Pages::indents))]
fn indent(text: &mut Vec<u8>, levels: usize) -> Result<(), NoMemory>
    ensures { OnOk result (text.new.items ≡ text.old.items ++ indentation levels) }
{
    let mut left = levels;
    'blanks: while left > 0 {
        let part = left.min(STEP);
        text.extend_from_slice(&BLANKS[..2 * part])?;
        left -= part;
    }
    Ok(())
}

// Notes what a token opens or closes.
fn note_level(opened: &mut Vec<Mark>, token: Mark) -> Result<(), NoMemory>
    ensures { OnOk result (vec_len opened.new ≡ levels_behind (vec_len opened.old) (mark token)) }
{
    if token.opens_level() {
        opened.push(token)?;
        return Ok(());
    }
    if token.closes_level() {
        let _ = opened.pop();
    }
    Ok(())
}

/// What stands behind a token: a line's start, nothing, or a blank where one is wanted.
fn kind_behind(token: Mark) -> Behind
    ensures { result ≡ behind_of (mark token) }
{
    if token.ends_line() {
        return Behind::LineStart;
    }
    if token.binds_right() {
        return Behind::Tight;
    }
    Behind::Loose
}

// Appends `=`, after an operator where there is one.
fn write_assigned(text: &mut Vec<u8>, op: Option<BinaryOp>) -> Result<(), NoMemory>
    ensures { OnOk result (text.new.items ≡ text.old.items ++ assign_text op) }
{
    if let Some(op) = op {
        text.extend_from_slice(operator_text(op))?;
        return append(text, b"=");
    }
    append(text, b"=")
}

impl Sheet {
    /// A sheet with nothing on it.
    pub fn new(alloc: Global) -> Sheet
        ensures { page_of result ≡ record { text = []; levels = 0; behind = LineStart } }
    {
        Sheet {
            text: Vec::new(alloc),
            opened: Vec::new(alloc),
            behind: Behind::LineStart,
        }
    }

    // Appends what stands before a token that closes a block or struct or not, and before which no blank stands or may.
    fn begin(&mut self, closes: bool, joins: bool) -> Result<(), NoMemory>
        ensures text { OnOk result (self.new.text.items ≡ self.old.text.items ++ lead_by (vec_len self.old.opened) self.old.behind closes joins) }
        ensures opened { vec_len self.new.opened ≡ vec_len self.old.opened }
        ensures behind { self.new.behind ≡ self.old.behind }
    {
        match self.behind {
            Behind::LineStart => {
                let closed = usize::from(closes);
                indent(&mut self.text, self.opened.len().saturating_sub(closed))
            }
            Behind::Tight => Ok(()),
            Behind::Loose => append_if(&mut self.text, !joins, b" "),
        }
    }

    /// Puts a token that has one text.
    #[tactic(auto, using(crate::proofs::Pages::put_mark))]
    pub fn put_mark(&mut self, token: Mark) -> Result<(), NoMemory>
        ensures { OnOk result (page_of self.new ≡ put_one (page_of self.old) (mark token)) }
    {
        self.begin(token.closes_level(), token.binds_left())?;
        self.text.extend_from_slice(token.text())?;
        append_if(&mut self.text, token.ends_line(), b"\n")?;
        note_level(&mut self.opened, token)?;
        self.behind = kind_behind(token);
        Ok(())
    }

    /// Puts a word.
    #[tactic(auto, using(crate::proofs::Pages::put_word))]
    pub fn put_word(&mut self, text: &[u8]) -> Result<(), NoMemory>
        ensures { OnOk result (page_of self.new ≡ put_one (page_of self.old) (word text.now)) }
    {
        self.begin(false, false)?;
        self.text.extend_from_slice(text)?;
        self.behind = Behind::Loose;
        Ok(())
    }

    /// Puts a number.
    #[tactic(auto, using(crate::proofs::Pages::put_numeral))]
    pub fn put_number(&mut self, value: u32) -> Result<(), NoMemory>
        ensures { OnOk result (page_of self.new ≡ put_one (page_of self.old) (numeral value false)) }
    {
        self.begin(false, false)?;
        write_number(&mut self.text, value, false)?;
        self.behind = Behind::Loose;
        Ok(())
    }

    /// Puts a text between quotes.
    #[tactic(auto, using(crate::proofs::Pages::put_quoted))]
    pub fn put_quoted(&mut self, text: &[u8]) -> Result<(), NoMemory>
        ensures { OnOk result (page_of self.new ≡ put_one (page_of self.old) (quoted text.now)) }
    {
        self.begin(false, false)?;
        self.text.extend_from_slice(b"\"")?;
        self.text.extend_from_slice(text)?;
        self.text.extend_from_slice(b"\"")?;
        self.behind = Behind::Loose;
        Ok(())
    }

    /// Puts `=`, after an operator where there is one.
    #[tactic(auto, using(crate::proofs::Pages::put_assigned))]
    pub fn put_assigned(&mut self, op: Option<BinaryOp>) -> Result<(), NoMemory>
        ensures { OnOk result (page_of self.new ≡ put_one (page_of self.old) (assigned op)) }
    {
        self.begin(false, false)?;
        write_assigned(&mut self.text, op)?;
        self.behind = Behind::Loose;
        Ok(())
    }

    /// Puts an expression, in parentheses where it binds looser than its place needs.
    #[tactic(auto, using(crate::proofs::InlinePieces::put_pieces))]
    pub fn put_expr(&mut self, expr: &Expr<'_>, place: u32) -> Result<(), NoMemory>
        ensures { OnOk result (page_of self.new ≡ put (page_of self.old) (pieces (shape expr.now) place)) }
    {
        self.begin(false, false)?;
        write_expr(&mut self.text, expr, place)?;
        self.behind = Behind::Loose;
        Ok(())
    }
}
