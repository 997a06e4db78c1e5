//! What stands before a body that ends its statement, and statements without a body, by their keywords (C11 6.8).
ghost use Rattle.std.specs.Prelude.{◌≡◌, ◌≤◌, ◌<◌, length, true, IfOk};
ghost use Rattle.tsa_tree.specs.Reads.{read};
ghost use Rattle.tsa_tree.specs.Rows.{a_statement, statement as statement_call};
ghost use Rattle.tsa_tree.specs.tokens.Signs.{sign_at, span_at};
ghost use Rattle.tsa_expr.specs.Source.{input, named};
ghost use Rattle.tsa_expr.specs.Gives.{Gives, Leads};
ghost use Rattle.tsa_unit_heads.specs.Heads.{IsOpened, ended_at, seen_head};
ghost use Rattle.tsa_unit_heads.specs.Openings.{HoldsNoBody, ends_with_body};
ghost use Rattle.tsa_unit_simple.specs.PointNumbers.{IsPointed};
ghost use Rattle.tsa_unit_simple.specs.Readings.{seen_statement};

use crate::heads::{Headed, case_head, default_head, switch_head, while_head};
use crate::text::TextReader;
use tsa_expr::{Reader, SyntaxRefusal};
use tsa_tree::sign::{Keyword, Sign};
use tsa_tree::stmt::Point;
use tsa_unit_simple::{
    Read, break_statement, continue_statement, goto, return_statement, simple_statement,
};

impl<'a, 't> TextReader<'a, 't> {
    /// What stands before the body that ends a statement, where it begins with a keyword.
    #[tactic(auto, using(crate::proofs::OpeningLaws::heads))]
    pub fn keyword_head(
        self,
        at: u32,
        depth: u32,
        word: Keyword,
        points: &mut Vec<Point<'a>>,
    ) -> Result<Headed<'a>, SyntaxRefusal>
        requires there { sign_at (input self.reader) (named self.reader) at ≡ Sign.Keyword word }
        requires headed { ends_with_body word ≡ true }
        ensures leads { Leads seen_head result
            (read (input self.entry.reader) a_statement (statement_call (named self.entry.reader) depth) at)
            (ended_at (input self.entry.reader) (named self.entry.reader) depth at) }
        ensures opened { IfOk result (λ r. IsOpened (span_at (input self.entry.reader) at) points.old.items points.new.items r.head) }
        ensures ends { IfOk result (λ r. (at < r.next) × (r.next ≤ length self.entry.reader.tokens.now)) }
    {
        match word {
            Keyword::While => while_head(self.reader, at, depth, points),
            Keyword::Switch => switch_head(self.reader, at, depth, points),
            Keyword::For => self.for_head(at, depth, points),
            Keyword::Case => case_head(self.reader, at, depth),
            _ => default_head(self.reader, at, depth),
        }
    }
}

/// A statement that begins with a keyword and holds no other one; where no statement begins so, it is refused as a simple one.
#[tactic(auto, using(crate::proofs::OpeningLaws::jumps))]
pub fn leaf_statement<'a>(
    reader: Reader<'a, '_>,
    at: u32,
    depth: u32,
    word: Keyword,
    points: &mut Vec<Point<'a>>,
) -> Result<Read<'a>, SyntaxRefusal>
    requires there { sign_at (input reader) (named reader) at ≡ Sign.Keyword word }
    requires bodiless { HoldsNoBody word }
    ensures gives { Gives seen_statement result (read (input reader.entry) a_statement (statement_call (named reader.entry) depth) at) }
    ensures pointed { IfOk result (λ r. IsPointed points.old.items points.new.items r.stmt) }
    ensures ends { IfOk result (λ r. (at < r.next) × (r.next ≤ length reader.entry.tokens.now)) }
{
    match word {
        Keyword::Break => break_statement(reader, at, points),
        Keyword::Continue => continue_statement(reader, at, points),
        Keyword::Goto => goto(reader, at, points),
        Keyword::Return => return_statement(reader, at, depth, points),
        _ => simple_statement(reader, at, depth, Sign::Keyword(word), points),
    }
}
