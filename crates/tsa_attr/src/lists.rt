//! The list in `__attribute__((..))`, one entry after another.
ghost use Rattle.std.specs.Prelude.{◌+◌, ◌<◌, length, IfOk};
ghost use Rattle.tsa_base.specs.declared.limits.TheConstants.{NESTING_LIMIT};
ghost use Rattle.tsa_tree.specs.attributes.Syntax.{attr_shapes};
ghost use Rattle.tsa_tree.specs.Reads.{read};
ghost use Rattle.tsa_tree.specs.Rows.{some_attributes, entries as entries_call};
ghost use Rattle.tsa_expr.specs.Gives.{Gives};
ghost use Rattle.tsa_expr.specs.Source.{input, named};
ghost use Rattle.tsa_attr.specs.Outcomes.{after, ignored_at, entry_at};
ghost use Rattle.tsa_attr.specs.Readings.{IsBehind, passed};

use crate::balance::{Closer, skip_balanced};
use crate::reading::AttributeName;
use crate::takes::append_attribute;
use crate::view::entry_meaning;
use bumpalo::Bump;
use tsa_base::NESTING_LIMIT;
use tsa_expr::{Reader, SyntaxCode, SyntaxRefusal, refuse};
use tsa_tree::attr::Attr;
use tsa_tree::sign::{Meaning, Sign};

/// Entries separated by commas, at the end of a list, and the parenthesis that closes them.
#[tactic(auto, using(crate::proofs::Entries::lists))]
pub fn entries<'a>(
    reader: Reader<'a, '_>,
    at: u32,
    depth: u32,
    list: &mut Vec<Attr<'a>, &'a Bump>,
) -> Result<u32, SyntaxRefusal>
    ensures gives { Gives (λ next. (attr_shapes list.new.items, next)) result
        (after (attr_shapes list.old.items) (read (input reader.entry) some_attributes (entries_call (named reader.entry) depth) at)) }
    ensures ends { IfOk result (IsBehind reader.entry at) }
{
    let mut next = at;
    'entries: loop {
        let end = entry(reader, next, depth, list)?;
        match reader.sign(end) {
            Sign::Comma => next = end + 1,
            Sign::Close => return Ok(end + 1),
            _ => return Err(refuse(SyntaxCode::SY1, end)),
        }
    }
}

/// An entry, which is kept where it says something of threads.
#[tactic(auto, using(crate::proofs::Entries::one_entry))]
fn entry<'a>(
    reader: Reader<'a, '_>,
    at: u32,
    depth: u32,
    list: &mut Vec<Attr<'a>, &'a Bump>,
) -> Result<u32, SyntaxRefusal>
    ensures gives { Gives (λ next. (attr_shapes list.new.items, next)) result
        (after (attr_shapes list.old.items) (entry_at (input reader.entry) (named reader.entry) depth at)) }
    ensures ends { IfOk result (IsBehind reader.entry at) }
{
    if !reader.is_word(at) {
        return Err(refuse(SyntaxCode::SY1, at));
    }
    match entry_meaning(reader, at) {
        Meaning::Known(kind) => {
            append_attribute(reader, AttributeName { at, kind }, depth, list)
        }
        Meaning::LeftOut => Err(refuse(SyntaxCode::AT1, at)),
        Meaning::Ignored => unknown_attribute(reader, at, depth),
    }
}

/// A name that says nothing of threads, with its list where it has one.
#[tactic(auto, using(crate::proofs::Entries::ignoring))]
fn unknown_attribute(reader: Reader<'_, '_>, at: u32, depth: u32) -> Result<u32, SyntaxRefusal>
    requires within { at < length reader.tokens.now }
    ensures gives { Gives passed result (ignored_at (input reader.entry) (named reader.entry) depth at) }
    ensures ends { IfOk result (IsBehind reader.entry at) }
{
    let Sign::Open = reader.sign(at + 1) else {
        return Ok(at + 1);
    };
    if depth >= NESTING_LIMIT {
        return Err(refuse(SyntaxCode::LM2, at + 1));
    }
    skip_balanced(reader, at + 1 + 1, depth + 1, Closer::Parenthesis)
}
