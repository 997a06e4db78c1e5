//! Groups of attributes: macro words with their arguments, and `__attribute__((..))`.
ghost use Rattle.std.specs.Prelude.{◌≡◌, ◌+◌, ◌≤◌, ◌<◌, length, max, IfOk};
ghost use Rattle.tsa_tree.specs.attributes.Answers.{read_any};
ghost use Rattle.tsa_tree.specs.attributes.Syntax.{attr_shapes};
ghost use Rattle.tsa_tree.specs.Reads.{read};
ghost use Rattle.tsa_tree.specs.Rows.{some_attributes, group as group_call};
ghost use Rattle.tsa_tree.specs.tokens.Signs.{sign_at};
ghost use Rattle.tsa_expr.specs.Gives.{Gives};
ghost use Rattle.tsa_expr.specs.Source.{input, named};
ghost use Rattle.tsa_attr.specs.Readings.{IsBehind};
ghost use Rattle.tsa_attr.specs.Outcomes.{after};

use crate::lists::entries;
use crate::reading::AttributeName;
use crate::takes::append_attribute;
use crate::view::{close, is_close_at, open};
use bumpalo::Bump;
use tsa_expr::{Reader, SyntaxCode, SyntaxRefusal, refuse};
use tsa_tree::attr::Attr;
use tsa_tree::sign::Sign;

/// The groups at a token, none or more, after those that the list has, and the token after them.
#[tactic(auto, using(crate::proofs::Groups::groups))]
pub fn groups<'a>(
    reader: Reader<'a, '_>,
    at: u32,
    depth: u32,
    list: &mut Vec<Attr<'a>, &'a Bump>,
) -> Result<u32, SyntaxRefusal>
    ensures gives { Gives (λ next. (attr_shapes list.new.items, next)) result
        (after (attr_shapes list.old.items) (read_any (input reader.entry) (named reader.entry) depth at)) }
    ensures ends { IfOk result (λ next. (at ≤ next) × (next ≤ max at (length reader.entry.tokens.now))) }
{
    let mut next = at;
    'groups: loop {
        next = match reader.sign(next) {
            Sign::Macro(kind) => {
                append_attribute(reader, AttributeName { at: next, kind }, depth, list)?
            }
            Sign::Attribute => attribute_list(reader, next, depth, list)?,
            Sign::LeftOutMacro => return Err(refuse(SyntaxCode::AT1, next)),
            _ => return Ok(next),
        };
    }
}

/// `__attribute__`, two parentheses, the entries where there are any, and the closing parentheses.
#[tactic(auto, using(crate::proofs::Groups::attribute_lists))]
fn attribute_list<'a>(
    reader: Reader<'a, '_>,
    at: u32,
    depth: u32,
    list: &mut Vec<Attr<'a>, &'a Bump>,
) -> Result<u32, SyntaxRefusal>
    requires there { sign_at (input reader) (named reader) at ≡ Sign.Attribute }
    ensures gives { Gives (λ next. (attr_shapes list.new.items, next)) result
        (after (attr_shapes list.old.items) (read (input reader.entry) some_attributes (group_call (named reader.entry) depth) at)) }
    ensures ends { IfOk result (IsBehind reader.entry at) }
{
    let outer = open(reader, at + 1, depth)?;
    let inner = open(reader, outer, depth + 1)?;
    if is_close_at(reader, inner) {
        return close(reader, inner + 1);
    }
    let end = entries(reader, inner, depth + 1 + 1, list)?;
    close(reader, end)
}
