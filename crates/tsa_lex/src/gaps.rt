//! What only separates tokens (C11 6.4.9, 6.10).
ghost use Rattle.std.specs.Prelude.{◌≡◌, ◌≤◌, ◌==◌, ◌&&◌, length, IfSome, codes, [], ◌∷◌};
ghost use Rattle.std.specs.List.{prefix_len, suffix_len, list_any};
ghost use Rattle.std.specs.Str.{bytes_eq};
ghost use Rattle.tsa_base.specs.Bytes.{is_indent, is_line_byte};
ghost use Rattle.tsa_base.specs.Tokens.{block_end, line_len, opens_line, line_word, is_skipped};

use crate::scan::{is_digit, word_len};

fn is_indent(c: u8) -> bool
    ensures { result ≡ is_indent c }
{
    matches!(c, b' ' | b'\t')
}

fn is_line_byte(c: u8) -> bool
    ensures { result ≡ is_line_byte c }
{
    c != b'\n'
}

fn is_end(first: u8, second: u8) -> bool
    ensures { result ≡ ((first == 42) && (second == 47)) }
{
    first == b'*' && second == b'/'
}

/// How many bytes a text has up to its first `*/`, and with it.
#[tactic(auto, using(crate::proofs::GapLemmas::end_begun))]
pub fn block_end(text: &[u8]) -> Option<usize>
    ensures end { result ≡ block_end text.now }
    ensures within { IfSome result (λ n. (2 ≤ n) × (n ≤ length text.now)) }
{
    'pairs: for at in 0..text.len().saturating_sub(1) {
        if is_end(text[at], text[at + 1]) {
            return Some(at + 2);
        }
    }
    None
}

/// How many bytes the line has from here on, its end left out.
pub fn line_len(text: &[u8]) -> usize
    ensures len { result ≡ line_len text.now }
    ensures within { result ≤ length text.now }
{
    text.iter().take_while(|c| is_line_byte(**c)).count()
}

/// Behind these bytes a preprocessing line may begin: from the last line end on there are spaces and tabs alone.
#[tactic(auto, using(crate::proofs::GapLemmas::opens_start, crate::proofs::GapLemmas::opens_behind))]
pub fn opens_line(before: &[u8]) -> bool
    ensures { result ≡ opens_line before.now }
{
    match before.len() - indent_behind(before) {
        0 => true,
        margin => before[margin - 1] == b'\n',
    }
}

// How many spaces and tabs a text ends with.
fn indent_behind(before: &[u8]) -> usize
    ensures len { result ≡ suffix_len is_indent before.now }
    ensures within { result ≤ length before.now }
{
    before.iter().rev().take_while(|c| is_indent(**c)).count()
}

// How many spaces and tabs a text begins with.
fn indent_len(text: &[u8]) -> usize
    ensures len { result ≡ prefix_len is_indent text.now }
    ensures within { result ≤ length text.now }
{
    text.iter().take_while(|c| is_indent(**c)).count()
}

#[tactic(auto, using(crate::proofs::GapLemmas::skipped_none, crate::proofs::GapLemmas::skipped_some))]
fn is_skipped(word: &[u8]) -> bool
    ensures { result ≡ is_skipped word.now }
{
    match word {
        [] => true,
        [first, ..] => is_digit(*first) || is_known(word),
    }
}

fn is_known(word: &[u8]) -> bool
    ensures { result ≡ list_any (bytes_eq word.now) (codes "include" ∷ codes "pragma" ∷ codes "line" ∷ []) }
{
    is(word, b"include") || is(word, b"pragma") || is(word, b"line")
}

fn is(word: &[u8], known: &[u8]) -> bool
    ensures { result ≡ bytes_eq word.now known.now }
{
    word == known
}

/// A preprocessing line is skipped; the text begins after its `#`.
#[tactic(auto, using(crate::proofs::GapLemmas::word_at))]
pub fn line_is_skipped(text: &[u8]) -> bool
    ensures { result ≡ is_skipped (line_word text.now) }
{
    let line = &text[indent_len(text)..];
    is_skipped(&line[..word_len(line)])
}
