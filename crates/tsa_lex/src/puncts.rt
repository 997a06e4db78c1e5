//! The punctuator that a text begins with.
ghost use Rattle.std.specs.Prelude.{◌≡◌, ◌∷◌, ◌==◌, false};
ghost use Rattle.tsa_base.specs.Bytes.{is_letter, is_digit};
ghost use Rattle.tsa_base.specs.Tokens.{longest};
ghost use Rattle.tsa_lex.specs.Puncts.{is_single, is_pair, begins_pair, is_triple, begins_triple};

/// How many bytes the punctuator has that a text begins with, the longest one, and 0 where none begins it (C11 6.4.6).
/// The text begins with no letter, digit or quote.
#[tactic(auto, using(crate::proofs::PunctLemmas::triple_longest, crate::proofs::PunctLemmas::pair_longest, crate::proofs::PunctLemmas::single_longest, crate::proofs::PunctLemmas::no_punct))]
pub fn punct_len(first: u8, rest: &[u8]) -> usize
    requires no_letter { is_letter first ≡ false }
    requires no_digit { is_digit first ≡ false }
    requires no_quote { (first == 34) ≡ false }
    ensures { result ≡ longest (first ∷ rest.now) }
{
    if begins_triple(first, rest) {
        3
    } else if begins_pair(first, rest) {
        2
    } else if is_single(first) {
        1
    } else {
        0
    }
}

fn begins_triple(first: u8, rest: &[u8]) -> bool
    ensures { result ≡ begins_triple first rest.now }
{
    match rest {
        [second, third, ..] => is_triple(first, *second, *third),
        _ => false,
    }
}

fn begins_pair(first: u8, rest: &[u8]) -> bool
    ensures { result ≡ begins_pair first rest.now }
{
    match rest {
        [second, ..] => is_pair(first, *second),
        [] => false,
    }
}

fn is_triple(first: u8, second: u8, third: u8) -> bool
    ensures { result ≡ is_triple first second third }
{
    match first {
        b'<' => second == b'<' && third == b'=',
        b'>' => second == b'>' && third == b'=',
        b'.' => second == b'.' && third == b'.',
        _ => false,
    }
}

#[tactic(auto, unfolding(crate::specs::Puncts::is_pair))]
fn is_pair(first: u8, second: u8) -> bool
    ensures { result ≡ is_pair first second }
{
    match first {
        b'-' => matches!(second, b'>' | b'-' | b'='),
        b'+' => matches!(second, b'+' | b'='),
        b'<' => matches!(second, b'<' | b'='),
        b'>' => matches!(second, b'>' | b'='),
        b'&' => matches!(second, b'&' | b'='),
        b'|' => matches!(second, b'|' | b'='),
        b'=' | b'!' | b'*' | b'/' | b'%' | b'^' => second == b'=',
        _ => false,
    }
}

fn is_single(c: u8) -> bool
    ensures { result ≡ is_single c }
{
    matches!(
        c,
        b'{' | b'}'
            | b'('
            | b')'
            | b'['
            | b']'
            | b';'
            | b','
            | b'.'
            | b'&'
            | b'*'
            | b'+'
            | b'-'
            | b'~'
            | b'!'
            | b'/'
            | b'%'
            | b'<'
            | b'>'
            | b'^'
            | b'|'
            | b'?'
            | b':'
            | b'='
    )
}
