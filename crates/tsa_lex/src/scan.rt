//! How far words, numbers and texts reach.
ghost use Rattle.std.specs.Prelude.{◌≡◌, ◌≤◌, length};
ghost use Rattle.std.specs.List.{prefix_len};
ghost use Rattle.tsa_base.specs.Bytes.{is_letter, is_digit, is_word_byte, is_run_byte, is_text_byte, is_blank};

pub fn is_blank(c: u8) -> bool
    ensures { result ≡ is_blank c }
{
    matches!(c, 9..=13 | b' ')
}

pub fn is_letter(c: u8) -> bool
    ensures { result ≡ is_letter c }
{
    matches!(c, b'A'..=b'Z' | b'a'..=b'z' | b'_')
}

pub fn is_digit(c: u8) -> bool
    ensures { result ≡ is_digit c }
{
    c.is_ascii_digit()
}

pub fn is_word_byte(c: u8) -> bool
    ensures { result ≡ is_word_byte c }
{
    is_letter(c) || is_digit(c)
}

pub fn is_run_byte(c: u8) -> bool
    ensures { result ≡ is_run_byte c }
{
    is_word_byte(c) || c == b'.'
}

pub fn is_text_byte(c: u8) -> bool
    ensures { result ≡ is_text_byte c }
{
    matches!(c, b' '..=b'~') && c != b'"' && c != b'\\'
}

/// How many word bytes a text begins with.
pub fn word_len(text: &[u8]) -> usize
    ensures len { result ≡ prefix_len is_word_byte text.now }
    ensures within { result ≤ length text.now }
{
    text.iter().take_while(|c| is_word_byte(**c)).count()
}

/// How many bytes of a number's run a text begins with.
pub fn run_len(text: &[u8]) -> usize
    ensures len { result ≡ prefix_len is_run_byte text.now }
    ensures within { result ≤ length text.now }
{
    text.iter().take_while(|c| is_run_byte(**c)).count()
}

/// How many bytes a text has up to before its closing quote, or the first byte that cannot stand there.
pub fn text_len(text: &[u8]) -> usize
    ensures len { result ≡ prefix_len is_text_byte text.now }
    ensures within { result ≤ length text.now }
{
    text.iter().take_while(|c| is_text_byte(**c)).count()
}
