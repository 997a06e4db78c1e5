//! Integer constants (C11 6.4.4.1).
ghost use Rattle.std.specs.Prelude.{◌≡◌, ◌≤◌, ◌+◌, ◌*◌, ◌^◌, ◌&&◌, true, nat_lt, if◌then◌else◌, Some, None};
ghost use Rattle.std.specs.List.{list_all};
ghost use Rattle.tsa_base.specs.Bytes.{is_hexadecimal_digit};
ghost use Rattle.tsa_base.specs.Numbers.{is_suffix, has_suffix, without_suffix, base_of, digits_of, digit_value, is_digit_in, value_in};
ghost use Rattle.tsa_base.specs.Numbers.{number_in, number_of};

use tsa_base::TokenKind;

/// The number that a run writes, where it writes one (C11 6.4.4.1).
#[tactic(auto, unfolding(tsa_base::specs::Numbers::number_of))]
pub fn number(run: &[u8]) -> Option<TokenKind>
    ensures { result ≡ number_of run.now }
{
    let body = without_suffix(run);
    number_in(has_suffix(run), base_of(body), digits_of(body))
}

fn is_suffix(c: u8) -> bool
    ensures { result ≡ is_suffix c }
{
    matches!(c, b'u' | b'U')
}

#[tactic(auto, using(crate::proofs::NumberLemmas::has_suffix_last))]
fn has_suffix(run: &[u8]) -> bool
    ensures { result ≡ has_suffix run.now }
{
    match run {
        [.., last] => is_suffix(*last),
        [] => false,
    }
}

#[tactic(auto, using(crate::proofs::NumberLemmas::with_suffix, crate::proofs::NumberLemmas::with_none))]
fn without_suffix(run: &[u8]) -> &[u8]
    ensures { result.now ≡ without_suffix run.now }
{
    match run {
        [body @ .., last] if is_suffix(*last) => body,
        _ => run,
    }
}

fn base_of(body: &[u8]) -> u32
    ensures base { result ≡ base_of body.now }
    ensures within { (1 ≤ result) × (result ≤ 16) }
{
    match body {
        [b'0', b'x' | b'X', ..] => 16,
        [b'0', _, ..] => 8,
        _ => 10,
    }
}

fn digits_of(body: &[u8]) -> &[u8]
    ensures { result.now ≡ digits_of body.now }
{
    match body {
        [b'0', b'x' | b'X', digits @ ..] => digits,
        _ => body,
    }
}

// The number of digits in a base, where they are digits and its type can hold it.
fn number_in(suffixed: bool, base: u32, digits: &[u8]) -> Option<TokenKind>
    requires base { (1 ≤ base) × (base ≤ 16) }
    ensures { result ≡ number_in suffixed base digits.now }
{
    let value = value_in(base, digits)?;
    let wide = value >= 1 << 31;
    if digits.is_empty() || (wide && !suffixed && base == 10) {
        return None;
    }
    Some(TokenKind::Number {
        value,
        unsigned: suffixed || wide,
    })
}

// The value of digits, where they are digits of the base and it has no more than 32 bits.
fn value_in(base: u32, digits: &[u8]) -> Option<u32>
    requires base { (1 ≤ base) × (base ≤ 16) }
    ensures { result ≡ (if list_all (is_digit_in base) digits.now
        && nat_lt (value_in base 0 digits.now) (2 ^ 32) then Some (value_in base 0 digits.now) else None) }
{
    let mut value = 0u32;
    'digits: for digit in digits {
        value = next_value(base, value, *digit)?;
    }
    Some(value)
}

// The value with one digit more.
fn next_value(base: u32, value: u32, digit: u8) -> Option<u32>
    requires base { (1 ≤ base) × (base ≤ 16) }
    ensures { result ≡ (if is_digit_in base digit && nat_lt (base * value + digit_value digit) (2 ^ 32) then Some
        (base * value + digit_value digit) else None) }
{
    if !is_digit_in(base, digit) {
        return None;
    }
    let next = u64::from(base) * u64::from(value) + u64::from(digit_value(digit));
    u32::try_from(next).ok()
}

fn is_digit_in(base: u32, d: u8) -> bool
    ensures { result ≡ is_digit_in base d }
{
    is_hexadecimal_digit(d) && u32::from(digit_value(d)) < base
}

fn is_hexadecimal_digit(d: u8) -> bool
    ensures { result ≡ is_hexadecimal_digit d }
{
    d.is_ascii_hexdigit()
}

fn digit_value(d: u8) -> u8
    requires { is_hexadecimal_digit d ≡ true }
    ensures { result ≡ digit_value d }
{
    match d {
        b'0'..=b'9' => d - b'0',
        b'a'..=b'f' => d - b'a' + 10,
        _ => d - b'A' + 10,
    }
}
