ghost use Rattle.std.specs.Prelude.{◌≡◌, ℕ, ◌≤◌, ◌<◌, ◌^◌, length, drop, IfSome, IsTrue};
ghost use Rattle.std.specs.List.{list_all, prefix_len};
ghost use Rattle.std.specs.Option.{option_and_then, option_map};
ghost use Rattle.mac_base.specs.Digits.{is_digit_of, spelled_in};
ghost use Rattle.pp_directives.specs.Constants.{below, is_u, is_l, is_ll, suffix_of, is_hexadecimal, has_zero, base_of, after_prefix, typed, integer_of, number_of as number_said, simple_escape, simple_alone, digits_of, escape, is_plain, plain_alone, element, before_quote, quoted, character_of};

use crate::expression::number::Number;
use mac_base::{digit_value, number_of};

/// A digit of that base.
fn is_digit_of(base: u8, byte: u8) -> bool
    ensures { result ≡ is_digit_of base byte }
{
    digit_value(byte) < base
}

/// How many digits of that base the text begins with.
fn digits_in_front(base: u8, text: &[u8]) -> usize
    ensures value { result ≡ prefix_len (is_digit_of base) text.now }
    ensures within { result ≤ length text.now }
{
    text.iter()
        .take_while(|byte| is_digit_of(base, **byte))
        .count()
}

/// Whether all are digits of that base.
fn are_digits(base: u8, text: &[u8]) -> bool
    ensures { result ≡ list_all (is_digit_of base) text.now }
{
    text.iter().all(|byte| is_digit_of(base, *byte))
}

/// The number that digits of that base spell, if it is below 2^64.
fn spelled(base: u8, digits: &[u8]) -> Option<u64>
    requires base { 0 < base }
    requires digits { IsTrue (list_all (is_digit_of base) digits.now) }
    ensures { result ≡ below (2 ^ 64) (spelled_in base digits.now) }
{
    number_of(base, digits)
}

/// `u` or `U`.
fn is_u(byte: u8) -> bool
    ensures { result ≡ is_u byte }
{
    byte == b'u' || byte == b'U'
}

/// `l` or `L`.
fn is_l(byte: u8) -> bool
    ensures { result ≡ is_l byte }
{
    byte == b'l' || byte == b'L'
}

/// `ll` or `LL`.
fn is_ll(a: u8, b: u8) -> bool
    ensures { result ≡ is_ll a b }
{
    is_l(a) && a == b
}

/// Whether a suffix has the `u` of unsigned constants (C17 6.4.4.1).
fn suffix(text: &[u8]) -> Option<bool>
    ensures { result ≡ suffix_of text.now }
{
    match text {
        [] => Some(false),
        [a] if is_u(*a) => Some(true),
        [a] if is_l(*a) => Some(false),
        [a, b] if is_u(*a) && is_l(*b) => Some(true),
        [a, b] if is_l(*a) && is_u(*b) => Some(true),
        [a, b] if is_ll(*a, *b) => Some(false),
        [a, b, c] if is_u(*a) && is_ll(*b, *c) => Some(true),
        [a, b, c] if is_ll(*a, *b) && is_u(*c) => Some(true),
        _ => None,
    }
}

/// The type of a constant of that base, with the suffix `u` or without, and the constant (C17 6.4.4.1 p5).
fn typed(base: u8, with_u: bool, n: u64) -> Option<Number>
    ensures { result ≡ typed base with_u n }
{
    if !with_u && n < 1 << 63 {
        Some(Number::Signed(n as i64))
    } else if with_u || base != 10 {
        Some(Number::Unsigned(n))
    } else {
        None
    }
}

/// The digits of that base, one at least, and a suffix (C17 6.4.4.1).
fn integer(base: u8, text: &[u8]) -> Option<Number>
    requires { 0 < base }
    ensures { result ≡ integer_of base text.now }
{
    let count = digits_in_front(base, text);
    if count == 0 {
        return None;
    }
    let with_u = suffix(&text[count..])?;
    typed(base, with_u, spelled(base, &text[..count])?)
}

/// The value of a number token, if it has one (C17 6.4.4.1).
pub fn number(text: &[u8]) -> Option<Number>
    ensures { result ≡ number_said text.now }
{
    match text {
        [b'0', b'x' | b'X', digits @ ..] => integer(16, digits),
        [b'0', ..] => integer(8, text),
        _ => integer(10, text),
    }
}

/// What a simple escape sequence stands for (C17 5.2.2).
fn simple_escape(byte: u8) -> Option<u64>
    ensures { result ≡ simple_escape byte }
{
    match byte {
        b'\'' | b'"' | b'?' | b'\\' => Some(u64::from(byte)),
        b'a' => Some(7),
        b'b' => Some(8),
        b'f' => Some(12),
        b'n' => Some(10),
        b'r' => Some(13),
        b't' => Some(9),
        b'v' => Some(11),
        _ => None,
    }
}

/// The number that digits of that base spell, if they are at least one.
fn digits(base: u8, text: &[u8]) -> Option<u64>
    requires { 0 < base }
    ensures { result ≡ option_and_then (below (2 ^ 64)) (digits_of base text.now) }
{
    if text.is_empty() || !are_digits(base, text) {
        return None;
    }
    spelled(base, text)
}

/// What an escape sequence is after its `\` (C17 6.4.4.4).
fn escape(text: &[u8]) -> Option<u64>
    ensures { result ≡ option_and_then (below (2 ^ 64)) (escape text.now) }
{
    match text {
        [b'x', rest @ ..] => digits(16, rest),
        [first, ..] if is_digit_of(8, *first) => {
            if text.len() > 3 {
                return None;
            }
            digits(8, text)
        }
        [byte] => simple_escape(*byte),
        _ => None,
    }
}

/// A byte that may stand for itself in a character constant (C17 6.4.4.4).
fn is_plain(byte: u8) -> bool
    ensures { result ≡ is_plain byte }
{
    byte < 128 && !(byte == b'\'' || byte == b'\\' || byte == b'\n')
}

/// The value of exactly one byte, or of one escape sequence.
fn element(text: &[u8]) -> Option<u64>
    ensures { result ≡ option_and_then (below (2 ^ 64)) (element text.now) }
{
    match text {
        [b'\\', rest @ ..] => escape(rest),
        [byte] if is_plain(*byte) => Some(u64::from(*byte)),
        _ => None,
    }
}

/// The bytes before the `'` that ends a text.
fn before_quote(text: &[u8]) -> Option<&[u8]>
    ensures { option_map (λ (s : _). s.now) result ≡ before_quote text.now }
{
    let (last, front) = text.split_last()?;
    if *last == b'\'' { Some(front) } else { None }
}

/// The value between two quotes.
fn quoted(text: &[u8]) -> Option<u64>
    ensures { result ≡ option_and_then (below (2 ^ 64)) (quoted text.now) }
{
    match text {
        [b'\'', rest @ ..] => element(before_quote(rest)?),
        _ => None,
    }
}

/// A value below that limit.
fn below(limit: u64, value: u64) -> Option<u64>
    ensures { result ≡ below limit value }
{
    (value < limit).then_some(value)
}

/// The value between two quotes, if it is below that limit.
fn quoted_below(limit: u64, text: &[u8]) -> Option<u64>
    ensures value { result ≡ option_and_then (below limit) (quoted text.now) }
    ensures small { IfSome result (λ n. n < limit) }
{
    let value = quoted(text)?;
    below(limit, value)
}

/// The value of a character constant, if it has one (C17 6.4.4.4).
pub fn character(text: &[u8]) -> Option<Number>
    ensures { result ≡ character_of text.now }
{
    match text {
        [b'L', rest @ ..] => Some(Number::Signed(quoted_below(1 << 31, rest)? as i64)),
        [b'u', rest @ ..] => Some(Number::Unsigned(quoted_below(1 << 16, rest)?)),
        [b'U', rest @ ..] => Some(Number::Unsigned(quoted_below(1 << 32, rest)?)),
        _ => {
            let byte = quoted_below(1 << 8, text)? as u8;
            Some(Number::Signed(i64::from(byte.cast_signed())))
        }
    }
}
