ghost use Rattle.std.specs.Prelude.{◌≡◌};
ghost use Rattle.std.specs.List.{list_all};
ghost use Rattle.pp_tokens.specs.Kinds.{is_digit, is_letter, is_word, is_identifier, is_quote, is_blank, is_exponent_sign, goes_on};

/// `0` to `9`.
pub fn is_digit(byte: u8) -> bool
    ensures { result ≡ is_digit byte }
{
    byte >= 48 && byte <= 57
}

/// A letter, `_`, `$`, or a byte from 128 on.
pub fn is_letter(byte: u8) -> bool
    ensures { result ≡ is_letter byte }
{
    byte >= 65 && byte <= 90
        || byte >= 97 && byte <= 122
        || byte == b'_'
        || byte == b'$'
        || byte >= 128
}

/// A letter or a digit.
pub fn is_word(byte: u8) -> bool
    ensures { result ≡ is_word byte }
{
    is_letter(byte) || is_digit(byte)
}

/// Whether a text is one identifier: a letter, and letters and digits (C17 6.4.2.1; `$` and the bytes from 128 on count
/// as letters).
pub fn is_identifier(text: &[u8]) -> bool
    ensures { result ≡ is_identifier text.now }
{
    match text {
        [first, rest @ ..] => is_letter(*first) && are_words(rest),
        [] => false,
    }
}

/// Letters and digits.
fn are_words(bytes: &[u8]) -> bool
    ensures { result ≡ list_all is_word bytes.now }
{
    bytes.iter().all(|byte| is_word(*byte))
}

/// `'` or `"`.
pub fn is_quote(byte: u8) -> bool
    ensures { result ≡ is_quote byte }
{
    byte == b'\'' || byte == b'"'
}

/// Space, horizontal and vertical tab, form feed and carriage return.
pub fn is_blank(byte: u8) -> bool
    ensures { result ≡ is_blank byte }
{
    byte == b' ' || byte == b'\t' || byte == 11 || byte == 12 || byte == b'\r'
}

/// A sign after `e`, `E`, `p` or `P`.
fn is_exponent_sign(before: u8, byte: u8) -> bool
    ensures { result ≡ is_exponent_sign before byte }
{
    (byte == b'+' || byte == b'-')
        && (before == b'e' || before == b'E' || before == b'p' || before == b'P')
}

/// Whether the byte goes on with a number after the other.
pub fn goes_on(before: u8, byte: u8) -> bool
    ensures { result ≡ goes_on before byte }
{
    is_word(byte) || byte == b'.' || is_exponent_sign(before, byte)
}
