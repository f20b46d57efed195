ghost use Rattle.std.specs.Prelude.{◌≡◌, ◌≤◌, ◌<◌, ◌==◌, ◌^◌, ◌&&◌, length, IfSome};
ghost use Rattle.pp_tokens.specs.Cleaning.{bytes_of};
ghost use Rattle.pp_tokens.specs.Cut.{line_rest, up_to, up_to_close};
ghost use Rattle.pp_tokens.specs.Kinds.{first_is};
ghost use Rattle.pp_tokens.specs.Scan.{word_length, number_rest, element, closing};

use crate::chars::Chars;
use crate::classes::{goes_on, is_word};

/// How many letters and digits these bytes begin with.
fn words_in(bytes: &[u8]) -> usize
    ensures { result ≡ word_length bytes.now }
{
    let mut length = 0;
    for byte in bytes {
        if !is_word(*byte) {
            return length;
        }
        length += 1;
    }
    length
}

/// How many letters and digits are in front.
pub fn word_length(chars: &Chars<'_>) -> usize
    ensures value { result ≡ word_length (bytes_of chars.now) }
    ensures bound { result ≤ length chars.now }
    ensures small { length chars.now < 2 ^ 63 }
{
    let mut length = words_in(chars.plain_front());
    let mut ahead = chars.fork();
    ahead.skip(length);
    while let Some(byte) = ahead.peek() {
        if !is_word(byte) {
            return length;
        }
        ahead.advance();
        length += 1;
    }
    length
}

/// How many bytes in front go on with a number after a byte.
pub fn number_rest(first: u8, chars: &Chars<'_>) -> usize
    ensures value { result ≡ number_rest first (bytes_of chars.now) }
    ensures bound { result ≤ length chars.now }
    ensures small { length chars.now < 2 ^ 63 }
{
    let mut ahead = chars.fork();
    let mut before = first;
    let mut length = 0;
    while let Some(byte) = ahead.peek() {
        if !goes_on(before, byte) {
            return length;
        }
        ahead.advance();
        before = byte;
        length += 1;
    }
    length
}

/// How many bytes are before the next line feed.
pub fn line_rest(chars: &Chars<'_>) -> usize
    ensures value { result ≡ line_rest (bytes_of chars.now) }
    ensures bound { result ≤ length chars.now }
    ensures small { length chars.now < 2 ^ 63 }
{
    let plain = chars.plain_front();
    let mut length = plain.len();
    let mut ahead = chars.fork();
    ahead.skip(length);
    while let Some(byte) = ahead.peek() {
        if byte == b'\n' {
            return length;
        }
        ahead.advance();
        length += 1;
    }
    length
}

/// The length of the element of a quoted text in front, 0 where there is none.
fn element(quote: u8, chars: &Chars<'_>) -> usize
    ensures { result ≡ element quote (bytes_of chars.now) }
{
    let Some(byte) = chars.peek() else {
        return 0;
    };
    if byte == quote || byte == b'\n' {
        return 0;
    }
    if byte != b'\\' {
        return 1;
    }
    let mut ahead = chars.fork();
    ahead.advance();
    match ahead.peek() {
        Some(escaped) if escaped != b'\n' => 2,
        _ => 0,
    }
}

/// The bytes up to and with the closing quote, where one comes.
pub fn closing(quote: u8, chars: &Chars<'_>) -> Option<usize>
    ensures value { result ≡ closing quote (bytes_of chars.now) }
    ensures bound { IfSome result (λ n. n ≤ length chars.now) }
    ensures small { length chars.now < 2 ^ 63 }
{
    let mut ahead = chars.fork();
    let mut length = 0;
    loop {
        let size = element(quote, &ahead);
        if size == 0 {
            break;
        }
        ahead.skip(size);
        length += size;
    }
    if ahead.is_at(quote) {
        Some(length + 1)
    } else {
        None
    }
}

/// The bytes up to and with the next one of these on the line.
pub fn up_to(last: u8, chars: &Chars<'_>) -> Option<usize>
    ensures value { result ≡ up_to last (bytes_of chars.now) }
    ensures bound { IfSome result (λ n. n ≤ length chars.now) }
    ensures small { length chars.now < 2 ^ 63 }
{
    let mut ahead = chars.fork();
    let mut length = 0;
    while let Some(byte) = ahead.peek() {
        ahead.advance();
        length += 1;
        if byte == last {
            return Some(length);
        }
        if byte == b'\n' {
            return None;
        }
    }
    None
}

/// Whether the byte and the one after it are `*/`.
fn ends_comment(byte: u8, behind: &Chars<'_>) -> bool
    ensures { result ≡ (byte == 42) && first_is (λ b. b == 47) (bytes_of behind.now) }
{
    byte == b'*' && behind.is_at(b'/')
}

/// The bytes up to and with the next `*/`.
pub fn up_to_close(chars: &Chars<'_>) -> Option<usize>
    ensures value { result ≡ up_to_close (bytes_of chars.now) }
    ensures bound { IfSome result (λ n. n ≤ length chars.now) }
    ensures small { length chars.now < 2 ^ 63 }
{
    let mut ahead = chars.fork();
    let mut length = 0;
    while let Some(byte) = ahead.peek() {
        ahead.advance();
        length += 1;
        if ends_comment(byte, &ahead) {
            return Some(length + 1);
        }
    }
    None
}
