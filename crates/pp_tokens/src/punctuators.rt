ghost use Rattle.std.specs.Prelude.{◌≡◌, drop};
ghost use Rattle.std.specs.List.{find};
ghost use Rattle.std.specs.Option.{option_map};
ghost use Rattle.pp_tokens.specs.Cleaning.{bytes_of};
ghost use Rattle.pp_tokens.specs.Scan.{byte_or_zero, padded, fits, unpadded_length, punctuator_length};

use crate::chars::Chars;

/// The punctuators (C17 6.4.6), filled up with zeros. Each is before those that it begins with, frequent ones in front.
const PUNCTUATORS: [[u8; 4]; 54] = [
    *b"(\0\0\0",
    *b")\0\0\0",
    *b",\0\0\0",
    *b";\0\0\0",
    *b"##\0\0",
    *b"#\0\0\0",
    *b"*=\0\0",
    *b"*\0\0\0",
    *b"{\0\0\0",
    *b"}\0\0\0",
    *b"[\0\0\0",
    *b"]\0\0\0",
    *b"||\0\0",
    *b"|=\0\0",
    *b"|\0\0\0",
    *b"&&\0\0",
    *b"&=\0\0",
    *b"&\0\0\0",
    *b"!=\0\0",
    *b"!\0\0\0",
    *b"==\0\0",
    *b"=\0\0\0",
    *b"->\0\0",
    *b"--\0\0",
    *b"-=\0\0",
    *b"-\0\0\0",
    *b"...\0",
    *b".\0\0\0",
    *b"++\0\0",
    *b"+=\0\0",
    *b"+\0\0\0",
    *b"<<=\0",
    *b"<<\0\0",
    *b"<=\0\0",
    *b"<:\0\0",
    *b"<%\0\0",
    *b"<\0\0\0",
    *b">>=\0",
    *b">>\0\0",
    *b">=\0\0",
    *b">\0\0\0",
    *b":>\0\0",
    *b":\0\0\0",
    *b"?\0\0\0",
    *b"/=\0\0",
    *b"/\0\0\0",
    *b"%:%:",
    *b"%:\0\0",
    *b"%=\0\0",
    *b"%>\0\0",
    *b"%\0\0\0",
    *b"^=\0\0",
    *b"^\0\0\0",
    *b"~\0\0\0",
];

/// Whether the bytes of a punctuator are in front of these four.
fn stands(punctuator: &[u8; 4], window: &[u8; 4]) -> bool
    ensures { result ≡ fits punctuator.now window.now }
{
    for i in 0..4 {
        if punctuator[i] == 0 {
            return true;
        }
        if punctuator[i] != window[i] {
            return false;
        }
    }
    true
}

/// How many bytes a punctuator has.
fn size(punctuator: &[u8; 4]) -> usize
    ensures { result ≡ unpadded_length punctuator.now }
{
    for i in 0..4 {
        if punctuator[i] == 0 {
            return i;
        }
    }
    4
}

/// The length of the first text of a table that is in front of these four bytes.
fn first_of(table: &[[u8; 4]], window: &[u8; 4]) -> Option<usize>
    ensures { result ≡ option_map unpadded_length (find (λ p. fits p window.now) table.now) }
{
    for punctuator in table {
        if stands(punctuator, window) {
            return Some(size(punctuator));
        }
    }
    None
}

/// The byte in front, which is passed over, or 0 at the end.
fn next_or_zero(chars: &mut Chars<'_>) -> u8
    ensures byte { result ≡ byte_or_zero (bytes_of chars.old) }
    ensures left { chars.new ≡ drop 1 chars.old }
{
    let byte = match chars.peek() {
        Some(byte) => byte,
        None => 0,
    };
    chars.advance();
    byte
}

/// The four bytes in front, filled up with zeros.
fn window_of(chars: &Chars<'_>) -> [u8; 4]
    ensures { result ≡ padded 4 (bytes_of chars.now) }
{
    if let [a, b, c, d, ..] = chars.plain_front() {
        return [*a, *b, *c, *d];
    }
    let mut ahead = chars.fork();
    let a = next_or_zero(&mut ahead);
    let b = next_or_zero(&mut ahead);
    let c = next_or_zero(&mut ahead);
    let d = next_or_zero(&mut ahead);
    [a, b, c, d]
}

/// The length of the longest punctuator in front.
pub fn punctuator_length(chars: &Chars<'_>) -> Option<usize>
    ensures { result ≡ punctuator_length (bytes_of chars.now) }
{
    first_of(&PUNCTUATORS, &window_of(chars))
}
