ghost use Rattle.std.specs.Prelude.{◌≡◌, ◌≤◌, ◌<◌, length, IfSome};
ghost use Rattle.dwmac_run.specs.Offsets as spec;

/// The offset that the word spells: `0x` and 1 to 16 hexadecimal digits of either case.
pub fn offset_of(word: &[u8]) -> Option<u64>
    ensures { result ≡ spec.offset_of word.now }
{
    match word {
        [b'0', b'x', digits @ ..] if (1..=16).contains(&digits.len()) => hex(digits),
        _ => None,
    }
}

/// The number of hexadecimal digits, if all are digits.
fn hex(digits: &[u8]) -> Option<u64>
    requires { length digits.now ≤ 16 }
    ensures { result ≡ spec.hex_after 0 digits.now }
{
    let mut number = 0;
    for byte in digits {
        number = number * 16 + u64::from(hex_value(*byte)?);
    }
    Some(number)
}

/// The value of a hexadecimal digit.
fn hex_value(byte: u8) -> Option<u8>
    ensures value { result ≡ spec.hex_value byte }
    ensures small { IfSome result (λ digit. digit < 16) }
{
    match byte {
        b'0'..=b'9' => Some(byte - b'0'),
        b'a'..=b'f' => Some(byte - b'a' + 10),
        b'A'..=b'F' => Some(byte - b'A' + 10),
        _ => None,
    }
}
