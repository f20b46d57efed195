ghost use Rattle.std.specs.Prelude.{◌≡◌, ◌≤◌, ◌<◌, ◌+◌, ◌*◌, ◌^◌, SomeIff, IsTrue};
ghost use Rattle.mac_base.specs.Digits as spec;

/// The number that digits of a base spell, the highest first and of either case; `None` exactly where a byte is no digit
/// of that base or the number is 2^64 or more. No digits spell 0.
pub fn number_of(base: u8, digits: &[u8]) -> Option<u64>
    requires { 0 < base }
    ensures { result ≡ spec.number_in base digits.now }
{
    let mut number = 0;
    for digit in digits {
        number = with_digit(base, number, *digit)?;
    }
    Some(number)
}

/// A number and one more digit of that base, where it is one and the number fits.
fn with_digit(base: u8, before: u64, digit: u8) -> Option<u64>
    ensures { SomeIff result (IsTrue (spec.is_digit_of base digit) × (before * base + spec.digit_value digit < 2 ^ 64)) (before * base + spec.digit_value digit) }
{
    let value = digit_value(digit);
    if value >= base {
        return None;
    }
    before
        .checked_mul(u64::from(base))?
        .checked_add(u64::from(value))
}

/// The value of a digit of the bases up to 16, and 16 for other bytes.
pub fn digit_value(byte: u8) -> u8
    ensures { result ≡ spec.digit_value byte }
{
    match byte {
        b'0'..=b'9' => byte - b'0',
        b'a'..=b'f' => byte - b'a' + 10,
        b'A'..=b'F' => byte - b'A' + 10,
        _ => 16,
    }
}
