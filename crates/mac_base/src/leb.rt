ghost use Rattle.std.specs.Prelude.{◌≡◌, ◌≢◌, ◌≤◌, ◌+◌, ◌*◌, ◌<◌, ◌^◌, ℤ, pos, ◌+ℤ◌, ◌*ℤ◌, FitsSigned, [], ◌∷◌, length, SomeIff, IfSome, position, nat_lt};
ghost use Rattle.std.specs.Int.{w64};
ghost use Rattle.std.specs.Option.{option_copied};
ghost use Rattle.mac_base.specs.Fields.{leb_digits, unsigned_leb, signed_leb};

/// The bytes of the LEB128 number at the beginning.
pub fn digits_of(rest: &[u8]) -> Option<&[u8]>
    ensures digits { option_copied result ≡ leb_digits rest.now }
    ensures within { IfSome result (λ digits. length digits.now ≤ length rest.now) }
    ensures some { IfSome result (λ digits. digits.now ≢ []) }
{
    let last = last_of(rest)?;
    Some(&rest[..=last])
}

/// The place of the first byte below 128.
fn last_of(rest: &[u8]) -> Option<usize>
    ensures { result ≡ position (λ byte. nat_lt byte 128) rest.now }
{
    rest.iter().position(|byte| *byte < 128)
}

/// The unsigned number of these bytes, where it fits.
pub fn unsigned(digits: &[u8]) -> Option<u64>
    ensures { SomeIff result (unsigned_leb digits.now < 2 ^ 64) (unsigned_leb digits.now) }
{
    let mut number = 0;
    for i in (0..digits.len()).rev() {
        number = with_digit(digits[i] % 128, number)?;
    }
    Some(number)
}

/// The number of a digit of seven bits and the digits above it, where it fits.
fn with_digit(low: u8, high: u64) -> Option<u64>
    ensures { SomeIff result (low + 128 * high < 2 ^ 64) (low + 128 * high) }
{
    high.checked_mul(128)?.checked_add(u64::from(low))
}

/// The signed number of these bytes, where it fits.
pub fn signed(digits: &[u8]) -> Option<i64>
    requires { digits.now ≢ [] }
    ensures { SomeIff result (FitsSigned w64 (signed_leb digits.now)) (signed_leb digits.now) }
{
    let last = digits.len() - 1;
    let mut number = last_signed(digits[last]);
    for i in (0..last).rev() {
        number = with_signed(digits[i] % 128, number)?;
    }
    Some(number)
}

/// The number of the last byte alone, whose bit 6 is the sign.
fn last_signed(byte: u8) -> i64
    ensures { result ≡ signed_leb (byte ∷ []) }
{
    if byte < 64 {
        i64::from(byte)
    } else {
        i64::from(byte) - 128
    }
}

/// The number of a digit of seven bits and the signed number above it, where it fits.
fn with_signed(low: u8, high: i64) -> Option<i64>
    requires { low < 128 }
    ensures { SomeIff result (FitsSigned w64 (pos low +ℤ pos 128 *ℤ high)) (pos low +ℤ pos 128 *ℤ high) }
{
    high.checked_mul(128)?.checked_add(i64::from(low))
}
