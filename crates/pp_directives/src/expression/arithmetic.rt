ghost use Rattle.std.specs.Prelude.{◌≡◌, ◌<◌, ◌≤◌, ◌^◌, pos, ◌*ℤ◌, bit_and, bit_or, bit_xor, ℤ, SomeIff, FitsSigned, Ok};
ghost use Rattle.std.specs.Int.{w64};
ghost use Rattle.pp_directives.specs.Numbers.{sum_of, difference_of, product_of, quotient_of, remainder_of, bitwise, is_less, is_equal, places_of, times_power, over_power, left_shift_of, right_shift_of, negated, complement_of, signed};

use crate::expression::number::Number;
use crate::fault::ExprFault;

/// A signed result, which 64 bits have to hold (C17 6.5 p5).
fn in_range(found: Option<i64>) -> Result<Number, ExprFault>
    ensures { (z : ℤ) → SomeIff found (FitsSigned w64 z) z → result ≡ signed z }
{
    match found {
        Some(x) => Ok(Number::Signed(x)),
        None => Err(ExprFault::Overflow),
    }
}

/// `+` (C17 6.5.6).
pub fn sum(a: Number, b: Number) -> Result<Number, ExprFault>
    ensures { result ≡ sum_of a b }
{
    match (a, b) {
        (Number::Signed(x), Number::Signed(y)) => in_range(x.checked_add(y)),
        _ => Ok(Number::Unsigned(a.bits().wrapping_add(b.bits()))),
    }
}

/// `-` (C17 6.5.6).
pub fn difference(a: Number, b: Number) -> Result<Number, ExprFault>
    ensures { result ≡ difference_of a b }
{
    match (a, b) {
        (Number::Signed(x), Number::Signed(y)) => in_range(x.checked_sub(y)),
        _ => Ok(Number::Unsigned(a.bits().wrapping_sub(b.bits()))),
    }
}

/// `*` (C17 6.5.5).
pub fn product(a: Number, b: Number) -> Result<Number, ExprFault>
    ensures { result ≡ product_of a b }
{
    match (a, b) {
        (Number::Signed(x), Number::Signed(y)) => in_range(x.checked_mul(y)),
        _ => Ok(Number::Unsigned(a.bits().wrapping_mul(b.bits()))),
    }
}

/// `/` (C17 6.5.5 p6).
pub fn quotient(a: Number, b: Number) -> Result<Number, ExprFault>
    ensures { result ≡ quotient_of a b }
{
    if b.is_zero() {
        return Err(ExprFault::ZeroDivisor);
    }
    match (a, b) {
        (Number::Signed(x), Number::Signed(y)) => match x.checked_div(y) {
            Some(z) => Ok(Number::Signed(z)),
            None => Err(ExprFault::Overflow),
        },
        _ => Ok(Number::Unsigned(a.bits() / b.bits())),
    }
}

/// `%` (C17 6.5.5 p6).
pub fn remainder(a: Number, b: Number) -> Result<Number, ExprFault>
    ensures { result ≡ remainder_of a b }
{
    if b.is_zero() {
        return Err(ExprFault::ZeroDivisor);
    }
    match (a, b) {
        (Number::Signed(_), Number::Signed(-1)) => Ok(Number::Signed(0)),
        (Number::Signed(x), Number::Signed(y)) => Ok(Number::Signed(x % y)),
        _ => Ok(Number::Unsigned(a.bits() % b.bits())),
    }
}

/// `&` (C17 6.5.10).
pub fn both_bits(a: Number, b: Number) -> Number
    ensures { Ok result ≡ bitwise bit_and a b }
{
    Number::of_bits(a.is_unsigned() || b.is_unsigned(), a.bits() & b.bits())
}

/// `|` (C17 6.5.12).
pub fn any_bits(a: Number, b: Number) -> Number
    ensures { Ok result ≡ bitwise bit_or a b }
{
    Number::of_bits(a.is_unsigned() || b.is_unsigned(), a.bits() | b.bits())
}

/// `^` (C17 6.5.11).
pub fn other_bits(a: Number, b: Number) -> Number
    ensures { Ok result ≡ bitwise bit_xor a b }
{
    Number::of_bits(a.is_unsigned() || b.is_unsigned(), a.bits() ^ b.bits())
}

/// Whether the first is less (C17 6.5.8).
pub fn is_less(a: Number, b: Number) -> bool
    ensures { result ≡ is_less a b }
{
    match (a, b) {
        (Number::Signed(x), Number::Signed(y)) => x < y,
        _ => a.bits() < b.bits(),
    }
}

/// Whether the two are equal (C17 6.5.9).
pub fn is_equal(a: Number, b: Number) -> bool
    ensures { result ≡ is_equal a b }
{
    a.bits() == b.bits()
}

/// How far a right operand shifts (C17 6.5.7 p3).
fn places(b: Number) -> Option<u32>
    ensures { result ≡ places_of b }
{
    match b {
        Number::Signed(x) if x < 0 => None,
        _ if b.bits() < 64 => Some(b.bits() as u32),
        _ => None,
    }
}

/// The product, if 64 bits hold it.
fn scaled(x: i64, power: u64) -> Option<i64>
    requires { power ≤ 2 ^ 63 }
    ensures { SomeIff result (FitsSigned w64 (x *ℤ pos power)) (x *ℤ pos power) }
{
    i64::try_from(i128::from(x) * i128::from(power)).ok()
}

/// The product by the power of two (C17 6.5.7 p4).
fn times_power(a: Number, places: u32) -> Result<Number, ExprFault>
    requires { places < 64 }
    ensures { result ≡ times_power a places }
{
    let power = 2u64.pow(places);
    match a {
        Number::Signed(x) => in_range(scaled(x, power)),
        Number::Unsigned(n) => Ok(Number::Unsigned(n.wrapping_mul(power))),
    }
}

/// The quotient by the power of two (C17 6.5.7 p5).
fn over_power(a: Number, places: u32) -> Number
    requires { places < 64 }
    ensures { Ok result ≡ over_power a places }
{
    match a {
        Number::Signed(x) => Number::Signed(x >> places),
        Number::Unsigned(n) => Number::Unsigned(n >> places),
    }
}

/// `<<` (C17 6.5.7).
pub fn left_shift(a: Number, b: Number) -> Result<Number, ExprFault>
    ensures { result ≡ left_shift_of a b }
{
    match places(b) {
        Some(places) => times_power(a, places),
        None => Err(ExprFault::BadShift),
    }
}

/// `>>` (C17 6.5.7).
pub fn right_shift(a: Number, b: Number) -> Result<Number, ExprFault>
    ensures { result ≡ right_shift_of a b }
{
    match places(b) {
        Some(places) => Ok(over_power(a, places)),
        None => Err(ExprFault::BadShift),
    }
}

/// Unary `-` (C17 6.5.3.3 p3).
pub fn negated(a: Number) -> Result<Number, ExprFault>
    ensures { result ≡ negated a }
{
    match a {
        Number::Signed(x) => in_range(x.checked_neg()),
        Number::Unsigned(n) => Ok(Number::Unsigned(0u64.wrapping_sub(n))),
    }
}

/// `~` (C17 6.5.3.3 p4).
pub fn complement(a: Number) -> Number
    ensures { Ok result ≡ complement_of a }
{
    Number::of_bits(a.is_unsigned(), !a.bits())
}
