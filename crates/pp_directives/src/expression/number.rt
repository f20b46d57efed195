ghost use Rattle.std.specs.Prelude.{◌≡◌};
ghost use Rattle.pp_directives.specs.Numbers.{is_unsigned, bits_of, is_zero, of_bits, converted, truth};

use crate::fault::ExprFault;

/// A number of a condition, of type intmax_t or uintmax_t (C17 6.10.1 p4), each of 64 bits.
#[derive(Clone, Copy, Debug, PartialEq, Eq)]
pub enum Number {
    Signed(i64),
    Unsigned(u64),
}

impl Number {
    /// Whether the number is of the unsigned type.
    pub fn is_unsigned(self) -> bool
        ensures { result ≡ is_unsigned self }
    {
        match self {
            Number::Signed(_) => false,
            Number::Unsigned(_) => true,
        }
    }

    /// The number in the unsigned type (C17 6.3.1.3 p2).
    pub fn bits(self) -> u64
        ensures { result ≡ bits_of self }
    {
        match self {
            Number::Signed(x) => x.cast_unsigned(),
            Number::Unsigned(n) => n,
        }
    }

    /// Whether the number is 0.
    pub fn is_zero(self) -> bool
        ensures { result ≡ is_zero self }
    {
        self.bits() == 0
    }

    /// The number with these bits.
    pub fn of_bits(unsigned: bool, bits: u64) -> Number
        ensures { result ≡ of_bits unsigned bits }
    {
        if unsigned {
            Number::Unsigned(bits)
        } else {
            Number::Signed(bits.cast_signed())
        }
    }

    /// The number in that type (C17 6.3.1.8).
    pub fn converted(self, unsigned: bool) -> Number
        ensures { result ≡ converted unsigned self }
    {
        if unsigned {
            Number::Unsigned(self.bits())
        } else {
            self
        }
    }
}

/// What a test gives: 1 or 0 (C17 6.5.8 p6).
pub fn truth(test: bool) -> Result<Number, ExprFault>
    ensures { result ≡ truth test }
{
    Ok(Number::Signed(if test { 1 } else { 0 }))
}
