ghost use Rattle.std.specs.Prelude.{◌≡◌, Ok};
ghost use Rattle.pp_directives.specs.Values.{prefixed, infixed, infixed_type, chosen};
ghost use Rattle.pp_directives.specs.TypedValues.{constant, with_prefix, with_infix, with_choice};

use crate::expression::arithmetic::{
    any_bits, both_bits, complement, difference, is_equal, is_less, left_shift, negated,
    other_bits, product, quotient, remainder, right_shift, sum,
};
use crate::expression::number::{Number, truth};
use crate::expression::symbol::{Infix, Prefix};
use crate::fault::ExprFault;

/// What an expression means: its type, and the number or the fault that its evaluation gives. An expression that is not
/// evaluated in the end has both too.
#[derive(Clone, Copy, Debug)]
pub struct TypedValue {
    /// Whether it is of the unsigned type.
    pub unsigned: bool,
    /// What its evaluation gives.
    pub value: Result<Number, ExprFault>,
}

/// An operator before an operand that has a value (C17 6.5.3.3).
fn prefixed(op: Prefix, x: Number) -> Result<Number, ExprFault>
    ensures { result ≡ prefixed op x }
{
    match op {
        Prefix::Plus => Ok(x),
        Prefix::Minus => negated(x),
        Prefix::Complement => Ok(complement(x)),
        Prefix::Not => truth(x.is_zero()),
    }
}

/// An operator between two operands that have values (C17 6.5.5 to 6.5.14).
fn computed(op: Infix, x: Number, y: Number) -> Result<Number, ExprFault>
    ensures { result ≡ infixed op x (Ok y) }
{
    match op {
        Infix::LogicalOr => truth(!x.is_zero() || !y.is_zero()),
        Infix::LogicalAnd => truth(!x.is_zero() && !y.is_zero()),
        Infix::Or => Ok(any_bits(x, y)),
        Infix::Xor => Ok(other_bits(x, y)),
        Infix::And => Ok(both_bits(x, y)),
        Infix::Equal => truth(is_equal(x, y)),
        Infix::Unequal => truth(!is_equal(x, y)),
        Infix::Less => truth(is_less(x, y)),
        Infix::Greater => truth(is_less(y, x)),
        Infix::AtMost => truth(!is_less(y, x)),
        Infix::AtLeast => truth(!is_less(x, y)),
        Infix::ShiftLeft => left_shift(x, y),
        Infix::ShiftRight => right_shift(x, y),
        Infix::Add => sum(x, y),
        Infix::Subtract => difference(x, y),
        Infix::Multiply => product(x, y),
        Infix::Divide => quotient(x, y),
        Infix::Remain => remainder(x, y),
    }
}

/// An operator between operands, of which the left one has a value. What it says alone decides whether the right one is
/// evaluated (C17 6.5.13 p4, 6.5.14 p4).
fn infixed(op: Infix, x: Number, b: Result<Number, ExprFault>) -> Result<Number, ExprFault>
    ensures { result ≡ infixed op x b }
{
    match op {
        Infix::LogicalOr if !x.is_zero() => truth(true),
        Infix::LogicalAnd if x.is_zero() => truth(false),
        _ => computed(op, x, b?),
    }
}

/// Whether the result of an operator is of the unsigned type (C17 6.3.1.8).
fn infixed_type(op: Infix, a: bool, b: bool) -> bool
    ensures { result ≡ infixed_type op a b }
{
    match op {
        Infix::LogicalOr | Infix::LogicalAnd => false,
        Infix::Equal | Infix::Unequal => false,
        Infix::Less | Infix::Greater | Infix::AtMost | Infix::AtLeast => false,
        Infix::ShiftLeft | Infix::ShiftRight => a,
        Infix::Or | Infix::Xor | Infix::And => a || b,
        Infix::Add | Infix::Subtract => a || b,
        Infix::Multiply | Infix::Divide | Infix::Remain => a || b,
    }
}

impl TypedValue {
    /// A constant.
    pub fn constant(n: Number) -> TypedValue
        ensures { result ≡ constant n }
    {
        TypedValue {
            unsigned: n.is_unsigned(),
            value: Ok(n),
        }
    }

    /// An operator before this operand.
    pub fn with_prefix(self, op: Prefix) -> TypedValue
        ensures { result ≡ with_prefix op self }
    {
        TypedValue {
            unsigned: op != Prefix::Not && self.unsigned,
            value: self.value.and_then(|x| prefixed(op, x)),
        }
    }

    /// An operator between this operand and another.
    pub fn with_infix(self, op: Infix, right: TypedValue) -> TypedValue
        ensures { result ≡ with_infix op self right }
    {
        TypedValue {
            unsigned: infixed_type(op, self.unsigned, right.unsigned),
            value: self.value.and_then(|x| infixed(op, x, right.value)),
        }
    }

    /// `?` and `:` after this condition.
    pub fn with_choice(self, a: TypedValue, b: TypedValue) -> TypedValue
        ensures { result ≡ with_choice self a b }
    {
        let unsigned = a.unsigned || b.unsigned;
        TypedValue {
            unsigned,
            value: self
                .value
                .and_then(|x| chosen(unsigned, x, a.value, b.value)),
        }
    }
}

/// The operand that the condition chooses, in that type (C17 6.5.15).
fn chosen(
    unsigned: bool,
    x: Number,
    a: Result<Number, ExprFault>,
    b: Result<Number, ExprFault>,
) -> Result<Number, ExprFault>
    ensures { result ≡ chosen unsigned x a b }
{
    let taken = if x.is_zero() { b? } else { a? };
    Ok(taken.converted(unsigned))
}
