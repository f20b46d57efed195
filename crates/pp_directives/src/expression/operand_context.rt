ghost use Rattle.std.specs.Prelude.{◌≡◌, reverse};
ghost use Rattle.pp_directives.specs.Expressions.{level_of, prefix_of};
ghost use Rattle.pp_directives.specs.OperandContexts.{meanings, tightness, pull_of, closed, reduced};

use crate::expression::symbol::{Infix, Prefix, Symbol};
use crate::expression::typed_value::TypedValue;

/// What an operand that is read next belongs to. `A` is what an expression means.
#[derive(Clone, Copy, Debug)]
pub enum OperandContext<A> {
    /// It is in parentheses.
    Within,
    /// An operator comes before it.
    Before(Prefix),
    /// An operand and an operator come before it.
    After(A, Infix),
    /// A condition and `?` come before it.
    Then(A),
    /// A condition, `?`, an operand and `:` come before it.
    Else(A, A),
}

/// The level of the left operand of an operator (C17 6.5.5 to 6.5.14).
fn level(op: Infix) -> u8
    ensures { result ≡ level_of op }
{
    match op {
        Infix::LogicalOr => 2,
        Infix::LogicalAnd => 3,
        Infix::Or => 4,
        Infix::Xor => 5,
        Infix::And => 6,
        Infix::Equal | Infix::Unequal => 7,
        Infix::Less | Infix::Greater | Infix::AtMost | Infix::AtLeast => 8,
        Infix::ShiftLeft | Infix::ShiftRight => 9,
        Infix::Add | Infix::Subtract => 10,
        Infix::Multiply | Infix::Divide | Infix::Remain => 11,
    }
}

/// The operator that a symbol is before an operand (C17 6.5.3).
pub fn prefix(symbol: Symbol) -> Option<Prefix>
    ensures { result ≡ prefix_of symbol }
{
    match symbol {
        Symbol::Tilde => Some(Prefix::Complement),
        Symbol::Bang => Some(Prefix::Not),
        Symbol::Operator(Infix::Add) => Some(Prefix::Plus),
        Symbol::Operator(Infix::Subtract) => Some(Prefix::Minus),
        _ => None,
    }
}

/// The level of the left operand of a symbol after an operand: what binds tighter is closed before it.
pub fn pull(symbol: Symbol) -> u8
    ensures { result ≡ pull_of symbol }
{
    match symbol {
        Symbol::Operator(op) => level(op),
        Symbol::Question => 2,
        _ => 1,
    }
}

/// The level of the expression that a context and its operand are.
fn tightness(context: OperandContext<TypedValue>) -> u8
    ensures { result ≡ tightness context }
{
    match context {
        OperandContext::Within | OperandContext::Then(_) => 0,
        OperandContext::Else(_, _) => 1,
        OperandContext::After(_, op) => level(op),
        OperandContext::Before(_) => 12,
    }
}

/// What a context and its operand mean.
fn closed(context: OperandContext<TypedValue>, operand: TypedValue) -> TypedValue
    ensures { result ≡ closed meanings context operand }
{
    match context {
        OperandContext::Within | OperandContext::Then(_) => operand,
        OperandContext::Before(op) => operand.with_prefix(op),
        OperandContext::After(left, op) => left.with_infix(op, operand),
        OperandContext::Else(condition, a) => condition.with_choice(a, operand),
    }
}

/// Closes the innermost contexts of that level and above.
pub fn reduce(
    contexts: &mut Vec<OperandContext<TypedValue>>,
    operand: TypedValue,
    pull: u8,
) -> TypedValue
    ensures { reduced meanings pull (reverse contexts.old.items) operand
        ≡ record { contexts = reverse contexts.new.items; operand = result } }
{
    let mut operand = operand;
    while let Some(context) = contexts.last().copied() {
        if tightness(context) < pull {
            break;
        }
        contexts.pop();
        operand = closed(context, operand);
    }
    operand
}
