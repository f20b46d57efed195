ghost use Rattle.std.specs.Prelude.{◌≡◌, ◌⊎◌, Err};
ghost use Rattle.pp_directives.specs.declared.fault.ExprFault.TheVariants.{NoMemory as RanOut};
ghost use Rattle.pp_directives.specs.Values.{holds, IsCondition};
ghost use Rattle.pp_directives.specs.ValueLaws.{ConditionsAreExact};

use crate::expression::number::Number;
use crate::expression::parser::parse_expression;
use crate::expression::symbols::condition_symbols;
use crate::fault::ExprFault;
use pp_tokens::Tokens;
use std::alloc::Global;

/// A condition is true where its value isn't 0 (C17 6.10.1 p3).
fn holds(value: Result<Number, ExprFault>) -> Result<bool, ExprFault>
    ensures { result ≡ holds value }
{
    Ok(!value?.is_zero())
}

/// Whether a condition holds, of which each `defined` was resolved and then the macros were expanded (C17 6.10.1 p3 and
/// p4). The fault is the first of these: a `defined` is there (`DefinedFromMacro`); the first number or character constant
/// from the left that has no value (`BadNumber`, `BadChar`); the tokens are no conditional expression (`Syntax`, 6.6); the
/// first fault of an operand that is evaluated (`Overflow`, `ZeroDivisor`, `BadShift`).
pub fn evaluate(alloc: Global, tokens: &Tokens) -> Result<bool, ExprFault>
    ensures { (result ≡ Err RanOut) ⊎ IsCondition tokens.now result }
{
    let symbols = condition_symbols(alloc, tokens.as_slice())?;
    let read = parse_expression(alloc, symbols.as_slice())?;
    holds(read.value)
}

/// A list of tokens has exactly one answer, a list of symbols at most one syntax tree, a value the type of its tree, and
/// each fault tells the step that it comes from: the answer is `Syntax` only where there is no tree.
pub fn conditions_are_exact()
    ensures { ConditionsAreExact }
{}
