ghost use Rattle.std.specs.Prelude.{◌≡◌, reverse, Some};
ghost use Rattle.pp_directives.specs.Expressions.{prefix_of};
ghost use Rattle.pp_directives.specs.declared.expression.symbol.Symbol.TheVariants.{Colon, Close};
ghost use Rattle.pp_directives.specs.OperandContexts.{meanings, begun, placed, step, finished, Steps, Spells, spelled_by};

use crate::expression::operand_context::{OperandContext, prefix, pull, reduce};
use crate::expression::symbol::Symbol;
use crate::expression::typed_value::TypedValue;
use crate::fault::ExprFault;
use std::alloc::Global;

/// A symbol where an operand is due. Gives the operand that is read then, if one is.
fn begin(
    contexts: &mut Vec<OperandContext<TypedValue>>,
    symbol: Symbol,
) -> Result<Option<TypedValue>, ExprFault>
    ensures { Steps contexts.new.items result (begun meanings (reverse contexts.old.items) (prefix_of symbol) symbol) }
{
    match symbol {
        Symbol::Constant(n) => return Ok(Some(TypedValue::constant(n))),
        Symbol::Open => contexts.push(OperandContext::Within)?,
        _ => match prefix(symbol) {
            Some(op) => contexts.push(OperandContext::Before(op))?,
            None => return Err(ExprFault::Syntax),
        },
    }
    Ok(None)
}

/// `:` after this operand.
fn turn(
    contexts: &mut Vec<OperandContext<TypedValue>>,
    a: TypedValue,
) -> Result<Option<TypedValue>, ExprFault>
    ensures { Steps contexts.new.items result (placed Colon (reverse contexts.old.items) a) }
{
    match contexts.pop() {
        Some(OperandContext::Then(condition)) => {
            contexts.push(OperandContext::Else(condition, a))?;
            Ok(None)
        }
        _ => Err(ExprFault::Syntax),
    }
}

/// `)` after this operand.
fn leave(
    contexts: &mut Vec<OperandContext<TypedValue>>,
    m: TypedValue,
) -> Result<Option<TypedValue>, ExprFault>
    ensures { Steps contexts.new.items result (placed Close (reverse contexts.old.items) m) }
{
    match contexts.pop() {
        Some(OperandContext::Within) => Ok(Some(m)),
        _ => Err(ExprFault::Syntax),
    }
}

/// A symbol after this operand, when what binds it tighter is closed.
fn place(
    contexts: &mut Vec<OperandContext<TypedValue>>,
    m: TypedValue,
    symbol: Symbol,
) -> Result<Option<TypedValue>, ExprFault>
    ensures { Steps contexts.new.items result (placed symbol (reverse contexts.old.items) m) }
{
    match symbol {
        Symbol::Colon => return turn(contexts, m),
        Symbol::Close => return leave(contexts, m),
        Symbol::Operator(op) => contexts.push(OperandContext::After(m, op))?,
        Symbol::Question => contexts.push(OperandContext::Then(m))?,
        _ => return Err(ExprFault::Syntax),
    }
    Ok(None)
}

/// A symbol, where an operand is due or was read.
fn step(
    contexts: &mut Vec<OperandContext<TypedValue>>,
    operand: Option<TypedValue>,
    symbol: Symbol,
) -> Result<Option<TypedValue>, ExprFault>
    ensures { Steps contexts.new.items result (step meanings (reverse contexts.old.items) symbol operand) }
{
    match operand {
        None => begin(contexts, symbol),
        Some(m) => {
            let m = reduce(contexts, m, pull(symbol));
            place(contexts, m, symbol)
        }
    }
}

/// The operand when all contexts are closed, if they can be.
fn finish(
    contexts: &mut Vec<OperandContext<TypedValue>>,
    operand: Option<TypedValue>,
) -> Result<TypedValue, ExprFault>
    ensures { Spells result (finished meanings (reverse contexts.old.items) operand) }
{
    let Some(m) = operand else {
        return Err(ExprFault::Syntax);
    };
    let m = reduce(contexts, m, 1);
    if !contexts.is_empty() {
        return Err(ExprFault::Syntax);
    }
    Ok(m)
}

/// What the expression means that the symbols spell. Nested expressions take no stack: what is open is kept in a list.
pub fn parse_expression(alloc: Global, symbols: &[Symbol]) -> Result<TypedValue, ExprFault>
    ensures { Spells result (spelled_by meanings symbols.now) }
{
    let mut contexts = Vec::new(alloc);
    let mut operand = None;
    for symbol in symbols {
        operand = step(&mut contexts, operand, *symbol)?;
    }
    finish(&mut contexts, operand)
}
