ghost use Rattle.std.specs.Prelude.{◌≡◌, ◌⊎◌, IfOk, IfErr, Ok, Err};
ghost use Rattle.pp_directives.specs.declared.fault.ExprFault.TheVariants.{NoMemory as RanOut};
ghost use Rattle.std.specs.List.{list_any};
ghost use Rattle.pp_directives.specs.Values.{operator_of, punctuator, symbol_of, symbols_of, is_defined, condition_symbols};

use crate::expression::constants::{character, number};
use crate::expression::number::Number;
use crate::expression::symbol::{Infix, Symbol};
use crate::fault::ExprFault;
use pp_tokens::{Kind, Token};
use std::alloc::Global;

/// The symbol of a punctuator between operands.
fn operator(text: &[u8]) -> Symbol
    ensures { result ≡ operator_of text.now }
{
    let op = match text {
        [b'|', b'|'] => Infix::LogicalOr,
        [b'&', b'&'] => Infix::LogicalAnd,
        [b'|'] => Infix::Or,
        [b'^'] => Infix::Xor,
        [b'&'] => Infix::And,
        [b'=', b'='] => Infix::Equal,
        [b'!', b'='] => Infix::Unequal,
        [b'<'] => Infix::Less,
        [b'>'] => Infix::Greater,
        [b'<', b'='] => Infix::AtMost,
        [b'>', b'='] => Infix::AtLeast,
        [b'<', b'<'] => Infix::ShiftLeft,
        [b'>', b'>'] => Infix::ShiftRight,
        [b'+'] => Infix::Add,
        [b'-'] => Infix::Subtract,
        [b'*'] => Infix::Multiply,
        [b'/'] => Infix::Divide,
        [b'%'] => Infix::Remain,
        _ => return Symbol::Other,
    };
    Symbol::Operator(op)
}

/// The symbol of a punctuator.
fn punctuator(text: &[u8]) -> Symbol
    ensures { result ≡ punctuator text.now }
{
    match text {
        [b'('] => Symbol::Open,
        [b')'] => Symbol::Close,
        [b'!'] => Symbol::Bang,
        [b'~'] => Symbol::Tilde,
        [b'?'] => Symbol::Question,
        [b':'] => Symbol::Colon,
        _ => operator(text),
    }
}

/// The symbol of a token: each identifier is 0 (C17 6.10.1 p4).
fn symbol(token: &Token) -> Result<Symbol, ExprFault>
    ensures { result ≡ symbol_of token.now }
{
    let text = token.text.as_slice();
    match token.kind {
        Kind::Identifier => Ok(Symbol::Constant(Number::Signed(0))),
        Kind::Number => Ok(Symbol::Constant(number(text).ok_or(ExprFault::BadNumber)?)),
        Kind::Char => Ok(Symbol::Constant(character(text).ok_or(ExprFault::BadChar)?)),
        Kind::Punct => Ok(punctuator(text)),
        _ => Ok(Symbol::Other),
    }
}

/// `defined`.
fn is_defined(token: &Token) -> bool
    ensures { result ≡ is_defined token.now }
{
    token.is_identifier() && token.is_spelled(b"defined")
}

/// Whether a `defined` is among the tokens.
fn has_defined(tokens: &[Token]) -> bool
    ensures { result ≡ list_any is_defined tokens.now }
{
    tokens.iter().any(|token| is_defined(token))
}

/// The symbols of the tokens, or the first fault from the left.
fn symbols(alloc: Global, tokens: &[Token]) -> Result<Vec<Symbol>, ExprFault>
    ensures ok { IfOk result (λ found. symbols_of tokens.now ≡ Ok found.items) }
    ensures err { IfErr result (λ fault. (fault ≡ RanOut) ⊎ (symbols_of tokens.now ≡ Err fault)) }
{
    let mut found = Vec::new(alloc);
    for token in tokens {
        found.push(symbol(token)?)?;
    }
    Ok(found)
}

/// The symbols of a condition whose macros are expanded (C17 6.10.1 p4).
pub fn condition_symbols(alloc: Global, tokens: &[Token]) -> Result<Vec<Symbol>, ExprFault>
    ensures ok { IfOk result (λ found. condition_symbols tokens.now ≡ Ok found.items) }
    ensures err { IfErr result (λ fault. (fault ≡ RanOut) ⊎ (condition_symbols tokens.now ≡ Err fault)) }
{
    if has_defined(tokens) {
        return Err(ExprFault::DefinedFromMacro);
    }
    symbols(alloc, tokens)
}
