ghost use Rattle.std.specs.Prelude.{◌≡◌, ◌<◌, [], Err, length};
ghost use Rattle.mac_base.specs.Answers.{Answers};
ghost use Rattle.macro_table.specs.Definitions.{param_fault, closed, params_from, param_list};
ghost use Rattle.macro_table.specs.declared.fault.DefFault.TheVariants.{NoMemory as RanOut};

use crate::fault::DefFault;
use crate::params::Params;
use crate::sorts::is_va_args;
use pp_tokens::Token;
use std::alloc::Global;
use std::marker::Model;

/// A parameter list, and the tokens after its `)`.
#[derive(Drop)]
pub struct ParamList<'a> {
    pub names: Params,
    pub variadic: bool,
    pub behind: &'a [Token],
}

impl<'a> Model for ParamList<'a> {
    ghost use Rattle.macro_table.specs.Definitions.{ParamList};

    ghost Value = { ParamList };

    ghost view = { λ l. record { names = l.names; variadic = l.variadic; behind = l.behind.now } };
}

/// The parameter list after its `(` (C17 6.10.3), or its first fault from left to right.
pub fn param_list(alloc: Global, tokens: &[Token]) -> Result<ParamList<'_>, DefFault>
    ensures { Answers RanOut result (param_list tokens.now) }
{
    match tokens {
        [first, behind @ ..] if first.is_spelled(b")") => Ok(ParamList {
            names: Params::new(alloc),
            variadic: false,
            behind,
        }),
        _ => params_from(alloc, tokens),
    }
}

/// The list from the place on where the first parameter is due.
fn params_from(alloc: Global, tokens: &[Token]) -> Result<ParamList<'_>, DefFault>
    ensures { Answers RanOut result (params_from [] tokens.now) }
{
    let mut names = Params::new(alloc);
    let mut left = tokens;
    while let [first, second, behind @ ..] = left {
        if first.is_spelled(b"...") {
            return closed(names, true, second, behind);
        }
        if let Some(fault) = param_fault(&names, first) {
            return Err(fault);
        }
        names = names.with(alloc, first.text.as_slice())?;
        if !second.is_spelled(b",") {
            return closed(names, false, second, behind);
        }
        left = behind;
    }
    Err(cut_off(&names, left))
}

/// Why no parameter list ends in one token or none.
fn cut_off(names: &Params, left: &[Token]) -> DefFault
    requires { length left.now < 2 }
    ensures { params_from names.now left.now ≡ Err result }
{
    match left {
        [last, ..] => param_fault(names, last).unwrap_or(DefFault::ParamSyntax),
        [] => DefFault::ParamSyntax,
    }
}

/// Why a token can't be the parameter after these (C17 6.10.3 p5 and p6).
fn param_fault(before: &Params, token: &Token) -> Option<DefFault>
    ensures { result ≡ param_fault before.now token.now }
{
    if !token.is_identifier() {
        return Some(DefFault::ParamSyntax);
    }
    if is_va_args(token) {
        return Some(DefFault::VaArgs);
    }
    if before.has(token.text.as_slice()) {
        return Some(DefFault::RepeatedParam);
    }
    None
}

/// The list that ends at this token, if it is `)`.
fn closed<'a>(
    names: Params,
    variadic: bool,
    last: &Token,
    behind: &'a [Token],
) -> Result<ParamList<'a>, DefFault>
    ensures { result ≡ closed names variadic last.now behind.now }
{
    if !last.is_spelled(b")") {
        return Err(DefFault::ParamSyntax);
    }
    Ok(ParamList {
        names,
        variadic,
        behind,
    })
}
