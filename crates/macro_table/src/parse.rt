ghost use Rattle.std.specs.Prelude.{◌≡◌};
ghost use Rattle.mac_base.specs.Answers.{Answers};
ghost use Rattle.macro_table.specs.Definitions.{name_fault, checked, def_behind, def_of};
ghost use Rattle.macro_table.specs.declared.fault.DefFault.TheVariants.{NoMemory as RanOut};

use crate::body::body_fault;
use crate::definition::Def;
use crate::fault::DefFault;
use crate::list::{ParamList, param_list};
use crate::params::Params;
use crate::sorts::{has_list, is_reserved};
use mac_base::{Bytes, Paths};
use pp_tokens::{Token, Tokens};
use std::alloc::Global;

/// The definition that the tokens after `#define` are (C17 6.10.3), or the first of its faults: of the name, of the
/// parameter list from left to right, and then of the replacement list.
pub fn parse_define(alloc: Global, tokens: &[Token]) -> Result<Def, DefFault>
    ensures { Answers RanOut result (def_of tokens.now) }
{
    let Some((name, behind)) = tokens.split_first() else {
        return Err(DefFault::NoName);
    };
    if let Some(fault) = name_fault(name) {
        return Err(fault);
    }
    def_behind(alloc, &name.text, behind)
}

/// Why a token can't be the name of a macro.
fn name_fault(token: &Token) -> Option<DefFault>
    ensures { result ≡ name_fault token.now }
{
    if !token.is_identifier() {
        return Some(DefFault::NoName);
    }
    if is_reserved(token) {
        return Some(DefFault::Reserved);
    }
    None
}

/// The definition of this name, from the tokens after it.
fn def_behind(alloc: Global, name: &Bytes, tokens: &[Token]) -> Result<Def, DefFault>
    ensures { Answers RanOut result (def_behind name.now tokens.now) }
{
    if !has_list(tokens) {
        return checked(alloc, name, None, false, tokens);
    }
    let ParamList {
        names,
        variadic,
        behind,
    } = param_list(alloc, &tokens[1..])?;
    checked(alloc, name, Some(names), variadic, behind)
}

/// The definition with this replacement list, if the list is allowed.
fn checked(
    alloc: Global,
    name: &Bytes,
    params: Option<Params>,
    variadic: bool,
    body: &[Token],
) -> Result<Def, DefFault>
    ensures { Answers RanOut result (checked (record { name = name.now; params = params; variadic = variadic; body = body.now })) }
{
    if let Some(fault) = body_fault(&params, variadic, body) {
        return Err(fault);
    }
    Ok(Def {
        name: name.copy()?,
        params: into_paths(params),
        variadic,
        body: Tokens::from_slice(alloc, body)?,
    })
}

/// The parameters of a definition.
fn into_paths(params: Option<Params>) -> Option<Paths>
    ensures { result ≡ params }
{
    match params {
        Some(params) => Some(params.into_paths()),
        None => None,
    }
}
