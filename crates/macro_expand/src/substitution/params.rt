// The parameters of a macro, and where they are in its replacement list.
ghost use Rattle.std.specs.Prelude.{◌≡◌, ◌+◌, ◌∷◌, [], ◌||◌, IfOk, IfSome, ◌<◌, false, drop, length, List, ℕ, codes};
ghost use Rattle.macro_expand.specs.Macros.{named_params, params_of};
ghost use Rattle.macro_expand.specs.Calls.{is_operator, is_free, stands_free, fits};
ghost use Rattle.macro_expand.specs.States.{is_bound, stands_bound, ParamAt};

use crate::substitution::argument_pass::paste_follows;
use crate::token::{is_hash, is_named, is_paste};
use mac_base::{Bytes, NoMemory};
use macro_table::Def;
use pp_tokens::Token;
use std::alloc::Global;

/// The names of the parameters, without the dots.
fn named_params(def: &Def) -> &[Bytes]
    ensures { result.now ≡ named_params def.now }
{
    match &def.params {
        None => &[],
        Some(names) => names.as_slice(),
    }
}

/// How many named parameters there are.
pub fn named_count(def: &Def) -> usize
    ensures { result ≡ length (named_params def.now) }
{
    named_params(def).len()
}

/// How many parameters there are.
pub fn param_count(def: &Def) -> usize
    ensures { result ≡ length (params_of def.now) }
{
    let named = named_params(def).len();
    if def.variadic { named + 1 } else { named }
}

/// Whether the macro takes so many arguments.
pub fn fits_count(def: &Def, count: usize) -> bool
    ensures { result ≡ fits def.now count }
{
    let named = named_count(def);
    if def.variadic {
        named <= count
    } else {
        named == count
    }
}

/// A copy of the name of a parameter, `__VA_ARGS__` the last.
pub fn param_at(alloc: Global, def: &Def, at: usize) -> Result<Option<Bytes>, NoMemory>
    ensures name { IfOk result (λ name. ParamAt name (drop at (params_of def.now)) (drop (at + 1) (params_of def.now))) }
    ensures less { IfOk result (λ name. IfSome name (λ _. at < usize.MAX)) }
{
    let names = named_params(def);
    if at < names.len() {
        return Ok(Some(names[at].copy()?));
    }
    if def.variadic && at == names.len() {
        return Ok(Some(Bytes::from_slice(alloc, b"__VA_ARGS__")?));
    }
    Ok(None)
}

/// Whether the token is an operator of a function-like macro: `#` or `##`.
fn is_operator(token: &Token) -> bool
    ensures { result ≡ is_operator token.now }
{
    is_paste(token) || is_hash(token)
}

/// Whether the name is this token, neither after an operator nor before `##`.
fn is_free(name: &[u8], behind: bool, token: &Token, rest: &[Token]) -> bool
    ensures { result ≡ is_free name.now behind (token.now ∷ rest.now) }
{
    let named = is_named(name, token);
    let follows = paste_follows(rest);
    !behind && named && !follows
}

/// Whether the name is somewhere in the list, neither directly after an operator nor directly before `##`.
pub fn stands_free(name: &[u8], body: &[Token]) -> bool
    ensures { result ≡ stands_free name.now false body.now }
{
    let mut behind = false;
    let mut left = body;
    while let Some((token, rest)) = left.split_first() {
        if is_free(name, behind, token, rest) {
            return true;
        }
        behind = is_operator(token);
        left = rest;
    }
    false
}

/// Whether the name is this token, after an operator or before `##`.
fn is_bound(name: &[u8], behind: bool, token: &Token, rest: &[Token]) -> bool
    ensures { result ≡ is_bound name.now behind (token.now ∷ rest.now) }
{
    let named = is_named(name, token);
    let follows = paste_follows(rest);
    named && (behind || follows)
}

/// Whether the name is somewhere in the list directly after an operator or directly before `##`.
pub fn stands_bound(name: &[u8], body: &[Token]) -> bool
    ensures { result ≡ stands_bound name.now false body.now }
{
    let mut behind = false;
    let mut left = body;
    while let Some((token, rest)) = left.split_first() {
        if is_bound(name, behind, token, rest) {
            return true;
        }
        behind = is_operator(token);
        left = rest;
    }
    false
}
