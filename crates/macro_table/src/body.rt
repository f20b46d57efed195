ghost use Rattle.std.specs.Prelude.{◌≡◌};
ghost use Rattle.std.specs.List.{list_any};
ghost use Rattle.macro_table.specs.Definitions.{is_lone_quote, is_va_args, is_paste, is_param, first_passes, last_passes, has_lone_hash, breaks_hash_rule, body_fault};

use crate::fault::DefFault;
use crate::params::Params;
use crate::sorts::is_va_args;
use pp_tokens::Token;

/// The first fault of a replacement list (C17 6.10.3 p5, 6.10.3.2 p1 and 6.10.3.3 p1).
pub fn body_fault(params: &Option<Params>, variadic: bool, body: &[Token]) -> Option<DefFault>
    ensures { result ≡ body_fault params.now variadic body.now }
{
    if has_lone_quote(body) {
        return Some(DefFault::LoneQuote);
    }
    if !variadic && has_va_args(body) {
        return Some(DefFault::VaArgs);
    }
    if is_paste_first(body) || is_paste_last(body) {
        return Some(DefFault::EdgePaste);
    }
    if breaks_hash_rule(params, variadic, body) {
        return Some(DefFault::LoneHash);
    }
    None
}

/// Whether a quote that nothing closes is in the list.
fn has_lone_quote(body: &[Token]) -> bool
    ensures { result ≡ list_any is_lone_quote body.now }
{
    body.iter().any(|token| token.is_lone_quote())
}

/// Whether `__VA_ARGS__` is in the list.
fn has_va_args(body: &[Token]) -> bool
    ensures { result ≡ list_any is_va_args body.now }
{
    body.iter().any(|token| is_va_args(token))
}

/// Whether the list begins with `##`.
fn is_paste_first(body: &[Token]) -> bool
    ensures { result ≡ first_passes is_paste body.now }
{
    match body {
        [first, ..] => first.is_paste(),
        [] => false,
    }
}

/// Whether the list ends with `##`.
fn is_paste_last(body: &[Token]) -> bool
    ensures { result ≡ last_passes is_paste body.now }
{
    match body.split_last() {
        Some((last, _)) => last.is_paste(),
        None => false,
    }
}

/// Whether a `#` of a function-like macro is before no parameter.
fn breaks_hash_rule(params: &Option<Params>, variadic: bool, body: &[Token]) -> bool
    ensures { result ≡ breaks_hash_rule params.now variadic body.now }
{
    match params {
        Some(params) => has_lone_hash(params, variadic, body),
        None => false,
    }
}

/// Whether a `#` is before no parameter.
fn has_lone_hash(params: &Params, variadic: bool, body: &[Token]) -> bool
    ensures { result ≡ has_lone_hash (is_param params.now variadic) body.now }
{
    let mut left = body;
    while let Some((token, behind)) = left.split_first() {
        if token.is_hash() && !is_param_first(params, variadic, behind) {
            return true;
        }
        left = behind;
    }
    false
}

/// Whether the list begins with a parameter, or with what stands for `...`.
fn is_param_first(params: &Params, variadic: bool, behind: &[Token]) -> bool
    ensures { result ≡ first_passes (is_param params.now variadic) behind.now }
{
    match behind {
        [first, ..] => is_param(params, variadic, first),
        [] => false,
    }
}

/// Whether the token is a parameter, or stands for `...` (C17 6.10.3.1 p2).
fn is_param(params: &Params, variadic: bool, token: &Token) -> bool
    ensures { result ≡ is_param params.now variadic token.now }
{
    params.has(token.text.as_slice()) || variadic && is_va_args(token)
}
