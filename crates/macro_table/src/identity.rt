ghost use Rattle.std.specs.Prelude.{◌≡◌, true, false, ◌&&◌, ◌∷◌, [], Some, None};
ghost use Rattle.std.specs.Bool.{beq};
ghost use lib.Pointwise.{pointwise};
ghost use Rattle.pp_tokens.specs.Kinds.{same};
ghost use Rattle.macro_table.specs.SameDefinitions.{same_token, same_body, same_params, same_def};

use crate::definition::Def;
use mac_base::{Bytes, Paths};
use pp_tokens::Token;

/// Whether the two are identical, so that one may follow the other (C17 6.10.3 p1 and p2): the same names and parameters, and
/// replacement lists of the same spelling with white space at the same places. The kinds of tokens don't count.
pub fn same(a: &Def, b: &Def) -> bool
    ensures { result ≡ same_def a.now b.now }
{
    is_text(&a.name, &b.name)
        && same_params(&a.params, &b.params)
        && a.variadic == b.variadic
        && same_body(a.body.as_slice(), b.body.as_slice())
}

/// Whether the two have the same bytes.
fn is_text(a: &Bytes, b: &Bytes) -> bool
    ensures { result ≡ same a.now b.now }
{
    a.as_slice() == b.as_slice()
}

/// Whether both are no list, or lists of the same parameters.
fn same_params(a: &Option<Paths>, b: &Option<Paths>) -> bool
    ensures { result ≡ same_params a.now b.now }
{
    match (a, b) {
        (None, None) => true,
        (Some(a), Some(b)) => same_names(a.as_slice(), b.as_slice()),
        _ => false,
    }
}

/// Whether the two are the same names in the same order.
fn same_names(a: &[Bytes], b: &[Bytes]) -> bool
    ensures { result ≡ pointwise same a.now b.now }
{
    let mut left = a;
    let mut right = b;
    while let ([x, xs @ ..], [y, ys @ ..]) = (left, right) {
        if !is_text(x, y) {
            return false;
        }
        left = xs;
        right = ys;
    }
    left.is_empty() && right.is_empty()
}

/// Whether the two are the same replacement list.
fn same_body(a: &[Token], b: &[Token]) -> bool
    ensures { result ≡ same_body a.now b.now }
{
    match (a, b) {
        ([], []) => true,
        ([x, xs @ ..], [y, ys @ ..]) => is_text(&x.text, &y.text) && same_tokens(xs, ys),
        _ => false,
    }
}

/// Whether the two are the same tokens with the same marks.
fn same_tokens(a: &[Token], b: &[Token]) -> bool
    ensures { result ≡ pointwise same_token a.now b.now }
{
    let mut left = a;
    let mut right = b;
    while let ([x, xs @ ..], [y, ys @ ..]) = (left, right) {
        if !is_same(x, y) {
            return false;
        }
        left = xs;
        right = ys;
    }
    left.is_empty() && right.is_empty()
}

/// Whether the two have the same spelling and the same mark.
fn is_same(a: &Token, b: &Token) -> bool
    ensures { result ≡ same_token a.now b.now }
{
    a.space == b.space && is_text(&a.text, &b.text)
}
