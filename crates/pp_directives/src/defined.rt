ghost use Rattle.std.specs.Prelude.{◌≡◌, ◌<◌, ℕ, Bool, List, [], length, Ok, Err, IfOk, IfErr, IfSome, IfNone, MatchOption};
ghost use Rattle.pp_tokens.specs.declared.token.Token.{Token as TokenValue};
ghost use Rattle.pp_tokens.specs.Kinds.{same};
ghost use Rattle.mac_base.specs.Answers.{Answers, IsFaultOf};
ghost use Rattle.pp_directives.specs.declared.fault.ExprFault.TheVariants.{Syntax, NoMemory as RanOut};
ghost use Rattle.pp_directives.specs.Defined.{is_built_in, is_defined, truth, before, resolved, after_defined, after_parenthesis};

use crate::fault::ExprFault;
use crate::spelled::is_text;
use mac_base::{Bytes, NoMemory};
use macro_table::Table;
use pp_tokens::{Kind, Token, Tokens};
use std::alloc::Global;

/// A use of `defined`: its name, and the tokens after it.
#[derive(Clone, Copy)]
struct Use<'a> {
    name: &'a Token,
    after: &'a [Token],
}

/// The first of the tokens that come out, and those after what it was made of.
#[derive(Drop)]
struct Piece<'a> {
    token: Token,
    after: &'a [Token],
}

/// Whether a name is defined as a macro (C17 6.10.1 p1). `__LINE__` and `__FILE__` always are (6.10.8.1).
pub fn is_defined(table: &Table, name: &[u8]) -> bool
    ensures { result ≡ is_defined table.now name.now }
{
    is_built_in(name) || table.get(name).is_some()
}

/// `__LINE__` or `__FILE__`.
fn is_built_in(name: &[u8]) -> bool
    ensures { result ≡ is_built_in name.now }
{
    is_text(name, b"__LINE__") || is_text(name, b"__FILE__")
}

/// The number in the place of a `defined`, with its mark of white space.
fn truth(alloc: Global, defined: &Token, held: bool) -> Result<Token, NoMemory>
    ensures { IfOk result (λ token. token ≡ truth defined.now held) }
{
    let digit = if held { b'1' } else { b'0' };
    let mut text = Bytes::new(alloc);
    text.push(digit)?;
    Ok(Token {
        kind: Kind::Number,
        text,
        space: defined.space,
    })
}

/// The name between `(` and `)`.
fn use_in_parentheses<'a>(tokens: &'a [Token]) -> Option<Use<'a>>
    ensures some { IfSome result (λ found. (defined : List ℕ → Bool) (t : TokenValue) → after_parenthesis defined t tokens.now ≡ before (truth t (defined found.name.now.text)) (resolved defined found.after.now)) }
    ensures none { IfNone result ((defined : List ℕ → Bool) (t : TokenValue) → after_parenthesis defined t tokens.now ≡ Err Syntax) }
    ensures less { IfSome result (λ found. length found.after.now < length tokens.now) }
{
    let [name, rest @ ..] = tokens else {
        return None;
    };
    if !name.is_identifier() {
        return None;
    }
    match rest {
        [close, after @ ..] if close.is_spelled(b")") => Some(Use { name, after }),
        _ => None,
    }
}

/// The name that follows `defined`, alone or in parentheses, if one does.
fn use_of<'a>(tokens: &'a [Token]) -> Option<Use<'a>>
    ensures some { IfSome result (λ found. (defined : List ℕ → Bool) (t : TokenValue) → after_defined defined t tokens.now ≡ before (truth t (defined found.name.now.text)) (resolved defined found.after.now)) }
    ensures none { IfNone result ((defined : List ℕ → Bool) (t : TokenValue) → after_defined defined t tokens.now ≡ Err Syntax) }
    ensures less { IfSome result (λ found. length found.after.now < length tokens.now) }
{
    match tokens {
        [name, after @ ..] if name.is_identifier() => Some(Use { name, after }),
        [open, after @ ..] if open.is_spelled(b"(") => use_in_parentheses(after),
        _ => None,
    }
}

/// The first of the tokens that come out, if there is one.
fn first_piece<'a>(
    alloc: Global,
    table: &Table,
    tokens: &'a [Token],
) -> Result<Option<Piece<'a>>, ExprFault>
    ensures ok { IfOk result (λ found. MatchOption found (resolved (is_defined table.now) tokens.now ≡ Ok []) (λ next. resolved (is_defined table.now) tokens.now ≡ before next.token (resolved (is_defined table.now) next.after.now))) }
    ensures less { IfOk result (λ found. IfSome found (λ next. length next.after.now < length tokens.now)) }
    ensures err { IfErr result (IsFaultOf RanOut (resolved (is_defined table.now) tokens.now)) }
{
    let Some((token, after)) = tokens.split_first() else {
        return Ok(None);
    };
    if !token.is_spelled(b"defined") {
        return Ok(Some(Piece {
            token: token.copy()?,
            after,
        }));
    }
    let Some(Use { name, after }) = use_of(after) else {
        return Err(ExprFault::Syntax);
    };
    let held = is_defined(table, name.text.as_slice());
    Ok(Some(Piece {
        token: truth(alloc, token, held)?,
        after,
    }))
}

/// The tokens of a condition, where each `defined NAME` and each `defined ( NAME )` is replaced by the number 1 or 0 (C17
/// 6.10.1 p1). Another use of `defined` is `Syntax`.
pub fn resolve_defined(alloc: Global, tokens: &Tokens, table: &Table) -> Result<Tokens, ExprFault>
    ensures { Answers RanOut result (resolved (is_defined table.now) tokens.now) }
{
    resolve_slice(alloc, tokens.as_slice(), table)
}

/// The same for tokens that are part of a longer list.
pub fn resolve_slice(alloc: Global, tokens: &[Token], table: &Table) -> Result<Tokens, ExprFault>
    ensures { Answers RanOut result (resolved (is_defined table.now) tokens.now) }
{
    let mut done = Tokens::with_capacity(alloc, tokens.len())?;
    let mut left = tokens;
    while let Some(Piece { token, after }) = first_piece(alloc, table, left)? {
        done.push(token)?;
        left = after;
    }
    Ok(done)
}
