ghost use Rattle.std.specs.Prelude.{◌≡◌, ◌++◌, ◌↔◌, ℕ, List, [], ◌∷◌, IsTrue, IfOk, OnOk};
ghost use Rattle.pp_tokens.specs.Printing.{SameToken, SameTokens, GivesBoth, AreDots, IsParted, IsGap, Prints};

use crate::fault::LexFault;
use crate::lexing::lex_text;
use crate::token::{Token, Tokens};
use mac_base::{Bytes, NoMemory};
use std::alloc::Global;

/// Whether two tokens have one kind and text.
fn is_same(found: &Token, wanted: &Token) -> bool
    ensures { IsTrue result ↔ SameToken found.now wanted.now }
{
    found.kind == wanted.kind && found.text.as_slice() == wanted.text.as_slice()
}

/// The two texts, one after the other.
fn joined(alloc: Global, first: &Token, second: &Token) -> Result<Vec<u8>, NoMemory>
    ensures { IfOk result (λ text. text.items ≡ first.now.text ++ second.now.text) }
{
    let mut text = Vec::from_slice(alloc, first.text.as_slice())?;
    text.extend_from_slice(second.text.as_slice())?;
    Ok(text)
}

/// Whether these are the two tokens.
fn are_both(found: &[Token], first: &Token, second: &Token) -> bool
    ensures { IsTrue result ↔ SameTokens found.now (first.now ∷ second.now ∷ []) }
{
    match found {
        [left, right] => is_same(left, first) && is_same(right, second),
        _ => false,
    }
}

/// Whether the two texts, lexed together by phase 3, give these two tokens.
fn gives_both(alloc: Global, first: &Token, second: &Token) -> Result<bool, NoMemory>
    ensures { IfOk result (λ gives. IsTrue gives ↔ GivesBoth first.now second.now) }
{
    let text = joined(alloc, first, second)?;
    match lex_text(alloc, text.as_slice()) {
        Ok(found) => Ok(are_both(found.as_slice(), first, second)),
        Err(LexFault::NoMemory) => Err(NoMemory),
        Err(LexFault::NulByte { line: _ }) => Ok(false),
        Err(LexFault::OpenComment { line: _ }) => Ok(false),
    }
}

/// Whether both tokens are `.`.
fn are_dots(first: &Token, second: &Token) -> bool
    ensures { IsTrue result ↔ AreDots first.now second.now }
{
    first.text.as_slice() == b".".as_slice() && second.text.as_slice() == b".".as_slice()
}

/// Whether white space has to be between two neighbours.
fn is_parted(alloc: Global, first: &Token, second: &Token) -> Result<bool, NoMemory>
    ensures { IfOk result (λ parted. IsTrue parted ↔ IsParted first.now second.now) }
{
    if second.space || are_dots(first, second) {
        return Ok(true);
    }
    let gives = gives_both(alloc, first, second)?;
    Ok(!gives)
}

/// Puts the space between two neighbours at the end of the text, where there is one.
fn put_gap(alloc: Global, text: &mut Vec<u8>, first: &Token, second: &Token) -> Result<(), NoMemory>
    ensures { OnOk result ((gap : List ℕ) × IsGap first.now second.now gap × (text.new.items ≡ text.old.items ++ gap)) }
{
    let parted = is_parted(alloc, first, second)?;
    if parted {
        text.push(b' ')?;
    }
    Ok(())
}

/// The texts of the tokens in order. One space is before a token that is not the first where its mark is set, where
/// the neighbouring texts alone would not be read as these two tokens, and between two `.`.
pub fn print_tokens(alloc: Global, tokens: &Tokens) -> Result<Bytes, NoMemory>
    ensures { IfOk result (λ text. Prints tokens.now text) }
{
    let tokens = tokens.as_slice();
    let mut text = Vec::new(alloc);
    if tokens.len() == 0 {
        return Ok(Bytes::from_vec(text));
    }
    text.extend_from_slice(tokens[0].text.as_slice())?;
    for i in 1..tokens.len() {
        let token = &tokens[i];
        put_gap(alloc, &mut text, &tokens[i - 1], token)?;
        text.extend_from_slice(token.text.as_slice())?;
    }
    Ok(Bytes::from_vec(text))
}
