// The strings that `#` makes (C17 6.10.3.2).
ghost use Rattle.std.specs.Prelude.{◌≡◌, ◌∷◌, ◌++◌, [], IfOk, OnOk, map, flat_map};
ghost use Rattle.macro_expand.specs.Substituted.{escaped, in_string, spelled, spelled_on, string_of};
ghost use Rattle.macro_expand.specs.States.{Answers, marked};

use crate::fault::ExpandFault;
use crate::hide_set::hidden_token::{HiddenToken, fresh_hidden};
use crate::substitution::one_token::spells_string;
use crate::token::is_literal;
use mac_base::Bytes;
use pp_tokens::{Kind, Token};
use std::alloc::{AllocError, Global};

/// Appends a byte of a literal.
fn push_escaped(text: &mut Vec<u8>, byte: u8) -> Result<(), AllocError>
    ensures { OnOk result (text.new.items ≡ text.old.items ++ escaped byte) }
{
    if byte == b'"' || byte == b'\\' {
        text.push(b'\\')?;
    }
    text.push(byte)?;
    Ok(())
}

/// Appends the bytes of a literal.
fn push_literal(text: &mut Vec<u8>, bytes: &[u8]) -> Result<(), AllocError>
    ensures { OnOk result (text.new.items ≡ text.old.items ++ flat_map escaped bytes.now) }
{
    for byte in bytes {
        push_escaped(text, *byte)?;
    }
    Ok(())
}

/// Appends the text of a token in a string.
fn push_token(text: &mut Vec<u8>, token: &Token) -> Result<(), AllocError>
    ensures { OnOk result (text.new.items ≡ text.old.items ++ in_string token.now) }
{
    if is_literal(token.kind) {
        push_literal(text, token.text.as_slice())?;
    } else {
        text.extend_from_slice(token.text.as_slice())?;
    }
    Ok(())
}

/// Appends tokens, with one space for white space before each.
fn push_tokens(text: &mut Vec<u8>, tokens: &[HiddenToken]) -> Result<(), AllocError>
    ensures { OnOk result (text.new.items ≡ text.old.items ++ spelled_on (map marked tokens.now)) }
{
    for hidden in tokens {
        if hidden.token.space {
            text.push(b' ')?;
        }
        push_token(text, &hidden.token)?;
    }
    Ok(())
}

/// The tokens between quotes.
fn quoted(alloc: Global, tokens: &[HiddenToken]) -> Result<Vec<u8>, AllocError>
    ensures { IfOk result (λ text. text.items ≡ 34 ∷ spelled (map marked tokens.now) ++ 34 ∷ []) }
{
    let mut text = Vec::new(alloc);
    text.push(b'"')?;
    if let Some((first, rest)) = tokens.split_first() {
        push_token(&mut text, &first.token)?;
        push_tokens(&mut text, rest)?;
    }
    text.push(b'"')?;
    Ok(text)
}

/// The string of an argument of this macro, in the place of a `#` with this mark.
pub fn string_of(
    alloc: Global,
    name: &[u8],
    space: bool,
    tokens: &[HiddenToken],
) -> Result<HiddenToken, ExpandFault>
    ensures { Answers marked result (string_of name.now space (map marked tokens.now)) }
{
    let text = quoted(alloc, tokens)?;
    if !spells_string(alloc, text.as_slice())? {
        let name = Bytes::from_slice(alloc, name)?;
        return Err(ExpandFault::BadString { name });
    }
    Ok(fresh_hidden(Token {
        kind: Kind::Str,
        text: Bytes::from_vec(text),
        space,
    }))
}
