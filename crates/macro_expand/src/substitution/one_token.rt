// Whether a text spells one token.
ghost use Rattle.std.specs.Prelude.{◌≡◌, IfOk};
ghost use Rattle.macro_expand.specs.Marked.{sound_kind, one_kind};
ghost use Rattle.macro_expand.specs.Substituted.{is_str};
ghost use Rattle.macro_expand.specs.States.{kind_of_only};

use crate::token::is_lone_quote;
use mac_base::NoMemory;
use pp_tokens::{Kind, LexFault, Token, lex_text};
use std::alloc::Global;

/// The kind of the only one of these tokens, where it has this text and is no quote that nothing closes.
fn kind_of_only(tokens: &[Token], text: &[u8]) -> Option<Kind>
    ensures { result ≡ kind_of_only tokens.now text.now }
{
    match tokens {
        [token] => if token.text.as_slice() == text && !is_lone_quote(token.kind) {
            Some(token.kind)
        } else {
            None
        },
        _ => None,
    }
}

/// The kind of the one token that the whole text spells.
pub fn one_kind(alloc: Global, text: &[u8]) -> Result<Option<Kind>, NoMemory>
    ensures { IfOk result (λ kind. kind ≡ one_kind text.now) }
{
    match lex_text(alloc, text) {
        Ok(tokens) => Ok(kind_of_only(tokens.as_slice(), text)),
        Err(LexFault::NoMemory) => Err(NoMemory),
        Err(LexFault::NulByte { line: _ }) => Ok(None),
        Err(LexFault::OpenComment { line: _ }) => Ok(None),
    }
}

/// Whether the whole text spells one string.
pub fn spells_string(alloc: Global, text: &[u8]) -> Result<bool, NoMemory>
    ensures { IfOk result (λ answer. answer ≡ is_str (one_kind text.now)) }
{
    let kind = one_kind(alloc, text)?;
    Ok(matches!(kind, Some(Kind::Str)))
}
