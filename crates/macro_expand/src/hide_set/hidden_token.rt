// Tokens with their hide sets.
ghost use Rattle.std.specs.Prelude.{◌≡◌, ◌++◌, IfOk, if◌then◌else◌, map};
ghost use Rattle.macro_expand.specs.Marked.{fresh, spaced, hiding};
ghost use Rattle.macro_expand.specs.States.{marked, hidden_names};

use crate::hide_set::set::{HideSet, no_hides, same_hides, union};
use mac_base::NoMemory;
use pp_tokens::Token;
use std::alloc::{AllocError, Global};

/// A token with its hide set.
#[derive(Drop)]
pub struct HiddenToken {
    pub token: Token,
    pub hides: HideSet,
}

/// A token that hides no name.
pub fn fresh_hidden(token: Token) -> HiddenToken
    ensures { marked result ≡ fresh token }
{
    HiddenToken {
        token,
        hides: no_hides(),
    }
}

/// A copy of a token, which hides no name.
pub fn fresh_copy(token: &Token) -> Result<HiddenToken, NoMemory>
    ensures { IfOk result (λ h. marked h ≡ fresh token.now) }
{
    Ok(fresh_hidden(token.copy()?))
}

/// A copy of a token, which hides these names.
pub fn hiding_copy(token: &Token, hides: &HideSet) -> Result<HiddenToken, NoMemory>
    ensures { IfOk result (λ h. marked h ≡ hiding (hidden_names hides.now) (fresh token.now)) }
{
    Ok(HiddenToken {
        token: token.copy()?,
        hides: same_hides(hides)?,
    })
}

/// A copy of a token with its hide set.
pub fn copy_hidden(hidden: &HiddenToken) -> Result<HiddenToken, NoMemory>
    ensures { IfOk result (λ h. marked h ≡ marked hidden.now) }
{
    Ok(HiddenToken {
        token: hidden.token.copy()?,
        hides: same_hides(&hidden.hides)?,
    })
}

/// The token with this mark.
pub fn put_mark(space: bool, hidden: HiddenToken) -> HiddenToken
    ensures { marked result ≡ spaced space (marked hidden) }
{
    let HiddenToken { token, hides } = hidden;
    let Token {
        kind,
        text,
        space: _,
    } = token;
    HiddenToken {
        token: Token { kind, text, space },
        hides,
    }
}

/// The token, with this mark where it is the first.
pub fn mark_first(first: bool, space: bool, hidden: HiddenToken) -> HiddenToken
    ensures { marked result ≡ (if first then spaced space (marked hidden) else marked hidden) }
{
    if first {
        put_mark(space, hidden)
    } else {
        hidden
    }
}

/// The token with more names hidden.
pub fn hide_more(
    alloc: Global,
    names: &HideSet,
    hidden: HiddenToken,
) -> Result<HiddenToken, AllocError>
    ensures { IfOk result (λ h. marked h ≡ hiding (hidden_names names.now) (marked hidden)) }
{
    let HiddenToken { token, hides } = hidden;
    let hides = union(alloc, names, &hides)?;
    Ok(HiddenToken { token, hides })
}

/// The tokens, and after them those of a list without their hide sets.
pub fn with_tokens(tokens: Vec<Token>, list: Vec<HiddenToken>) -> Result<Vec<Token>, AllocError>
    ensures { IfOk result (λ all. all.items ≡ tokens.items ++ map (λ h. h.token) list.items) }
{
    let mut all = tokens;
    for hidden in list {
        all.push(hidden.token)?;
    }
    Ok(all)
}
