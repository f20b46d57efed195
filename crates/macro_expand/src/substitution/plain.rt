// Replacement lists whose tokens go in as they are: those of object-like macros in which nothing is joined (C17 6.10.3 p9).
ghost use Rattle.std.specs.Prelude.{◌≡◌, ◌&&◌, not, IfOk, map};
ghost use Rattle.macro_expand.specs.Marked.{fresh, hiding};
ghost use Rattle.macro_expand.specs.Substituted.{first_spaced};
ghost use Rattle.macro_expand.specs.States.{argument_of, hidden_names, marked, has_paste, no_arguments};

use crate::hide_set::hidden_token::{HiddenToken, hiding_copy, mark_first};
use crate::hide_set::set::HideSet;
use crate::substitution::argument_pass::Argument;
use crate::token::is_paste;
use mac_base::NoMemory;
use pp_tokens::Token;
use std::alloc::Global;

/// Whether a `##` is among the tokens.
fn has_paste(tokens: &[Token]) -> bool
    ensures { result ≡ has_paste tokens.now }
{
    for token in tokens {
        if is_paste(token) {
            return true;
        }
    }
    false
}

/// Whether there is no argument.
fn no_arguments(args: &[Argument]) -> bool
    ensures { result ≡ no_arguments (map argument_of args.now) }
{
    args.is_empty()
}

/// Whether the tokens of a replacement list go in as they are.
pub fn goes_in(calls: bool, args: &[Argument], body: &[Token]) -> bool
    ensures { result ≡ (not calls && no_arguments (map argument_of args.now) && not (has_paste body.now)) }
{
    !calls && no_arguments(args) && !has_paste(body)
}

/// Copies of the tokens, with these names hidden, the first with this mark.
pub fn hidden_copies(
    alloc: Global,
    space: bool,
    hides: &HideSet,
    tokens: &[Token],
) -> Result<Vec<HiddenToken>, NoMemory>
    ensures { IfOk result (λ list. map marked list.items ≡ map (hiding (hidden_names hides.now)) (first_spaced space (map fresh tokens.now))) }
{
    let mut list = Vec::with_capacity(alloc, tokens.len())?;
    let mut first = true;
    for token in tokens {
        let hidden = hiding_copy(token, hides)?;
        list.push(mark_first(first, space, hidden))?;
        first = false;
    }
    Ok(list)
}
