// The expansion of a text.
ghost use Rattle.std.specs.Prelude.{◌≡◌, IfOk, map};
ghost use Rattle.std.specs.List.{list_any};
ghost use Rattle.macro_expand.specs.Macros.{macros_of};
ghost use Rattle.macro_expand.specs.Marked.{is_identifier};
ghost use Rattle.macro_expand.specs.Expansion.{has_lone_quote};
ghost use Rattle.macro_expand.specs.Rules.{ExpandsTo};
ghost use Rattle.macro_expand.specs.Answering.{IsAnswer};

use crate::fault::ExpandFault;
use crate::here::Here;
use crate::hide_set::hidden_token::{HiddenToken, with_tokens};
use crate::rescan::machine::run;
use crate::rescan::parsed_macro::Definitions;
use crate::rescan::stack::fresh_list;
use crate::token::{is_identifier, is_lone_quote};
use macro_table::Table;
use pp_tokens::{Token, Tokens};
use std::alloc::{AllocError, Global};

/// Whether a quote that nothing closes is among the tokens.
pub fn has_lone_quote(tokens: &[Token]) -> bool
    ensures { result ≡ has_lone_quote tokens.now }
{
    for token in tokens {
        if is_lone_quote(token.kind) {
            return true;
        }
    }
    false
}

/// Whether an identifier is among the tokens.
fn has_identifier(tokens: &[Token]) -> bool
    ensures { result ≡ list_any (λ t. is_identifier t.kind) tokens.now }
{
    tokens.iter().any(|token| is_identifier(token.kind))
}

/// The tokens without their hide sets.
pub fn without_hides(alloc: Global, tokens: Vec<HiddenToken>) -> Result<Tokens, AllocError>
    ensures { IfOk result (λ all. all ≡ map (λ h. h.token) tokens.items) }
{
    let none = Vec::with_capacity(alloc, tokens.len())?;
    let all = with_tokens(none, tokens)?;
    Ok(Tokens::from_vec(all))
}

/// What the tokens expand to under the table (C17 6.10.3), or the first fault.
pub fn expand(
    alloc: Global,
    table: &Table,
    here: &Here,
    tokens: &Tokens,
) -> Result<Tokens, ExpandFault>
    ensures exact { IsAnswer (ExpandsTo (macros_of table.now) here.now tokens.now) result }
{
    if has_lone_quote(tokens.as_slice()) {
        return Err(ExpandFault::LoneQuote);
    }
    if !has_identifier(tokens.as_slice()) {
        return Ok(tokens.copy()?);
    }
    let slots = fresh_list(alloc, tokens.as_slice())?;
    let mut definitions = Definitions::new(alloc, table);
    let out = run(alloc, here, &mut definitions, slots)?;
    Ok(Tokens::from_vec(out))
}
