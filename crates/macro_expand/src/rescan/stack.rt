// The lists of tokens that wait, as a stack whose slots say only what is right.
ghost use Rattle.std.specs.Prelude.{◌≡◌, ◌∷◌, [], IfOk, OnOk, map, Some, None, drop, length};
ghost use Rattle.std.specs.Option.{option_map};
ghost use Rattle.macro_expand.specs.Marked.{fresh};
ghost use Rattle.macro_expand.specs.Calls.{first_list, other_lists};
ghost use Rattle.macro_expand.specs.Heads.{opens};
ghost use Rattle.macro_expand.specs.States.{marked};
ghost use Rattle.macro_expand.specs.Slots.{places, lists, in_front, Takes, first_delimiter, opened, IsOpened};

use crate::delimiter::Delimiter;
use crate::hide_set::hidden_token::HiddenToken;
use crate::rescan::slots;
use crate::rescan::slots::{Cut, Slot};
use mac_base::NoMemory;
use pp_tokens::Token;
use std::alloc::{AllocError, Global};
use std::marker::Model;

/// The lists that wait. Contracts see the slots.
#[derive(Drop)]
pub struct Stack {
    slots: Vec<Slot>,
}

impl Model for Stack {
    ghost use Rattle.std.specs.Prelude.{List};
    ghost use Rattle.macro_expand.specs.declared.rescan.slots.Slot.{Slot as SlotValue};
    ghost use Rattle.macro_expand.specs.Slots.{AllRight};

    ghost Value = { List SlotValue };

    ghost view = { λ s. s.slots.items };

    ghost invariant = { λ s. AllRight s.slots.items };
}

/// A list of these tokens alone, none of which hides a name.
pub fn fresh_list(alloc: Global, tokens: &[Token]) -> Result<Stack, NoMemory>
    ensures { IfOk result (λ slots. lists slots ≡ map fresh tokens.now ∷ []) }
{
    let slots = slots::fresh_list(alloc, tokens)?;
    Ok(Stack { slots })
}

/// Takes the next token of the first list. Where there is none, the list goes.
pub fn next_token(slots: &mut Stack) -> Option<HiddenToken>
    ensures takes { Takes (option_map marked result) (lists slots.old) (lists slots.new) }
{
    slots::next_token(&mut slots.slots)
}

/// Puts tokens before the first list.
pub fn put_back(slots: &mut Stack, list: Vec<HiddenToken>) -> Result<(), AllocError>
    ensures { OnOk result (lists slots.new ≡ in_front (map marked list.items) (lists slots.old)) }
{
    slots::put_back(&mut slots.slots, list)
}

/// Takes the first list.
pub fn take_list(alloc: Global, slots: &mut Stack) -> Result<Vec<HiddenToken>, AllocError>
    ensures list { IfOk result (λ list. map marked list.items ≡ first_list (lists slots.old)) }
    ensures others { IfOk result (λ _. lists slots.new ≡ other_lists (lists slots.old)) }
{
    slots::take_list(alloc, &mut slots.slots)
}

/// Drops so many lists.
pub fn drop_lists(alloc: Global, slots: &mut Stack, count: usize) -> Result<(), AllocError>
    ensures { OnOk result (lists slots.new ≡ drop count (lists slots.old)) }
{
    slots::drop_lists(alloc, &mut slots.slots, count)
}

/// A copy of the first list.
pub fn copy_list(alloc: Global, slots: &Stack) -> Result<Vec<HiddenToken>, NoMemory>
    ensures { IfOk result (λ list. map marked list.items ≡ first_list (lists slots.now)) }
{
    slots::copy_list(alloc, slots.slots.as_slice())
}

/// What the next token of the first list is to the arguments of a call.
pub fn next_delimiter(slots: &Stack) -> Option<Delimiter>
    ensures { result ≡ first_delimiter (first_list (lists slots.now)) }
{
    slots::next_delimiter(slots.slots.as_slice())
}

/// Whether the next token of the first list is `(`.
pub fn opens_next(slots: &Stack) -> bool
    ensures { result ≡ opens (first_list (lists slots.now)) }
{
    slots::opens_next(slots.slots.as_slice())
}

/// How many slots there are.
pub fn slot_count(slots: &Stack) -> usize
    ensures { result ≡ length slots.now }
{
    slots.slots.len()
}

/// Cuts the first list, which begins after the `(` of a call, into its arguments and what follows it.
pub fn cut_arguments(slots: &mut Stack, commas: usize) -> Result<Option<Cut>, AllocError>
    ensures { IfOk result (λ cut. IsOpened cut slots.new (opened (places slots.old) commas 0)) }
{
    slots::cut_arguments(&mut slots.slots, commas)
}
