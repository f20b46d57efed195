// The lists of tokens that wait, one after another in a stack: the next token of the first list is on top.
ghost use Rattle.std.specs.Prelude.{◌≡◌, ◌++◌, ◌∷◌, [], IfOk, OnOk, map, Some, None, IfSome, vec_len, ◌<◌, drop};
ghost use Rattle.std.specs.Option.{option_map};
ghost use Rattle.macro_expand.specs.Marked.{fresh, delimiter_of};
ghost use Rattle.macro_expand.specs.Calls.{to_first, first_list, other_lists};
ghost use Rattle.macro_expand.specs.Heads.{opens};
ghost use Rattle.macro_expand.specs.States.{marked, hidden_names};
ghost use Rattle.macro_expand.specs.Slots.{places, lists, in_front, Takes, first_delimiter, place_delimiter, place_hides, place_of, opened, IsOpened, leap, turned, AllRight, IsRight, IsClosing};
ghost use Rattle.macro_expand.specs.declared.rescan.slots.Slot.TheVariants as slot;

use crate::delimiter::Delimiter;
use crate::hide_set::hidden_token::{HiddenToken, copy_hidden, fresh_copy};
use crate::hide_set::set::{HideSet, no_hides, same_hides};
use crate::token::{delimiter, depth_behind, ends_call, is_opening, parts_arguments};
use mac_base::NoMemory;
use pp_tokens::Token;
use std::alloc::{AllocError, Global};

/// A token of a list, or the end of one. A `(` may have with it how many slots after it go up to the `)` that closes it;
/// all other tokens have 0 there.
#[derive(Drop)]
pub enum Slot {
    Word(HiddenToken, usize),
    End,
}

/// How many slots after this one go up to the `)` that closes it, where that is known. Else 0.
fn leap(slot: &Slot) -> usize
    ensures { result ≡ leap slot.now }
{
    match slot {
        Slot::Word(_, leap) => *leap,
        Slot::End => 0,
    }
}

/// How many slots on top go up to the `)` that closes a `(` before them, where only those from `first` on are looked at.
/// It is 0 where that is not seen from what is known of them.
fn closing(slots: &[Slot], first: usize) -> usize
    requires { AllRight slots.now }
    ensures { IsClosing result (turned slots.now) }
{
    let mut left = slots;
    while let Some((slot, rest)) = left.split_last() {
        if left.len() <= first {
            return 0;
        }
        left = match slot_delimiter(slot) {
            Some(Delimiter::Closes) => {
                return slots.len() - rest.len();
            }
            Some(Delimiter::Opens) => {
                let leap = leap(slot);
                if leap == 0 {
                    return 0;
                }
                &rest[..rest.len() - leap]
            }
            Some(Delimiter::Comma) => rest,
            Some(Delimiter::Inner) => rest,
            None => {
                return 0;
            }
        };
    }
    0
}

/// What is known of the `)` that closes a token which is to be put on top. The list that it is of was put from `first` on.
fn leap_of(slots: &[Slot], first: usize, hidden: &HiddenToken) -> usize
    requires { AllRight slots.now }
    ensures { IsRight (slot.Word hidden.now result) (turned slots.now) }
{
    if is_opening(delimiter(&hidden.token)) {
        closing(slots, first)
    } else {
        0
    }
}

/// Puts a token on top. The list that it is of was put from `first` on.
fn push_word(slots: &mut Vec<Slot>, first: usize, hidden: HiddenToken) -> Result<(), AllocError>
    requires right { AllRight slots.old.items }
    ensures right { AllRight slots.new.items }
    ensures put { OnOk result (lists slots.new.items ≡ to_first (marked hidden) (lists slots.old.items)) }
{
    let leap = leap_of(slots.as_slice(), first, &hidden);
    slots.push(Slot::Word(hidden, leap))?;
    Ok(())
}

/// A list of these tokens alone, none of which hides a name.
pub fn fresh_list(alloc: Global, tokens: &[Token]) -> Result<Vec<Slot>, NoMemory>
    ensures list { IfOk result (λ slots. lists slots.items ≡ map fresh tokens.now ∷ []) }
    ensures right { IfOk result (λ slots. AllRight slots.items) }
{
    let mut slots = Vec::new(alloc);
    slots.push(Slot::End)?;
    let mut left = tokens;
    while let Some((token, rest)) = left.split_last() {
        push_word(&mut slots, 0, fresh_copy(token)?)?;
        left = rest;
    }
    Ok(slots)
}

/// Takes the next token of the first list. Where there is none, the list goes.
pub fn next_token(slots: &mut Vec<Slot>) -> Option<HiddenToken>
    requires right { AllRight slots.old.items }
    ensures right { AllRight slots.new.items }
    ensures takes { Takes (option_map marked result) (lists slots.old.items) (lists slots.new.items) }
    ensures less { IfSome result (λ _. vec_len slots.new < vec_len slots.old) }
{
    match slots.pop() {
        Some(Slot::Word(hidden, _)) => Some(hidden),
        Some(Slot::End) => None,
        None => None,
    }
}

/// Puts tokens before the first list.
pub fn put_back(slots: &mut Vec<Slot>, mut list: Vec<HiddenToken>) -> Result<(), AllocError>
    requires right { AllRight slots.old.items }
    ensures right { AllRight slots.new.items }
    ensures put { OnOk result (lists slots.new.items ≡ in_front (map marked list.items) (lists slots.old.items)) }
{
    let first = slots.len();
    while let Some(hidden) = list.pop() {
        push_word(slots, first, hidden)?;
    }
    Ok(())
}

/// Takes the first list.
pub fn take_list(alloc: Global, slots: &mut Vec<Slot>) -> Result<Vec<HiddenToken>, AllocError>
    requires right { AllRight slots.old.items }
    ensures right { AllRight slots.new.items }
    ensures list { IfOk result (λ list. map marked list.items ≡ first_list (lists slots.old.items)) }
    ensures others { IfOk result (λ _. lists slots.new.items ≡ other_lists (lists slots.old.items)) }
{
    let mut list = Vec::new(alloc);
    while let Some(hidden) = next_token(slots) {
        list.push(hidden)?;
    }
    Ok(list)
}

/// Drops so many lists.
pub fn drop_lists(alloc: Global, slots: &mut Vec<Slot>, count: usize) -> Result<(), AllocError>
    requires right { AllRight slots.old.items }
    ensures right { AllRight slots.new.items }
    ensures dropped { OnOk result (lists slots.new.items ≡ drop count (lists slots.old.items)) }
{
    for _ in 0..count {
        let _ = take_list(alloc, slots)?;
    }
    Ok(())
}

/// A copy of the first list.
pub fn copy_list(alloc: Global, slots: &[Slot]) -> Result<Vec<HiddenToken>, NoMemory>
    ensures { IfOk result (λ list. map marked list.items ≡ first_list (lists slots.now)) }
{
    let mut list = Vec::new(alloc);
    let mut left = slots;
    while let Some((slot, rest)) = left.split_last() {
        match slot {
            Slot::Word(hidden, _) => list.push(copy_hidden(hidden)?)?,
            Slot::End => return Ok(list),
        }
        left = rest;
    }
    Ok(list)
}

/// What a token is to the arguments of a call. The end of a list is nothing.
fn slot_delimiter(slot: &Slot) -> Option<Delimiter>
    ensures { result ≡ place_delimiter (place_of slot.now) }
{
    match slot {
        Slot::Word(hidden, _) => Some(delimiter(&hidden.token)),
        Slot::End => None,
    }
}

/// What the next token of the first list is to the arguments of a call.
pub fn next_delimiter(slots: &[Slot]) -> Option<Delimiter>
    ensures { result ≡ first_delimiter (first_list (lists slots.now)) }
{
    let Some((slot, _)) = slots.split_last() else {
        return None;
    };
    slot_delimiter(slot)
}

/// Whether the next token of the first list is `(`.
pub fn opens_next(slots: &[Slot]) -> bool
    ensures { result ≡ opens (first_list (lists slots.now)) }
{
    match next_delimiter(slots) {
        None => false,
        Some(part) => is_opening(part),
    }
}

/// The hide set of a token. That of the end of a list is empty.
fn slot_hides(slot: &Slot) -> Result<HideSet, AllocError>
    ensures { IfOk result (λ set. hidden_names set ≡ place_hides (place_of slot.now)) }
{
    match slot {
        Slot::Word(hidden, _) => same_hides(&hidden.hides),
        Slot::End => Ok(no_hides()),
    }
}

/// How many arguments a call has, and the hide set of the parenthesis that closes it.
#[derive(Drop)]
pub struct Cut {
    pub count: usize,
    pub hides: HideSet,
}

/// Cuts the first list, which begins after the `(` of a call, into its arguments and what follows it: each comma that
/// parts two arguments, so many at most, and the parenthesis that closes become ends of lists.
pub fn cut_arguments(slots: &mut Vec<Slot>, commas: usize) -> Result<Option<Cut>, AllocError>
    requires right { AllRight slots.old.items }
    ensures right { AllRight slots.new.items }
    ensures cut { IfOk result (λ cut. IsOpened cut slots.new.items (opened (places slots.old.items) commas 0)) }
{
    let mut count: usize = 0;
    let mut left = commas;
    let mut depth: usize = 0;
    let mut at = slots.len();
    while at > 0 {
        at -= 1;
        let slot = &slots[at];
        let Some(kind) = slot_delimiter(slot) else {
            return Ok(None);
        };
        let group = leap(slot);
        if ends_call(kind, depth) {
            let hides = slot_hides(slot)?;
            slots[at] = Slot::End;
            count += 1;
            return Ok(Some(Cut { count, hides }));
        }
        if parts_arguments(kind, left, depth) {
            slots[at] = Slot::End;
            left = left.saturating_sub(1);
            count += 1;
        } else if group == 0 {
            depth = depth_behind(kind, depth);
        } else {
            at -= group;
        }
    }
    Ok(None)
}
