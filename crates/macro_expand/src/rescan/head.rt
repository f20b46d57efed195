// What is at the head of the first list (C17 6.10.3 p9 and p10, 6.10.3.4, 6.10.8.1).
ghost use Rattle.std.specs.Prelude.{◌≡◌, ◌∷◌, ◌++◌, [], IfOk, OnOk, decimal, flat_map, ◌&&◌, length, if◌then◌else◌};
ghost use Rattle.macro_expand.specs.Marked.{with_name as with_name_of, intersection as intersection_of};
ghost use Rattle.macro_expand.specs.Macros.{macros_of, named_params};
ghost use Rattle.macro_expand.specs.Calls.{first_list, other_lists, closed, Closed};
ghost use Rattle.macro_expand.specs.Heads.{in_file, instead, head_of, seen_head as seen_head_of, macro_head as macro_head_of, call_head as call_head_of};
ghost use Rattle.macro_expand.specs.States.{marked, hidden_names, name_text};
ghost use Rattle.macro_expand.specs.Slots.{lists, first_delimiter};
ghost use Rattle.macro_expand.specs.ParsedMacros.{IsMeaning, IsMore};
ghost use Rattle.macro_expand.specs.Taking.{IsHead, IsCall, no_named, closes, is_unknown, named_head as named_head_of};

use crate::delimiter::Delimiter;
use crate::fault::ExpandFault;
use crate::here::Here;
use crate::hide_set::hidden_token::HiddenToken;
use crate::hide_set::set::{HideSet, Name, hides, intersection, with_name};
use crate::rescan::parsed_macro::{Definitions, ParsedMacro};
use crate::rescan::slots::Cut;
use crate::rescan::stack::{
    Stack, cut_arguments, next_delimiter, next_token, opens_next, slot_count,
};
use crate::substitution::params::{fits_count, named_count, param_count};
use crate::token::is_identifier;
use mac_base::{Bytes, NoMemory};
use macro_table::Def;
use pp_tokens::{Kind, Token};
use std::alloc::{AllocError, Global};
use std::rc::Rc;

/// The name of a macro that is replaced. Its arguments from the parameter `next` on are the first lists, `count` of them.
#[derive(Drop)]
pub struct MacroCall {
    pub def: Rc<Def>,
    pub name: Bytes,
    pub space: bool,
    pub hides: HideSet,
    pub next: usize,
    pub count: usize,
}

/// What is at the head of a list.
#[derive(Drop)]
pub enum NextHead {
    /// Nothing.
    Finished,
    /// A token that stays.
    Stays(HiddenToken),
    /// A name that is replaced.
    Replaced(MacroCall),
}

/// Whether the name stands for nothing, and not for its place either.
fn is_unknown(known: &Option<ParsedMacro>, name: &[u8]) -> bool
    ensures { result ≡ is_unknown known.now name.now }
{
    known.is_none() && name != b"__LINE__".as_slice() && name != b"__FILE__".as_slice()
}

/// The set with the name more, unless it has the name already.
#[inline(never)]
fn with_name_once(alloc: Global, name: &[u8], set: &HideSet) -> Result<Option<HideSet>, AllocError>
    ensures { IfOk result (λ more. IsMore more name.now (hidden_names set.now)) }
{
    if hides(set, name) {
        return Ok(None);
    }
    let more = with_name(alloc, name, set)?;
    Ok(Some(more))
}

/// The hide set of the token with its own name more, of which this is known. None where it has the name already.
fn hide_own_name(
    alloc: Global,
    definitions: &mut Definitions,
    known: &Option<ParsedMacro>,
    hidden: &HiddenToken,
) -> Result<Option<HideSet>, AllocError>
    requires { IsMeaning known.now hidden.now.token.text (macros_of definitions.old hidden.now.token.text) }
    ensures set { IfOk result (λ more. IsMore more hidden.now.token.text (hidden_names hidden.now.hides)) }
    ensures kept { definitions.new ≡ definitions.old }
{
    match known {
        None => with_name_once(alloc, hidden.token.text.as_slice(), &hidden.hides),
        Some(known) => definitions.hide_once(alloc, known.number, &known.name, &hidden.hides),
    }
}

/// The number of the line.
#[inline(never)]
fn line_text(alloc: Global, line: u64) -> Result<Bytes, NoMemory>
    ensures { IfOk result (λ text. text ≡ decimal line) }
{
    let text = format!(in alloc; "{line}")?;
    Bytes::from_slice(alloc, text.as_bytes())
}

/// Appends a byte of a path.
fn push_in_file(text: &mut Vec<u8>, byte: u8) -> Result<(), AllocError>
    ensures { OnOk result (text.new.items ≡ text.old.items ++ in_file byte) }
{
    if byte == b'\n' {
        text.push(b'\\')?;
        text.push(b'n')?;
        return Ok(());
    }
    if byte == b'"' || byte == b'\\' {
        text.push(b'\\')?;
    }
    text.push(byte)?;
    Ok(())
}

/// The path as a string.
#[inline(never)]
fn file_text(alloc: Global, file: &[u8]) -> Result<Bytes, AllocError>
    ensures { IfOk result (λ text. text ≡ 34 ∷ flat_map in_file file.now ++ 34 ∷ []) }
{
    let mut text = Vec::new(alloc);
    text.push(b'"')?;
    for byte in file {
        push_in_file(&mut text, *byte)?;
    }
    text.push(b'"')?;
    Ok(Bytes::from_vec(text))
}

/// A token of this kind and text in the place of a name, whose own replacement it hides.
fn put_instead(kind: Kind, text: Bytes, hidden: &HiddenToken, hides: HideSet) -> HiddenToken
    requires { hidden_names hides ≡ with_name_of hidden.now.token.text (hidden_names hidden.now.hides) }
    ensures { marked result ≡ instead kind text (marked hidden.now) }
{
    HiddenToken {
        token: Token {
            kind,
            text,
            space: hidden.token.space,
        },
        hides,
    }
}

/// Takes the head of the first list.
pub fn take_head(
    alloc: Global,
    here: &Here,
    definitions: &mut Definitions,
    slots: &mut Stack,
) -> Result<NextHead, ExpandFault>
    ensures head { IsHead result (lists slots.old) (lists slots.new) (head_of (macros_of definitions.old) here.now (first_list (lists slots.old))) }
    ensures kept { definitions.new ≡ definitions.old }
{
    let Some(hidden) = next_token(slots) else {
        return Ok(NextHead::Finished);
    };
    if !is_identifier(hidden.token.kind) {
        return Ok(NextHead::Stays(hidden));
    }
    let head = named_head(alloc, here, definitions, hidden, slots)?;
    Ok(head)
}

/// The head of a list that begins with a name. Most names stand for nothing, and then what their tokens hide is not
/// looked at.
fn named_head(
    alloc: Global,
    here: &Here,
    definitions: &mut Definitions,
    hidden: HiddenToken,
    slots: &mut Stack,
) -> Result<NextHead, ExpandFault>
    ensures head { IsHead result (lists slots.old) (lists slots.new) (named_head_of (macros_of definitions.old) here.now (marked hidden) (first_list (lists slots.old))) }
    ensures kept { definitions.new ≡ definitions.old }
{
    let name = hidden.token.text.as_slice();
    let known = definitions.look_up(alloc, name)?;
    if is_unknown(&known, name) {
        return Ok(NextHead::Stays(hidden));
    }
    let Some(hides) = hide_own_name(alloc, definitions, &known, &hidden)? else {
        return Ok(NextHead::Stays(hidden));
    };
    let head = seen_head(alloc, here, definitions, known, hidden, hides, slots)?;
    Ok(head)
}

/// The head of a list that begins with a name that its token does not hide. `hides` is what the token hides, and the name.
fn seen_head(
    alloc: Global,
    here: &Here,
    definitions: &mut Definitions,
    known: Option<ParsedMacro>,
    hidden: HiddenToken,
    hides: HideSet,
    slots: &mut Stack,
) -> Result<NextHead, ExpandFault>
    requires known { IsMeaning known hidden.token.text (macros_of definitions.old hidden.token.text) }
    requires hides { hidden_names hides ≡ with_name_of hidden.token.text (hidden_names hidden.hides) }
    ensures head { IsHead result (lists slots.old) (lists slots.new) (seen_head_of (macros_of definitions.old) here.now (marked hidden) (first_list (lists slots.old))) }
    ensures kept { definitions.new ≡ definitions.old }
{
    let name = hidden.token.text.as_slice();
    if name == b"__LINE__".as_slice() {
        let text = line_text(alloc, here.line)?;
        return Ok(NextHead::Stays(put_instead(Kind::Number, text, &hidden, hides)));
    }
    if name == b"__FILE__".as_slice() {
        let text = file_text(alloc, here.file.as_slice())?;
        return Ok(NextHead::Stays(put_instead(Kind::Str, text, &hidden, hides)));
    }
    let Some(known) = known else {
        return Ok(NextHead::Stays(hidden));
    };
    let ParsedMacro { name, def, number } = known;
    let Some(def) = def else {
        return Err(ExpandFault::BadDefinition {
            name: hidden.token.text,
        });
    };
    let head = macro_head(alloc, definitions, number, &name, def, hidden, hides, slots)?;
    Ok(head)
}

/// The head of a list that begins with the name of a macro.
fn macro_head(
    alloc: Global,
    definitions: &mut Definitions,
    number: usize,
    name: &Name,
    def: Rc<Def>,
    hidden: HiddenToken,
    hides: HideSet,
    slots: &mut Stack,
) -> Result<NextHead, ExpandFault>
    requires name { name_text name.now ≡ hidden.token.text }
    requires hides { hidden_names hides ≡ with_name_of hidden.token.text (hidden_names hidden.hides) }
    ensures head { IsHead result (lists slots.old) (lists slots.new) (macro_head_of def.value def.value.params (marked hidden) (first_list (lists slots.old))) }
    ensures kept { definitions.new ≡ definitions.old }
{
    if def.params.is_none() {
        let next = param_count(&def);
        let Token { text, space, .. } = hidden.token;
        return Ok(NextHead::Replaced(MacroCall {
            def,
            name: text,
            space,
            hides,
            next,
            count: 0,
        }));
    }
    if !opens_next(slots) {
        return Ok(NextHead::Stays(hidden));
    }
    let _ = next_token(slots);
    let head = call_head(alloc, definitions, number, name, def, hidden, slots)?;
    Ok(head)
}

/// Whether the next token of the first list is `)`, and the macro has no named parameter.
fn is_bare(def: &Def, slots: &Stack) -> bool
    ensures { result ≡ (no_named (named_params def.now) && closes (first_delimiter (first_list (lists slots.now)))) }
{
    named_count(def) == 0 && matches!(next_delimiter(slots), Some(Delimiter::Closes))
}

/// How many commas can part the arguments of a call of the macro.
fn commas_in(def: &Def, slots: &Stack) -> usize
    ensures { result ≡ (if def.now.variadic then length (named_params def.now) else length slots.now) }
{
    if def.variadic {
        named_count(def)
    } else {
        slot_count(slots)
    }
}

/// Cuts the arguments of a call of the macro out of the first list.
fn open_call(def: &Def, slots: &mut Stack) -> Result<Option<Cut>, AllocError>
    ensures { IfOk result (λ cut. IsCall cut (lists slots.old) (lists slots.new) def.now) }
{
    if is_bare(def, slots) {
        let Some(close) = next_token(slots) else {
            return Ok(None);
        };
        return Ok(Some(Cut {
            count: 0,
            hides: close.hides,
        }));
    }
    let commas = commas_in(def, slots);
    let cut = cut_arguments(slots, commas)?;
    Ok(cut)
}

/// What the replacement of a call hides.
fn call_hides(
    alloc: Global,
    definitions: &mut Definitions,
    number: usize,
    name: &Name,
    hidden: &HideSet,
    close: &HideSet,
) -> Result<HideSet, AllocError>
    ensures set { IfOk result (λ set. hidden_names set ≡ with_name_of (name_text name.now) (intersection_of (hidden_names hidden.now) (hidden_names close.now))) }
    ensures kept { definitions.new ≡ definitions.old }
{
    let both = intersection(alloc, hidden, close)?;
    let all = definitions.hide_name(alloc, number, name, &both)?;
    Ok(all)
}

/// The head of a list that begins with a call.
#[inline(never)]
fn call_head(
    alloc: Global,
    definitions: &mut Definitions,
    number: usize,
    name: &Name,
    def: Rc<Def>,
    hidden: HiddenToken,
    slots: &mut Stack,
) -> Result<NextHead, ExpandFault>
    requires { name_text name.now ≡ hidden.token.text }
    ensures head { IsHead result (lists slots.old) (lists slots.new) (call_head_of def.value (marked hidden) (closed (first_list (lists slots.old)) 0)) }
    ensures kept { definitions.new ≡ definitions.old }
{
    let Some(cut) = open_call(&def, slots)? else {
        return Err(ExpandFault::OpenCall {
            name: hidden.token.text,
        });
    };
    if !fits_count(&def, cut.count) {
        return Err(ExpandFault::ArgCount {
            name: hidden.token.text,
            got: cut.count as u64,
        });
    }
    let hides = call_hides(alloc, definitions, number, name, &hidden.hides, &cut.hides)?;
    Ok(NextHead::Replaced(MacroCall {
        def,
        name: hidden.token.text,
        space: hidden.token.space,
        hides,
        next: 0,
        count: cut.count,
    }))
}
