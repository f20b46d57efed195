// The expansion as a machine: a stack of lists that wait, and a stack of calls whose argument is being expanded.
ghost use Rattle.std.specs.Prelude.{if◌then◌else◌, ◌≡◌, ◌<◌, ◌≤◌, ◌+◌, ◌++◌, ◌∷◌, [], ℕ, List, Ok, Err, IfOk, IfErr, OnOk, map, length, drop, suc, false, true, ◌&&◌, Bool, Some, None};
ghost use Rattle.macro_expand.specs.declared.here.Here.{Here as HereValue};
ghost use Rattle.macro_expand.specs.declared.rescan.machine.Machine.{Machine as MachineValue};
ghost use Rattle.macro_expand.specs.Macros.{Macros, macros_of, params_of};
ghost use Rattle.macro_expand.specs.Calls.{first_list, other_lists, stands_free as stands_free_of};
ghost use Rattle.macro_expand.specs.Expansion.{limit, expansion, tokens_of};
ghost use Rattle.macro_expand.specs.States.{Answers, marked, argument_of};
ghost use Rattle.macro_expand.specs.Slots.{lists};
ghost use Rattle.macro_expand.specs.Machine.{meaning, replacing, replacing_size, size, GoesOn, HasEnded, IsStep, IsFaultOf, plain_of, lists_after, wanted_in, with_put, IsPut, IsTextStep};

use crate::fault::ExpandFault;
use crate::here::Here;
use crate::hide_set::hidden_token::{HiddenToken, with_tokens};
use crate::rescan::head::{MacroCall, NextHead, take_head};
use crate::rescan::parsed_macro::Definitions;
use crate::rescan::stack::{Stack, copy_list, drop_lists, put_back, take_list};
use crate::substitution::argument_pass::{Argument, Arguments};
use crate::substitution::params::{param_at, param_count, stands_bound, stands_free};
use crate::substitution::substitute::substitute;
use mac_base::{Bytes, NoMemory};
use pp_tokens::Token;
use smallvec::SmallVec;
use std::alloc::{AllocError, Global};
use std::mem;

/// How much work one expansion may take.
pub const LIMIT: u64 = 4_194_304;

/// A call whose argument is being expanded: what was put out before it, the call, the arguments before this one, and
/// this one.
#[derive(Drop)]
pub struct Frame {
    pub out: Vec<HiddenToken>,
    pub call: MacroCall,
    pub done: Arguments,
    pub name: Bytes,
    pub plain: Vec<HiddenToken>,
}

/// The lists that wait, what is put out, the work so far, and the calls that wait, the innermost last.
#[derive(Drop)]
pub struct Machine {
    pub slots: Stack,
    pub out: Vec<HiddenToken>,
    pub work: u64,
    pub frames: Vec<Frame>,
}

/// Replaces a name whose arguments are all there.
#[inline(never)]
fn replace(
    alloc: Global,
    machine: &mut Machine,
    call: &MacroCall,
    done: &[Argument],
) -> Result<(), ExpandFault>
    requires work { machine.old.work ≤ limit }
    requires all { drop call.now.next (params_of call.now.def.value) ≡ [] }
    ensures ok { OnOk result ((macros : Macros) (here : HereValue) → GoesOn macros here (replacing macros here machine.old call.now done.now) (suc (replacing_size machine.old call.now)) machine.new) }
    ensures err { IfErr result (λ fault. (macros : Macros) (here : HereValue) → IsFaultOf fault (replacing macros here machine.old call.now done.now)) }
{
    let list = substitute(
        alloc,
        &call.def,
        call.name.as_slice(),
        call.space,
        &call.hides,
        done,
    )?;
    let count = list.len() as u64;
    if count > LIMIT - machine.work {
        return Err(ExpandFault::TooLong);
    }
    machine.work += count;
    drop_lists(alloc, &mut machine.slots, call.count)?;
    put_back(&mut machine.slots, list)?;
    Ok(())
}

/// Whether the next argument is there and its expansion is wanted.
fn is_wanted(count: usize, name: &[u8], body: &[Token]) -> bool
    ensures { result ≡ wanted_in count (stands_free_of name.now false body.now) }
{
    if count == 0 {
        return false;
    }
    stands_free(name, body)
}

/// Takes an argument that is not expanded. One that lacks has no tokens.
pub fn take_argument(
    alloc: Global,
    count: usize,
    slots: &mut Stack,
) -> Result<Vec<HiddenToken>, AllocError>
    ensures list { IfOk result (λ list. map marked list.items ≡ plain_of count (lists slots.old)) }
    ensures others { IfOk result (λ _. lists slots.new ≡ lists_after count (lists slots.old)) }
{
    if count == 0 {
        return Ok(Vec::new(alloc));
    }
    let list = take_list(alloc, slots)?;
    Ok(list)
}

/// A copy of the first list, where its tokens are needed as written. Else none.
fn plain_copy(alloc: Global, kept: bool, slots: &Stack) -> Result<Vec<HiddenToken>, NoMemory>
    ensures { IfOk result (λ list. map marked list.items ≡ (if kept then first_list (lists slots.now) else [])) }
{
    if !kept {
        return Ok(Vec::new(alloc));
    }
    let list = copy_list(alloc, slots)?;
    Ok(list)
}

/// Goes on with a call of whose arguments these are there.
#[inline(never)]
fn advance(
    alloc: Global,
    machine: &mut Machine,
    mut call: MacroCall,
    mut done: Arguments,
) -> Result<(), ExpandFault>
    requires work { machine.old.work ≤ limit }
    ensures ok { OnOk result ((macros : Macros) (here : HereValue) → GoesOn macros here (replacing macros here machine.old call done.items) (suc (replacing_size machine.old call)) machine.new) }
    ensures err { IfErr result (λ fault. (macros : Macros) (here : HereValue) → IsFaultOf fault (replacing macros here machine.old call done.items)) }
{
    while let Some(name) = param_at(alloc, &call.def, call.next)? {
        let count = call.count;
        call.next += 1;
        call.count = count.saturating_sub(1);
        if is_wanted(count, name.as_slice(), call.def.body.as_slice()) {
            let kept = stands_bound(name.as_slice(), call.def.body.as_slice());
            let plain = plain_copy(alloc, kept, &machine.slots)?;
            let out = mem::replace(&mut machine.out, Vec::new(alloc));
            machine.frames.push(Frame {
                out,
                call,
                done,
                name,
                plain,
            })?;
            return Ok(());
        }
        let plain = take_argument(alloc, count, &mut machine.slots)?;
        done.push(Argument {
            name,
            plain,
            expanded: Vec::new(alloc),
        })?;
    }
    replace(alloc, machine, &call, done.as_slice())?;
    Ok(())
}

/// Begins with a call. A macro without parameters is replaced at once.
fn begin(alloc: Global, machine: &mut Machine, call: MacroCall) -> Result<(), ExpandFault>
    requires work { machine.old.work ≤ limit }
    ensures ok { OnOk result ((macros : Macros) (here : HereValue) → GoesOn macros here (replacing macros here machine.old call []) (suc (replacing_size machine.old call)) machine.new) }
    ensures err { IfErr result (λ fault. (macros : Macros) (here : HereValue) → IsFaultOf fault (replacing macros here machine.old call [])) }
{
    if call.next >= param_count(&call.def) {
        replace(alloc, machine, &call, &[])?;
        return Ok(());
    }
    advance(alloc, machine, call, SmallVec::new(alloc))?;
    Ok(())
}

/// Goes on after a list that has ended: with the call of which it is an argument. It answers whether there is one.
#[inline(never)]
fn end_list(alloc: Global, machine: &mut Machine) -> Result<bool, ExpandFault>
    requires work { machine.old.work ≤ limit }
    ensures ok { IfOk result (λ more. (macros : Macros) (here : HereValue) (whole : MachineValue) → HasEnded macros here whole machine.old → IsStep macros here (meaning macros here whole) (size whole) machine.new more) }
    ensures err { IfErr result (λ fault. (macros : Macros) (here : HereValue) (whole : MachineValue) → HasEnded macros here whole machine.old → IsFaultOf fault (meaning macros here whole)) }
{
    let Some(frame) = machine.frames.pop() else {
        return Ok(false);
    };
    let Frame {
        out,
        call,
        mut done,
        name,
        plain,
    } = frame;
    let expanded = mem::replace(&mut machine.out, out);
    done.push(Argument {
        name,
        plain,
        expanded,
    })?;
    advance(alloc, machine, call, done)?;
    Ok(true)
}

/// Puts out a token that stays. In the text itself, and in no argument, it goes out without its hide set.
fn put_out(
    machine: &mut Machine,
    text: &mut Vec<Token>,
    hidden: HiddenToken,
) -> Result<(), AllocError>
    ensures { OnOk result (IsPut machine.old text.old.items hidden machine.new text.new.items) }
{
    if machine.frames.is_empty() && machine.out.is_empty() {
        text.push(hidden.token)?;
    } else {
        machine.out.push(hidden)?;
    }
    Ok(())
}

/// One step. It answers whether there are more. What the text comes to so far is put out without hide sets.
fn step(
    alloc: Global,
    here: &Here,
    definitions: &mut Definitions,
    machine: &mut Machine,
    text: &mut Vec<Token>,
) -> Result<bool, ExpandFault>
    requires work { machine.old.work ≤ limit }
    ensures ok { IfOk result (IsTextStep (macros_of definitions.old) here.now (with_put text.old.items (meaning (macros_of definitions.old) here.now machine.old)) (size machine.old) text.new.items machine.new) }
    ensures err { IfErr result (λ fault. IsFaultOf fault (meaning (macros_of definitions.old) here.now machine.old)) }
    ensures kept { definitions.new ≡ definitions.old }
{
    match take_head(alloc, here, definitions, &mut machine.slots)? {
        NextHead::Stays(token) => {
            put_out(machine, text, token)?;
            Ok(true)
        }
        NextHead::Replaced(call) => {
            begin(alloc, machine, call)?;
            Ok(true)
        }
        NextHead::Finished => {
            let more = end_list(alloc, machine)?;
            Ok(more)
        }
    }
}

/// The tokens that the first list expands to.
pub fn run(
    alloc: Global,
    here: &Here,
    definitions: &mut Definitions,
    slots: Stack,
) -> Result<Vec<Token>, ExpandFault>
    ensures { Answers (λ list. list.items) result (tokens_of (expansion (macros_of definitions.old) here.now (first_list (lists slots)) 0)) }
{
    let mut machine = Machine {
        slots,
        out: Vec::new(alloc),
        work: 0,
        frames: Vec::new(alloc),
    };
    let mut text = Vec::new(alloc);
    while step(alloc, here, definitions, &mut machine, &mut text)? {}
    let all = with_tokens(text, machine.out)?;
    Ok(all)
}
