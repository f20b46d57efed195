// A single level of the expansion of a text.
ghost use Rattle.std.specs.Prelude.{◌≡◌, ◌≤◌, ℕ, suc, IfOk, IfErr, OnOk, map, length};
ghost use Rattle.macro_expand.specs.declared.here.Here.{Here as HereValue};
ghost use Rattle.macro_expand.specs.Macros.{Macros, macros_of};
ghost use Rattle.macro_expand.specs.Calls.{first_list};
ghost use Rattle.macro_expand.specs.Heads.{Call};
ghost use Rattle.macro_expand.specs.Expansion.{limit, as_written, single_level};
ghost use Rattle.macro_expand.specs.Rules.{ExpandsOnceTo};
ghost use Rattle.macro_expand.specs.States.{Answers, marked, argument_of};
ghost use Rattle.macro_expand.specs.Slots.{lists};
ghost use Rattle.macro_expand.specs.Taking.{call_of};
ghost use Rattle.macro_expand.specs.Machine.{IsFaultOf, AnswersList};
ghost use Rattle.macro_expand.specs.Levels.{put_by, level_meaning, level_replacing, level_size, LevelGoesOn, IsLevelStep};
ghost use Rattle.macro_expand.specs.Answering.{IsAnswer};

use crate::expansion::{has_lone_quote, without_hides};
use crate::fault::ExpandFault;
use crate::here::Here;
use crate::hide_set::hidden_token::{HiddenToken, copy_hidden};
use crate::rescan::head::{MacroCall, NextHead, take_head};
use crate::rescan::machine::{LIMIT, take_argument};
use crate::rescan::parsed_macro::Definitions;
use crate::rescan::stack::{Stack, drop_lists, fresh_list};
use crate::substitution::argument_pass::{Argument, Arguments};
use crate::substitution::params::param_at;
use crate::substitution::substitute::substitute;
use mac_base::NoMemory;
use macro_table::Table;
use pp_tokens::Tokens;
use smallvec::SmallVec;
use std::alloc::Global;

/// The lists that wait, what is put out, and the work so far.
#[derive(Drop)]
pub struct Level {
    pub slots: Stack,
    pub out: Vec<HiddenToken>,
    pub work: u64,
}

/// Copies of the tokens.
fn copy_all(alloc: Global, tokens: &[HiddenToken]) -> Result<Vec<HiddenToken>, NoMemory>
    ensures { IfOk result (λ all. map marked all.items ≡ map marked tokens.now) }
{
    let mut all = Vec::new(alloc);
    for hidden in tokens {
        all.push(copy_hidden(hidden)?)?;
    }
    Ok(all)
}

/// The arguments of a call, which go in as written. What follows the call is the first list then.
fn written_arguments(
    alloc: Global,
    slots: &mut Stack,
    call: &MacroCall,
) -> Result<Arguments, NoMemory>
    ensures args { IfOk result (λ done. map argument_of done.items ≡ as_written (Call.args (call_of call.now (lists slots.old)))) }
    ensures rest { OnOk result (first_list (lists slots.new) ≡ Call.rest (call_of call.now (lists slots.old))) }
{
    let mut done = SmallVec::new(alloc);
    let mut next = call.next;
    let mut count = call.count;
    while let Some(name) = param_at(alloc, &call.def, next)? {
        let plain = take_argument(alloc, count, slots)?;
        next += 1;
        count = count.saturating_sub(1);
        let expanded = copy_all(alloc, plain.as_slice())?;
        done.push(Argument {
            name,
            plain,
            expanded,
        })?;
    }
    drop_lists(alloc, slots, count)?;
    Ok(done)
}

/// The list that replaces a name. What follows the name and its arguments is the first list then.
fn put_list(
    alloc: Global,
    slots: &mut Stack,
    call: &MacroCall,
) -> Result<Vec<HiddenToken>, ExpandFault>
    ensures list { Answers (λ list. map marked list.items) result (put_by (call_of call.now (lists slots.old))) }
    ensures rest { OnOk result (first_list (lists slots.new) ≡ Call.rest (call_of call.now (lists slots.old))) }
{
    let done = written_arguments(alloc, slots, call)?;
    let list = substitute(
        alloc,
        &call.def,
        call.name.as_slice(),
        call.space,
        &call.hides,
        done.as_slice(),
    )?;
    Ok(list)
}

/// Replaces a name. Its list is in the answer.
fn put(alloc: Global, level: &mut Level, call: &MacroCall) -> Result<(), ExpandFault>
    requires work { level.old.work ≤ limit }
    ensures ok { OnOk result ((macros : Macros) (here : HereValue) → LevelGoesOn macros here (level_replacing macros here level.old call.now) (suc (length (Call.rest (call_of call.now (lists level.old.slots))))) level.new) }
    ensures err { IfErr result (λ fault. (macros : Macros) (here : HereValue) → IsFaultOf fault (level_replacing macros here level.old call.now)) }
{
    let mut list = put_list(alloc, &mut level.slots, call)?;
    let count = list.len() as u64;
    if count > LIMIT - level.work {
        return Err(ExpandFault::TooLong);
    }
    level.work += count;
    level.out.append(&mut list)?;
    Ok(())
}

/// One step. It answers whether there are more.
fn step(
    alloc: Global,
    here: &Here,
    definitions: &mut Definitions,
    level: &mut Level,
) -> Result<bool, ExpandFault>
    requires work { level.old.work ≤ limit }
    ensures ok { IfOk result (IsLevelStep (macros_of definitions.old) here.now (level_meaning (macros_of definitions.old) here.now level.old) (level_size level.old) level.new) }
    ensures err { IfErr result (λ fault. IsFaultOf fault (level_meaning (macros_of definitions.old) here.now level.old)) }
    ensures kept { definitions.new ≡ definitions.old }
{
    match take_head(alloc, here, definitions, &mut level.slots)? {
        NextHead::Finished => Ok(false),
        NextHead::Stays(token) => {
            level.out.push(token)?;
            Ok(true)
        }
        NextHead::Replaced(call) => {
            put(alloc, level, &call)?;
            Ok(true)
        }
    }
}

/// What the first list gives.
fn run(
    alloc: Global,
    here: &Here,
    definitions: &mut Definitions,
    slots: Stack,
) -> Result<Vec<HiddenToken>, ExpandFault>
    ensures { AnswersList result (single_level (macros_of definitions.old) here.now (first_list (lists slots)) 0) }
{
    let mut level = Level {
        slots,
        out: Vec::new(alloc),
        work: 0,
    };
    while step(alloc, here, definitions, &mut level)? {}
    Ok(level.out)
}

/// What the tokens give under the table at a single level (C17 6.10.3), or the first fault: arguments go in as written,
/// and the list that replaces a name is not looked at again.
pub fn expand_once(
    alloc: Global,
    table: &Table,
    here: &Here,
    tokens: &Tokens,
) -> Result<Tokens, ExpandFault>
    ensures exact { IsAnswer (ExpandsOnceTo (macros_of table.now) here.now tokens.now) result }
{
    if has_lone_quote(tokens.as_slice()) {
        return Err(ExpandFault::LoneQuote);
    }
    let slots = fresh_list(alloc, tokens.as_slice())?;
    let mut definitions = Definitions::new(alloc, table);
    let out = run(alloc, here, &mut definitions, slots)?;
    let all = without_hides(alloc, out)?;
    Ok(all)
}
