ghost use Rattle.std.specs.Prelude.{◌≡◌, Ok, IfOk};
ghost use Rattle.std.specs.List.{list_any};
ghost use Rattle.std.specs.Option.{option_copied};
ghost use Rattle.pp_tokens.specs.Kinds.{same};
ghost use Rattle.mac_base.specs.Answers.{Answers};
ghost use Rattle.macro_table.specs.Definitions.{def_of};
ghost use Rattle.macro_table.specs.Texts.{def_of_text};
ghost use Rattle.pp_unit.specs.declared.fault.PpKind.TheVariants.{NoMemory as RanOut};
ghost use Rattle.pp_unit.specs.Definitions.{is_predefined, conflicts, defined, undefined, defined_by, defined_by_text, define_text, commanded, all_commanded, predefined};

use crate::event_log::EventLog;
use crate::fault::PpKind;
use crate::request::Command;
use crate::spelled::is_text;
use mac_base::{Bytes, NoMemory};
use macro_table::{Def, DefFault, TextFault, def_of_text, parse_define, same, text_of};
use pp_tokens::{Token, is_identifier};
use std::alloc::Global;

/// Whether a name is neither defined nor undefined (C17 6.10.8 p2).
fn is_predefined(name: &[u8]) -> bool
    ensures { result ≡ is_predefined name.now }
{
    is_text(name, b"__STDC__")
        || is_text(name, b"__STDC_HOSTED__")
        || is_text(name, b"__STDC_VERSION__")
        || is_text(name, b"__LINE__")
        || is_text(name, b"__FILE__")
}

/// Whether a text, if there is one, is another definition than this one (6.10.3 p2).
fn conflicts(alloc: Global, text: Option<&[u8]>, def: &Def) -> Result<bool, NoMemory>
    ensures { IfOk result (λ other. other ≡ conflicts (option_copied text.entry) def.now) }
{
    let Some(text) = text else {
        return Ok(false);
    };
    match def_of_text(alloc, text) {
        Ok(other) => Ok(!same(&other, def)),
        Err(TextFault::NoMemory) => Err(NoMemory),
        Err(TextFault::Lex(_)) => Ok(true),
        Err(TextFault::Def(_)) => Ok(true),
    }
}

/// A definition in this line.
pub fn define(log: EventLog, line: u64, def: &Def) -> Result<EventLog, PpKind>
    ensures { Answers RanOut result (defined log line def.now) }
{
    let alloc = log.alloc();
    if is_predefined(def.name.as_slice()) {
        return Err(PpKind::Predefined {
            name: def.name.copy()?,
        });
    }
    let other = conflicts(alloc, log.text_of(def.name.as_slice()), def)?;
    if other {
        return Err(PpKind::Redefined {
            name: def.name.copy()?,
        });
    }
    let text = text_of(alloc, def)?;
    log.define(line, text)
}

/// What the tokens after `#define` define, in this line.
pub fn define_tokens(log: EventLog, line: u64, tokens: &[Token]) -> Result<EventLog, PpKind>
    ensures { Answers RanOut result (defined_by log line (def_of tokens.now)) }
{
    let def = parse_define(log.alloc(), tokens)?;
    define(log, line, &def)
}

/// An `#undef` of this name in this line.
pub fn undefine(log: EventLog, line: u64, name: &Bytes) -> Result<EventLog, PpKind>
    ensures { Answers RanOut result (undefined log line name.now) }
{
    let name = name.copy()?;
    if is_predefined(name.as_slice()) {
        return Err(PpKind::Predefined { name });
    }
    log.undef(line, name)
}

/// The definition that a word is: its first `=` stands for a space, and where it has none the name is defined as 1.
fn define_text(alloc: Global, word: &[u8]) -> Result<Vec<u8>, NoMemory>
    ensures { IfOk result (λ text. text.items ≡ define_text word.now) }
{
    let mut text = Vec::new(alloc);
    let mut left = word;
    while let [byte, rest @ ..] = left {
        if *byte == b'=' {
            text.push(b' ')?;
            text.extend_from_slice(rest)?;
            return Ok(text);
        }
        text.push(*byte)?;
        left = rest;
    }
    text.extend_from_slice(b" 1")?;
    Ok(text)
}

/// A word of the command.
fn follow_command(log: EventLog, command: &Command) -> Result<EventLog, PpKind>
    ensures { Answers RanOut result (commanded log command.now) }
{
    match command {
        Command::Define(word) => define_word(log, word.as_slice()),
        Command::Undef(word) => {
            if !is_identifier(word.as_slice()) {
                return Err(PpKind::Def(DefFault::NoName));
            }
            undefine(log, 0, word)
        }
    }
}

/// The definition that a word is.
fn define_word(log: EventLog, word: &[u8]) -> Result<EventLog, PpKind>
    ensures { Answers RanOut result (defined_by_text log (def_of_text (define_text word.now))) }
{
    let text = define_text(log.alloc(), word)?;
    let def = def_of_text(log.alloc(), text.as_slice())?;
    define(log, 0, &def)
}

/// The words of the command, in order.
pub fn follow_commands(log: EventLog, commands: &[Command]) -> Result<EventLog, PpKind>
    ensures { Answers RanOut result (all_commanded log commands.now) }
{
    let mut log = log;
    for command in commands {
        log = follow_command(log, command)?;
    }
    Ok(log)
}

/// What is predefined (C17 6.10.8.1).
pub fn predefine(alloc: Global) -> Result<EventLog, PpKind>
    ensures { Answers RanOut result (Ok predefined) }
{
    let none = EventLog::empty(alloc);
    let first = none.define(0, Bytes::from_slice(alloc, b"__STDC__ 1")?)?;
    let second = first.define(0, Bytes::from_slice(alloc, b"__STDC_HOSTED__ 1")?)?;
    let third = second.define(0, Bytes::from_slice(alloc, b"__STDC_VERSION__ 201710L")?)?;
    Ok(third)
}
