ghost use Rattle.std.specs.Prelude.{◌≡◌, IfOk};
ghost use Rattle.mac_base.specs.Answers.{Answers};
ghost use Rattle.pp_unit.specs.declared.fault.PpKind.TheVariants.{NoMemory as RanOut};
ghost use Rattle.pp_unit.specs.Recorded.{ComesTo};
ghost use Rattle.pp_unit.specs.Lines.{is_once_pragma, pragma_seen, undefined_by, Directs};

use crate::directives::condition::{here_of, operands};
use crate::directives::define::{define_tokens, undefine};
use crate::directives::line_number::follow_line;
use crate::event_log::EventLog;
use crate::fault::{DirectiveFault, PpKind};
use crate::open_file::OpenFile;
use mac_base::{Bytes, NoMemory};
use pp_directives::Directive;
use pp_tokens::{Line, Token, Tokens};

/// The pragma `once`, alone.
fn is_once_pragma(tokens: &[Token]) -> bool
    ensures { result ≡ is_once_pragma tokens.now }
{
    match tokens {
        [only] => only.is_spelled(b"once"),
        _ => false,
    }
}

/// After `#pragma once` the file contributes nothing where it is included.
fn follow_pragma(
    log: EventLog,
    open_file: &OpenFile,
    tokens: &[Token],
) -> Result<EventLog, NoMemory>
    ensures { IfOk result (λ r. r ≡ pragma_seen open_file.now tokens.now log) }
{
    if is_once_pragma(tokens) {
        log.with_once(&open_file.id)
    } else {
        Ok(log)
    }
}

/// An `#undef`, which must have a name.
fn follow_undef(log: EventLog, line: u64, name: &Option<Bytes>) -> Result<EventLog, PpKind>
    ensures { Answers RanOut result (undefined_by log line name.now) }
{
    match name {
        Some(name) => undefine(log, line, name),
        None => Err(PpKind::Directive(DirectiveFault::NoName)),
    }
}

/// A line of a taken group that is neither an inclusion nor a conditional directive.
#[inline(never)]
pub fn follow_directive(
    log: EventLog,
    open_file: &OpenFile,
    line: &Line,
    directive: &Directive,
) -> Result<EventLog, PpKind>
    ensures { ComesTo (Directs open_file.now line.now directive.now log) result }
{
    match directive {
        Directive::Define => define_tokens(log, line.number, operands(line)),
        Directive::Undef(name) => follow_undef(log, line.number, name),
        Directive::LineNumber => {
            let here = here_of(open_file, line)?;
            let tokens = Tokens::from_slice(log.alloc(), operands(line))?;
            follow_line(log, &here, &tokens)
        }
        Directive::Error => Err(PpKind::ErrorDirective),
        Directive::Pragma => Ok(follow_pragma(log, open_file, operands(line))?),
        Directive::Unknown => Err(PpKind::Directive(DirectiveFault::UnknownName)),
        _ => Ok(log),
    }
}
