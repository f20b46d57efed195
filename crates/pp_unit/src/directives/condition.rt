ghost use Rattle.std.specs.Prelude.{◌≡◌, IfOk};
ghost use Rattle.pp_unit.specs.Recorded.{ComesTo};
ghost use Rattle.pp_unit.specs.LineConditions.{operands, here_of, HasValue, AnswersBy};

use crate::event_log::EventLog;
use crate::fault::{DirectiveFault, PpKind};
use crate::open_file::OpenFile;
use mac_base::NoMemory;
use macro_expand::Here;
use pp_directives::{Directive, evaluate};
use pp_tokens::{Line, Token};

/// The tokens after the name of a directive.
pub fn operands(line: &Line) -> &[Token]
    ensures { result.now ≡ operands line.now }
{
    let tokens = line.tokens.as_slice();
    match tokens {
        [_, _, after @ ..] => after,
        _ => &tokens[tokens.len()..],
    }
}

/// A line of a file, as `__LINE__` and `__FILE__` tell it there.
pub fn here_of(open_file: &OpenFile, line: &Line) -> Result<Here, NoMemory>
    ensures { IfOk result (λ here. here ≡ here_of open_file.now line.now) }
{
    Ok(Here {
        line: line.number,
        file: open_file.path.copy()?,
    })
}

/// Whether the condition of `#if` or `#elif` holds.
fn holds(log: &EventLog, here: &Here, tokens: &[Token]) -> Result<bool, PpKind>
    ensures { ComesTo (HasValue log.now here.now tokens.now) result }
{
    let resolved = log.resolve(tokens)?;
    let expanded = log.expand(here, &resolved)?;
    let answer = evaluate(log.alloc(), &expanded)?;
    Ok(answer)
}

/// The condition of a line.
pub fn evaluate_condition(
    log: &EventLog,
    open_file: &OpenFile,
    line: &Line,
    directive: &Directive,
) -> Result<bool, PpKind>
    ensures { ComesTo (AnswersBy open_file.now line.now log.now directive.now) result }
{
    match directive {
        Directive::If | Directive::Elif => {
            let here = here_of(open_file, line)?;
            holds(log, &here, operands(line))
        }
        Directive::Ifdef(Some(name)) => Ok(log.is_defined(name.as_slice())),
        Directive::Ifndef(Some(name)) => Ok(!log.is_defined(name.as_slice())),
        Directive::Ifdef(None) | Directive::Ifndef(None) => {
            Err(PpKind::Directive(DirectiveFault::NoName))
        }
        _ => Ok(false),
    }
}
