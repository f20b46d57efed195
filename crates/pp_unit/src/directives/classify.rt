ghost use Rattle.std.specs.Prelude.{◌≡◌, IfOk, IfErr, not};
ghost use Rattle.pp_directives.specs.Conditions.{is_due};
ghost use Rattle.pp_directives.specs.Directives.{directive_of};
ghost use Rattle.pp_directives.specs.Groups.{role_of};
ghost use Rattle.pp_directives.specs.Reached.{is_other};
ghost use Rattle.pp_unit.specs.declared.fault.PpKind.TheVariants.{NoMemory as RanOut};
ghost use Rattle.pp_unit.specs.LineConditions.{AnswersBy};
ghost use Rattle.pp_unit.specs.Recorded.{ComesTo};
ghost use Rattle.pp_unit.specs.Stopping.{Classified, Given, IsOwnStop, Turned, is_include, is_text};

use crate::directives::condition::evaluate_condition;
use crate::event_log::EventLog;
use crate::fault::PpKind;
use crate::open_file::OpenFile;
use crate::stop::{Stop, in_line};
use mac_base::NoMemory;
use pp_directives::{Conditions, Directive, directive_of};
use pp_tokens::Line;

/// What a line is.
fn kind_of(line: &Line) -> Result<Directive, PpKind>
    ensures ok { IfOk result (λ directive. directive ≡ directive_of line.now.tokens) }
    ensures err { IfErr result (λ kind. kind ≡ RanOut) }
{
    match directive_of(line) {
        Ok(directive) => Ok(directive),
        Err(NoMemory) => Err(PpKind::NoMemory),
    }
}

/// The answer to the condition of a line, where it decides a group.
fn answer_to(
    log: &EventLog,
    open_file: &OpenFile,
    pending: &Conditions,
    line: &Line,
    directive: &Directive,
) -> Result<bool, PpKind>
    ensures { ComesTo (Given (is_due (role_of directive.now) pending.now) (AnswersBy open_file.now line.now log.now directive.now)) result }
{
    if !pending.due(directive) {
        return Ok(false);
    }
    evaluate_condition(log, open_file, line, directive)
}

/// Follows a conditional directive.
#[inline(never)]
fn turn(
    log: &EventLog,
    open_file: &OpenFile,
    pending: &mut Conditions,
    line: &Line,
    directive: &Directive,
) -> Result<(), PpKind>
    ensures { Turned open_file.now line.now log.now directive.now pending.old pending.new result }
{
    let answer = answer_to(log, open_file, pending, line, directive)?;
    pending.turn(directive, line.number, answer)?;
    Ok(())
}

/// Whether a line is a conditional directive.
fn is_conditional(directive: &Directive) -> bool
    ensures { result ≡ not (is_other (role_of directive.now)) }
{
    matches!(
        directive,
        Directive::If
            | Directive::Ifdef(_)
            | Directive::Ifndef(_)
            | Directive::Elif
            | Directive::Else
            | Directive::Endif
    )
}

/// Whether a line is plain text.
fn is_text(directive: &Directive) -> bool
    ensures { result ≡ is_text directive.now }
{
    matches!(directive, Directive::Text)
}

/// Whether a line is an inclusion.
pub fn is_include(directive: &Directive) -> bool
    ensures { result ≡ is_include directive.now }
{
    matches!(directive, Directive::Include)
}

/// Follows a line as far as that leaves what was recorded as it is. The directive of a line that is to be followed
/// further is answered: one of a taken group that is neither a conditional directive nor plain text.
#[inline(never)]
pub fn classify_line(
    log: &EventLog,
    open_file: &OpenFile,
    pending: &mut Conditions,
    line: &Line,
) -> Result<Option<Directive>, Stop>
    ensures step { Classified open_file.now pending.old line.now log.now result pending.new }
    ensures plain { IfErr result IsOwnStop }
{
    let directive = in_line(line.number, kind_of(line))?;
    if is_conditional(&directive) {
        in_line(line.number, turn(log, open_file, pending, line, &directive))?;
        return Ok(None);
    }
    if !pending.active() {
        return Ok(None);
    }
    if is_text(&directive) {
        return Ok(None);
    }
    Ok(Some(directive))
}
