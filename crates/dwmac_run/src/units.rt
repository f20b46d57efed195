// What a translation unit comes to: its events as lines, or its first fault.
ghost use Rattle.std.specs.Prelude.{◌≡◌, ◌↔◌, ◌<◌, length, IfOk, IfSome};
ghost use Rattle.mac_io.specs.Causes.{HasCause};
ghost use Rattle.mac_base.specs.ReportText.{kept};
ghost use Rattle.dwmac_run.specs.Units.{UnitAnswer, FaultSays, event_lines, reported};
ghost use Rattle.dwmac_run.specs.Outcome.{answer_of, HasFailed};

use crate::outcome::Outcome;
use crate::refusal::Refusal;
use mac_base::{Bytes, Event, Events, NoMemory, ReportBuilder};
use mac_io::Headers;
use pp_unit::{PpFault, PpKind, UnitSpec, preprocess};
use std::alloc::Global;

/// `events`: the events of a translation unit.
pub fn events<P: Headers>(alloc: Global, path: &mut P, unit: &UnitSpec) -> Outcome
    requires { 0 < length (P.stores path.old) }
    ensures answer { IfSome (answer_of result) (UnitAnswer (P.stores path.old) unit.now) }
    ensures same { P.stores path.new ≡ P.stores path.old }
    ensures cause { HasCause (P.count path.old) (P.count path.new) (HasFailed result) }
{
    match preprocess(alloc, path, unit) {
        Ok(events) => report(alloc, &events),
        Err(fault) => stop(fault),
    }
}

/// What the first fault comes to.
pub fn stop(fault: PpFault) -> Outcome
    ensures answer { IfSome (answer_of result) (FaultSays fault.what fault) }
    ensures works { HasFailed result ↔ (fault.what ≡ PpKind.StoreFault) }
{
    match fault.what {
        PpKind::StoreFault => Outcome::Failed,
        PpKind::NoMemory => Outcome::NoMemory,
        _ => Outcome::Refused(Refusal::TranslationUnit(fault)),
    }
}

/// The lines of the events.
fn report(alloc: Global, events: &Events) -> Outcome
    ensures answer { IfSome (answer_of result) (λ answer. answer ≡ reported (event_lines events.now.files events.now.list)) }
    ensures works { HasFailed result → ⊥ }
{
    match text_of(alloc, events.files.as_slice(), events.list.as_slice()) {
        Ok(Some(text)) => Outcome::Report(text),
        Ok(None) => Outcome::Refused(Refusal::ReportTooLong),
        Err(NoMemory) => Outcome::NoMemory,
    }
}

/// The lines of the events, unless they have more bytes than a report may have.
fn text_of(alloc: Global, files: &[Bytes], events: &[Event]) -> Result<Option<Bytes>, NoMemory>
    ensures { IfOk result (λ text. text ≡ kept (event_lines files.now events.now)) }
{
    let mut report = ReportBuilder::new(alloc);
    for event in events {
        report.add_event(files, event)?;
    }
    Ok(report.finish())
}
