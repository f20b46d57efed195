// What the words of a command line come to, up to printing.
ghost use Rattle.std.specs.Prelude.{◌≡◌, ◌<◌, Some, IfSome, length};
ghost use Rattle.mac_io.specs.Causes.{HasCause};
ghost use Rattle.macro_query.specs.Limits.{Answers};
ghost use Rattle.dwmac_run.specs.Answer.{IsAnswer, AnswerTo, AboutFile, QuerySays};
ghost use Rattle.dwmac_run.specs.Roots.{IsPathFor};
ghost use Rattle.dwmac_run.specs.Outcome.{answer_of, text_answer, query_answer, HasFailed, CausedBy};

use crate::help::{help_text, version_text};
use crate::outcome::Outcome;
use crate::recording::record_unit;
use crate::refusal::Refusal;
use crate::request::{Query, Request, request_of};
use crate::units::events;
use mac_base::{Bytes, NoMemory, Paths};
use mac_io::{Fetched, Headers, Shelf};
use macro_query::QueryFault;
use std::alloc::Global;

/// The most bytes that a file may have.
const MOST_BYTES: usize = 1_073_741_824;

/// Does what the words ask for, up to printing.
pub fn perform<P: Headers, S: Shelf>(
    alloc: Global,
    words: &Paths,
    path: &mut P,
    shelf: &mut S,
) -> Outcome
    requires { IsPathFor words.now (P.stores path.old) }
    ensures answer { IfSome (answer_of result) (IsAnswer words.now (S.files shelf.old) (P.stores path.old)) }
    ensures same { S.files shelf.new ≡ S.files shelf.old }
    ensures cause { CausedBy (P.count path.old) (P.count path.new) (S.count shelf.old) (S.count shelf.new) (HasFailed result) }
{
    match request_of(alloc, words.as_slice()) {
        Ok(Some(request)) => execute(alloc, request, path, shelf),
        Ok(None) => Outcome::Usage,
        Err(_) => Outcome::NoMemory,
    }
}

/// Does what a request asks for.
fn execute<P: Headers, S: Shelf>(
    alloc: Global,
    request: Request,
    path: &mut P,
    shelf: &mut S,
) -> Outcome
    requires { 0 < length (P.stores path.old) }
    ensures answer { IfSome (answer_of result) (AnswerTo (Some request) (S.files shelf.old) (P.stores path.old)) }
    ensures same { S.files shelf.new ≡ S.files shelf.old }
    ensures cause { CausedBy (P.count path.old) (P.count path.new) (S.count shelf.old) (S.count shelf.new) (HasFailed result) }
{
    match request {
        Request::Query { file, query } => ask_file(alloc, file, &query, shelf),
        Request::Events { unit, .. } => events(alloc, path, &unit),
        Request::Record {
            unit,
            forms,
            output,
            ..
        } => record_unit(alloc, path, &unit, forms, output),
        Request::Help => report_of(help_text(alloc)),
        Request::Version => report_of(version_text(alloc)),
    }
}

/// Answers a query about a file of the shelf.
fn ask_file<S: Shelf>(alloc: Global, file: Bytes, query: &Query, shelf: &mut S) -> Outcome
    ensures answer { IfSome (answer_of result) (AboutFile (S.files shelf.old) file (QuerySays query.now)) }
    ensures same { S.files shelf.new ≡ S.files shelf.old }
    ensures cause { HasCause (S.count shelf.old) (S.count shelf.new) (HasFailed result) }
{
    let mut bytes = Vec::new(alloc);
    match shelf.get(file.as_slice(), MOST_BYTES, &mut bytes) {
        Fetched::Found => outcome_of(file, ask(alloc, bytes.as_slice(), query)),
        Fetched::Absent => Outcome::Refused(Refusal::NoSuchFile(file)),
        Fetched::TooLong => Outcome::Refused(Refusal::FileTooLong(file)),
        Fetched::Failed => Outcome::Failed,
        Fetched::NoMemory => Outcome::NoMemory,
    }
}

/// Answers a query about the bytes of a file.
fn ask(alloc: Global, bytes: &[u8], query: &Query) -> Result<Bytes, QueryFault>
    ensures { Answers result (QuerySays query.now bytes.now) }
{
    match query {
        Query::Raw => macro_query::raw(alloc, bytes),
        Query::Unit(offset) => macro_query::unit(alloc, bytes, *offset),
        Query::Dump => macro_query::dump(alloc, bytes),
        Query::Info(position, name) => macro_query::info(alloc, bytes, position, name.as_slice()),
        Query::List(position) => macro_query::list(alloc, bytes, position),
        Query::Expand(position, text) => {
            macro_query::expand_at(alloc, bytes, position, text.as_slice())
        }
        Query::Once(position, text) => {
            macro_query::once_at(alloc, bytes, position, text.as_slice())
        }
    }
}

/// What a query about a file came to.
fn outcome_of(file: Bytes, said: Result<Bytes, QueryFault>) -> Outcome
    ensures answer { answer_of result ≡ query_answer file said }
    ensures works { HasFailed result → ⊥ }
{
    match said {
        Ok(text) => Outcome::Report(text),
        Err(QueryFault::NoMemory) => Outcome::NoMemory,
        Err(fault) => Outcome::Refused(Refusal::Query(file, fault)),
    }
}

/// A text of the program's own as a report.
fn report_of(made: Result<Bytes, NoMemory>) -> Outcome
    ensures answer { answer_of result ≡ text_answer made }
    ensures works { HasFailed result → ⊥ }
{
    match made {
        Ok(text) => Outcome::Report(text),
        Err(NoMemory) => Outcome::NoMemory,
    }
}
