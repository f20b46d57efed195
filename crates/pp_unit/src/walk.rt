ghost use Rattle.std.specs.Prelude.{◌≡◌, ◌+◌, ◌<◌, ◌≤◌, ℕ, suc, true, false, not, List, [], length};
ghost use Rattle.mac_io.specs.Causes.{HasCause};
ghost use Rattle.mac_io.specs.Search.{OnFound};
ghost use Rattle.pp_directives.specs.declared.conditional.open_section.OpenSection.{OpenSection};
ghost use Rattle.pp_directives.specs.Conditions.{is_active};
ghost use Rattle.pp_directives.specs.Directives.{directive_of};
ghost use Rattle.pp_directives.specs.Groups.{role_of};
ghost use Rattle.pp_directives.specs.Reached.{is_other};
ghost use Rattle.pp_directives.specs.Running.{Runs};
ghost use Rattle.pp_unit.specs.Seen.{Mark};
ghost use Rattle.pp_unit.specs.Files.{ways, with_roles, Enters, IncludesFound, DoesInclude, Walks, last_number};
ghost use Rattle.pp_unit.specs.Stopping.{FileComesTo, StopComesTo, LineRuns, HasLeft, StopFailed, FileFailed, with_marks};

use crate::directives::classify::{classify_line, is_include};
use crate::directives::direct::follow_directive;
use crate::directives::header::HeaderName;
use crate::directives::include::{found_in, header_of, included};
use crate::event_log::EventLog;
use crate::fault::{PpFault, PpKind};
use crate::open_file::OpenFile;
use crate::stop::{Stop, in_line};
use mac_base::Bytes;
use mac_io::{FileId, Headers, Located};
use pp_directives::{Conditions, Directive, StructFault};
use pp_tokens::Line;

/// The most files that are open at once.
const OPEN_LIMIT: usize = 200;

/// The number of the last line, 0 where there is none.
fn last_number(lines: &[Line]) -> u64
    ensures { result ≡ last_number 0 lines.now }
{
    let mut number = 0;
    for line in lines {
        number = line.number;
    }
    number
}

/// Walks a file that is open, from after its start to its end.
#[cycle(walk)]
pub fn walk_file<P: Headers>(
    path: &mut P,
    log: EventLog,
    open_file: OpenFile,
    bytes: &[u8],
) -> Result<EventLog, PpFault>
    requires store { open_file.id.store < length (P.stores path.old) }
    requires room { length open_file.frames ≤ 200 }
    ensures walked { (left : ℕ) (marks : List Mark) → HasLeft left open_file → FileComesTo (Walks (P.stores path.old) (suc left) open_file bytes.now (with_marks log marks)) result }
    ensures same { P.stores path.new ≡ P.stores path.old }
    ensures cause { HasCause (P.count path.old) (P.count path.new) (FileFailed result) }
{
    let alloc = log.alloc();
    let mut log = log;
    let lines = match log.lines_of(open_file.path.as_slice(), bytes) {
        Ok(lines) => lines,
        Err((line, what)) => return Err(open_file.refuse(alloc, line, what)),
    };
    match follow_lines(path, log, &open_file, lines.as_slice()) {
        Ok(log) => match log.end() {
            Ok(log) => Ok(log),
            Err(what) => Err(open_file.refuse(alloc, last_number(lines.as_slice()), what)),
        },
        Err(stop) => Err(open_file.stop(alloc, stop)),
    }
}

/// Follows the lines of a file.
#[cycle(walk)]
fn follow_lines<P: Headers>(
    path: &mut P,
    log: EventLog,
    open_file: &OpenFile,
    lines: &[Line],
) -> Result<EventLog, Stop>
    requires store { open_file.now.id.store < length (P.stores path.old) }
    requires room { length open_file.now.frames ≤ 200 }
    ensures run { (left : ℕ) (marks : List Mark) → HasLeft left open_file.now → StopComesTo open_file.now (Runs (ways (P.stores path.old) left (Walks (P.stores path.old) left) open_file.now) [] (with_roles lines.now) (with_marks log marks)) result }
    ensures same { P.stores path.new ≡ P.stores path.old }
    ensures cause { HasCause (P.count path.old) (P.count path.new) (StopFailed result) }
{
    let mut log = log;
    let mut pending = Conditions::new(log.alloc());
    for line in lines {
        let acts = classify_line(&log, open_file, &mut pending, line)?;
        let Some(directive) = acts else {
            continue;
        };
        log = follow_line(path, log, open_file, line, &directive)?;
    }
    match pending.open_line() {
        None => Ok(log),
        Some(line) => Err(Stop::Here {
            line,
            what: PpKind::Struct(StructFault::OpenIf),
        }),
    }
}

/// Follows a line of a taken group that is no conditional directive.
#[cycle(walk)]
fn follow_line<P: Headers>(
    path: &mut P,
    log: EventLog,
    open_file: &OpenFile,
    line: &Line,
    directive: &Directive,
) -> Result<EventLog, Stop>
    requires store { open_file.now.id.store < length (P.stores path.old) }
    requires room { length open_file.now.frames ≤ 200 }
    requires known { directive.now ≡ directive_of line.now.tokens }
    requires other { not (is_other (role_of directive.now)) ≡ false }
    ensures step { (pending : List OpenSection) → is_active pending ≡ true → (left : ℕ) (marks : List Mark) → HasLeft left open_file.now → LineRuns (ways (P.stores path.old) left (Walks (P.stores path.old) left) open_file.now) open_file.now pending line.now (with_marks log marks) result pending }
    ensures same { P.stores path.new ≡ P.stores path.old }
    ensures cause { HasCause (P.count path.old) (P.count path.new) (StopFailed result) }
{
    if is_include(directive) {
        return include(path, log, open_file, line);
    }
    in_line(
        line.number,
        follow_directive(log, open_file, line, directive),
    )
}

/// An `#include`.
#[cycle(walk)]
#[inline(never)]
fn include<P: Headers>(
    path: &mut P,
    log: EventLog,
    open_file: &OpenFile,
    line: &Line,
) -> Result<EventLog, Stop>
    requires store { open_file.now.id.store < length (P.stores path.old) }
    requires room { length open_file.now.frames ≤ 200 }
    ensures included { (left : ℕ) (marks : List Mark) → HasLeft left open_file.now → StopComesTo open_file.now (DoesInclude (P.stores path.old) left (Walks (P.stores path.old) left) open_file.now line.now (with_marks log marks)) result }
    ensures same { P.stores path.new ≡ P.stores path.old }
    ensures cause { HasCause (P.count path.old) (P.count path.new) (StopFailed result) }
{
    let header = in_line(line.number, header_of(&log, open_file, line))?;
    if open_file.frames.len() >= OPEN_LIMIT {
        return Err(Stop::Here {
            line: line.number,
            what: PpKind::IncludeDepth,
        });
    }
    let HeaderName { form, name } = header;
    let mut bytes = Vec::new(log.alloc());
    let located = path.find(&open_file.id, form, name.as_slice(), &mut bytes);
    include_found(
        path,
        log,
        open_file,
        line.number,
        name,
        located,
        bytes.as_slice(),
    )
}

/// Goes on by what a search found.
#[cycle(walk)]
pub fn include_found<P: Headers>(
    path: &mut P,
    log: EventLog,
    outer: &OpenFile,
    line: u64,
    name: Bytes,
    located: Located,
    bytes: &[u8],
) -> Result<EventLog, Stop>
    requires store { OnFound located (λ id. id.store < length (P.stores path.old)) }
    requires room { length outer.now.frames < 200 }
    ensures opened { (left : ℕ) (marks : List Mark) → HasLeft (suc left) outer.now → StopComesTo outer.now (IncludesFound (P.stores path.old) (Walks (P.stores path.old) (suc left)) outer.now line name (with_marks log marks) located bytes.now) result }
    ensures same { P.stores path.new ≡ P.stores path.old }
    ensures cause { (before : ℕ) → HasCause before (P.count path.old) (located ≡ Located.Failed) → HasCause before (P.count path.new) (StopFailed result) }
{
    let id = match found_in(located, name) {
        Ok(id) => id,
        Err(what) => return Err(Stop::Here { line, what }),
    };
    if log.is_once(&id) {
        return Ok(log);
    }
    enter(path, log, outer, line, id, bytes)
}

/// A file that was found begins, and is walked.
#[cycle(walk)]
fn enter<P: Headers>(
    path: &mut P,
    log: EventLog,
    outer: &OpenFile,
    line: u64,
    id: FileId,
    bytes: &[u8],
) -> Result<EventLog, Stop>
    requires store { id.store < length (P.stores path.old) }
    requires room { length outer.now.frames < 200 }
    ensures entered { (left : ℕ) (marks : List Mark) → HasLeft (suc left) outer.now → StopComesTo outer.now (Enters (P.stores path.old) (Walks (P.stores path.old) (suc left)) outer.now line id bytes.now (with_marks log marks)) result }
    ensures same { P.stores path.new ≡ P.stores path.old }
    ensures cause { HasCause (P.count path.old) (P.count path.new) (StopFailed result) }
{
    let open_file = in_line(line, included(path, &log, outer, line, id))?;
    let log = in_line(line, log.start(line, open_file.path.as_slice()))?;
    match walk_file(path, log, open_file, bytes) {
        Ok(log) => Ok(log),
        Err(fault) => Err(Stop::Inside(fault)),
    }
}
