ghost use Rattle.std.specs.Prelude.{◌≡◌, ◌<◌, length, IfOk, IfErr};
ghost use Rattle.pp_unit.specs.declared.fault.PpKind.TheVariants.{NoMemory as RanOut};
ghost use Rattle.pp_unit.specs.Seen.{macros};
ghost use Rattle.pp_unit.specs.LineConditions.{operands, here_of};
ghost use Rattle.pp_unit.specs.HeaderNames.{NamesHeader};
ghost use Rattle.pp_unit.specs.Files.{inside};
ghost use Rattle.pp_unit.specs.Recorded.{ComesTo};
ghost use Rattle.pp_unit.specs.Stopping.{IsFoundIn};

use crate::directives::condition::{here_of, operands};
use crate::directives::header::HeaderName;
use crate::directives::header_name::header_named;
use crate::event_log::EventLog;
use crate::fault::PpKind;
use crate::open_file::OpenFile;
use mac_base::{Bytes, Frame};
use mac_io::{FileId, Headers, Located};
use pp_tokens::{Line, Tokens};

/// The header that an `#include` names.
pub fn header_of(log: &EventLog, open_file: &OpenFile, line: &Line) -> Result<HeaderName, PpKind>
    ensures { ComesTo (NamesHeader (macros log.now) (here_of open_file.now line.now) (operands line.now)) result }
{
    let here = here_of(open_file, line)?;
    let tokens = Tokens::from_slice(log.alloc(), operands(line))?;
    header_named(log, &here, &tokens)
}

/// The file that is included in this line, with all files around it.
pub fn included<P: Headers>(
    path: &P,
    log: &EventLog,
    outer: &OpenFile,
    line: u64,
    id: FileId,
) -> Result<OpenFile, PpKind>
    requires { id.store < length (P.stores path.now) }
    ensures ok { IfOk result (λ open_file. open_file ≡ inside (P.stores path.now) outer.now line id log.now) }
    ensures err { IfErr result (λ kind. kind ≡ RanOut) }
{
    let text = path.path_of(&id)?;
    let number = log.number_of(text.as_slice());
    let mut frames = outer.frames.copy()?;
    frames.push(Frame { path: number, line })?;
    Ok(OpenFile {
        frames,
        path: text,
        id,
    })
}

/// The file that a search found, or why there is none.
pub fn found_in(located: Located, name: Bytes) -> Result<FileId, PpKind>
    ensures { IsFoundIn located name result }
{
    match located {
        Located::Found(id) => Ok(id),
        Located::Absent => Err(PpKind::NoSuchFile { name }),
        Located::TooLong => Err(PpKind::SourceTooLong { name }),
        Located::Failed => Err(PpKind::StoreFault),
        Located::NoMemory => Err(PpKind::NoMemory),
    }
}
