ghost use Rattle.std.specs.Prelude.{◌≡◌, ◌<◌, [], ◌∷◌, length, IfOk, IfErr};
ghost use Rattle.mac_io.specs.Causes.{HasCause};
ghost use Rattle.mac_base.specs.Answers.{Answers};
ghost use Rattle.pp_unit.specs.declared.fault.PpKind.TheVariants.{NoMemory as RanOut};
ghost use Rattle.pp_unit.specs.Definitions.{all_commanded, predefined};
ghost use Rattle.pp_unit.specs.Files.{Includes, Walks};
ghost use Rattle.pp_unit.specs.Stopping.{StopComesTo, StopFailed, with_marks};
ghost use Rattle.pp_unit.specs.Walk.{IsWalked, StoreFailed, open_limit, outside};

use crate::directives::define::{follow_commands, predefine};
use crate::event_log::EventLog;
use crate::fault::{PpFault, PpKind};
use crate::open_file::OpenFile;
use crate::request::UnitSpec;
use crate::stop::{Stop, in_line};
use crate::walk::include_found;
use mac_base::{Bytes, Events, Frames};
use mac_io::{FileId, Headers};
use std::alloc::Global;

/// Where no file is open.
fn outside(alloc: Global) -> OpenFile
    ensures { result ≡ outside }
{
    OpenFile {
        frames: Frames::new(alloc),
        path: Bytes::new(alloc),
        id: FileId {
            store: 0,
            name: Bytes::new(alloc),
        },
    }
}

/// What is predefined, and the words of the command after it.
fn begin(alloc: Global, spec: &UnitSpec) -> Result<EventLog, PpKind>
    ensures { Answers RanOut result (all_commanded predefined spec.now.commands) }
{
    let log = predefine(alloc)?;
    follow_commands(log, spec.commands.as_slice())
}

/// The same name as one of its own.
fn name_of(source: &Bytes) -> Result<Bytes, PpKind>
    ensures ok { IfOk result (λ name. name ≡ source.now) }
    ensures err { IfErr result (λ kind. kind ≡ RanOut) }
{
    Ok(source.copy()?)
}

/// The primary file, which is in the first store.
fn walk_primary<P: Headers>(
    alloc: Global,
    path: &mut P,
    log: EventLog,
    outer: &OpenFile,
    source: &Bytes,
) -> Result<EventLog, Stop>
    requires store { 0 < length (P.stores path.old) }
    requires outside { outer.now ≡ outside }
    ensures walked { StopComesTo outer.now (Includes (P.stores path.old) (Walks (P.stores path.old) open_limit) outer.now 0 source.now (record { store = 0; name = source.now } ∷ []) (with_marks log [])) result }
    ensures same { P.stores path.new ≡ P.stores path.old }
    ensures cause { HasCause (P.count path.old) (P.count path.new) (StopFailed result) }
{
    let name = in_line(0, name_of(source))?;
    let mut bytes = Vec::new(alloc);
    let located = path.primary(source.as_slice(), &mut bytes);
    include_found(path, log, outer, 0, name, located, bytes.as_slice())
}

/// The events of a translation unit: what is predefined, the words of its command in order, and then its primary file
/// with all files that it includes (C17 6.10), or its first fault. A store that tells its files decides the answer; one
/// that doesn't has some files that explain it.
pub fn preprocess<P: Headers>(
    alloc: Global,
    path: &mut P,
    spec: &UnitSpec,
) -> Result<Events, PpFault>
    requires { 0 < length (P.stores path.old) }
    ensures walked { IsWalked (P.stores path.old) spec.now result }
    ensures same { P.stores path.new ≡ P.stores path.old }
    ensures cause { HasCause (P.count path.old) (P.count path.new) (StoreFailed result) }
{
    let outer = outside(alloc);
    let log = match begin(alloc, spec) {
        Ok(log) => log,
        Err(what) => return Err(outer.refuse(alloc, 0, what)),
    };
    match walk_primary(alloc, path, log, &outer, &spec.source) {
        Ok(log) => Ok(log.into_events()),
        Err(stop) => Err(outer.stop(alloc, stop)),
    }
}
