// What `record` writes of a translation unit.
ghost use Rattle.std.specs.Prelude.{◌≡◌, ◌<◌, [], ◌∷◌, length, IfOk, IfSome};
ghost use Rattle.mac_base.specs.Answers.{AnswersAs};
ghost use Rattle.mac_io.specs.Causes.{HasCause};
ghost use Rattle.unit_splitter.specs.Split.{split_of};
ghost use Rattle.object_writer.specs.Elf.{ran_out};
ghost use Rattle.object_writer.specs.Object.{made};
ghost use Rattle.dwmac_run.specs.Answers.{Prints};
ghost use Rattle.dwmac_run.specs.Record.{RecordAnswer, recorded, info_of, object_line, closing_line};
ghost use Rattle.dwmac_run.specs.Outcome.{answer_of, HasFailed};

use crate::outcome::{NewFile, Outcome};
use crate::refusal::Refusal;
use crate::units::stop;
use mac_base::{Bytes, Events, NoMemory, push_bytes, push_decimal};
use mac_io::Headers;
use object_writer::{Forms, UnitInfo, WriteFault, written_object};
use pp_unit::{UnitSpec, preprocess};
use std::alloc::Global;
use unit_splitter::split;

/// `record`: the object of a translation unit, for a file of this name.
pub fn record_unit<P: Headers>(
    alloc: Global,
    path: &mut P,
    unit: &UnitSpec,
    forms: Forms,
    output: Bytes,
) -> Outcome
    requires { 0 < length (P.stores path.old) }
    ensures answer { IfSome (answer_of result) (RecordAnswer (P.stores path.old) unit.now forms output) }
    ensures same { P.stores path.new ≡ P.stores path.old }
    ensures cause { HasCause (P.count path.old) (P.count path.new) (HasFailed result) }
{
    match preprocess(alloc, path, unit) {
        Ok(events) => store(alloc, unit.source.as_slice(), events, forms, output),
        Err(fault) => stop(fault),
    }
}

/// The object of these events, and the line on it.
fn store(alloc: Global, source: &[u8], events: Events, forms: Forms, output: Bytes) -> Outcome
    ensures answer { IfSome (answer_of result) (λ answer. answer ≡ recorded source.now events.files events.list forms output) }
    ensures works { HasFailed result → ⊥ }
{
    match write(alloc, source, events, forms) {
        Ok((bytes, line)) => stored(
            alloc,
            NewFile {
                name: output,
                bytes,
            },
            line,
        ),
        Err(WriteFault::TooLarge) => Outcome::Refused(Refusal::TooLarge),
        Err(WriteFault::NoMemory) => Outcome::NoMemory,
    }
}

/// A file that is to be written, and the line on it.
fn stored(alloc: Global, file: NewFile, line: Bytes) -> Outcome
    ensures answer { IfSome (answer_of result) (λ answer. answer ≡ Prints (file ∷ []) line) }
    ensures works { HasFailed result → ⊥ }
{
    let mut files = Vec::new(alloc);
    match files.push(file) {
        Ok(()) => Outcome::Written(files, line),
        Err(_) => Outcome::NoMemory,
    }
}

/// The object of these events of a translation unit with this source, and the line on it.
fn write(
    alloc: Global,
    source: &[u8],
    events: Events,
    forms: Forms,
) -> Result<(Bytes, Bytes), WriteFault>
    ensures object { AnswersAs ran_out (λ written. written.0) result (made (split_of events.list) (info_of source.now events.files) forms) }
    ensures line { IfOk result (λ written. written.1 ≡ object_line (split_of events.list) forms written.0) }
{
    let split = split(alloc, &events)?;
    let unit = UnitInfo {
        name: Bytes::from_slice(alloc, source)?,
        dir: Bytes::from_slice(alloc, b".")?,
        files: events.files,
    };
    let written = written_object(alloc, &split, &unit, forms)?;
    let pieces = split.pieces.len() as u64;
    let size = written.bytes.len() as u64;
    let line = closing_line(alloc, 1, pieces, written.strings, size)?;
    Ok((written.bytes, line))
}

/// The line on a file that was written.
fn closing_line(
    alloc: Global,
    units: u64,
    pieces: u64,
    strings: u64,
    bytes: u64,
) -> Result<Bytes, NoMemory>
    ensures { IfOk result (λ line. line ≡ closing_line units pieces strings bytes) }
{
    let mut line = Vec::new(alloc);
    push_bytes(&mut line, b"units ")?;
    push_decimal(&mut line, units)?;
    push_bytes(&mut line, b" pieces ")?;
    push_decimal(&mut line, pieces)?;
    push_bytes(&mut line, b" strings ")?;
    push_decimal(&mut line, strings)?;
    push_bytes(&mut line, b" bytes ")?;
    push_decimal(&mut line, bytes)?;
    line.push(b'\n')?;
    Ok(Bytes::from_vec(line))
}
