// Files of the system, from which is read.
ghost use Rattle.std.specs.Prelude.{◌≡◌, ◌<◌, IfErr, IfSome};
ghost use Rattle.std.specs.List.{All};
ghost use Rattle.std.specs.IoError.{error_kind};
ghost use Rattle.mac_io.specs.Calls.{Fetches, FetchesSome};
ghost use Rattle.mac_io.specs.System.{unreadable, means_absent};

use crate::shelf::Fetched;
use std::fs::OpenFile;
use std::io::{ErrorKind, Read};
use std::rt::Files;
use std::{fs, io, str};

/// What a path is opened for.
#[derive(Clone, Copy, Debug, PartialEq, Eq)]
pub enum Wanted {
    /// The file of this path, and no other.
    NamedFile,
    /// A header, for which the next folder is tried where it is absent.
    Header,
}

/// Appends the file at a path, where it has at most `limit` bytes. A path that is not UTF-8 is that of no file.
pub fn fetch<R: Files>(
    rt: &R,
    wanted: Wanted,
    path: &[u8],
    limit: usize,
    into: &mut Vec<u8>,
) -> Fetched
    ensures { FetchesSome limit result into.old.items into.new.items }
{
    match str::from_utf8(path) {
        Ok(path) => read_opened(fs::open(rt, path), wanted, limit, into),
        Err(_) => Fetched::Absent,
    }
}

/// Appends a file that was opened, or says what the error means.
fn read_opened<F: Read + OpenFile + Drop>(
    opened: io::Result<F>,
    wanted: Wanted,
    limit: usize,
    into: &mut Vec<u8>,
) -> Fetched
    ensures some { FetchesSome limit result into.old.items into.new.items }
    ensures refused { IfErr opened (λ error. result ≡ unreadable wanted (error_kind error)) }
{
    match opened {
        Ok(file) => read_file(file, wanted, limit, into),
        Err(error) => unreadable(wanted, error.kind()),
    }
}

/// What is answered where the system has an error in place of a file.
fn unreadable(wanted: Wanted, kind: ErrorKind) -> Fetched
    ensures { result ≡ unreadable wanted kind }
{
    if means_absent(wanted, kind) {
        Fetched::Absent
    } else {
        Fetched::Failed
    }
}

/// Whether an error of the system means that there is no such file.
fn means_absent(wanted: Wanted, kind: ErrorKind) -> bool
    ensures { result ≡ means_absent wanted kind }
{
    match wanted {
        Wanted::NamedFile => matches!(kind, ErrorKind::NotFound),
        Wanted::Header => matches!(
            kind,
            ErrorKind::NotFound | ErrorKind::NotADirectory | ErrorKind::IsADirectory
        ),
    }
}

/// Appends a file of at most so many bytes. Room for all of it is made first, since a buffer that grows piece by piece
/// takes twice the memory; one byte more lets its end be seen without growing.
fn read_file<F: Read + OpenFile + Drop>(
    file: F,
    wanted: Wanted,
    limit: usize,
    into: &mut Vec<u8>,
) -> Fetched
    ensures { FetchesSome limit result into.old.items into.new.items }
{
    let Ok(metadata) = file.metadata() else {
        return Fetched::Failed;
    };
    if metadata.is_dir() {
        return unreadable(wanted, ErrorKind::IsADirectory);
    }
    let length = metadata.len() as usize;
    if length > limit {
        return Fetched::TooLong;
    }
    match into.reserve(length.saturating_add(1)) {
        Ok(()) => read_up_to(file, limit, into),
        Err(_) => Fetched::NoMemory,
    }
}

/// Appends what is left of a reader, where that has at most so many bytes.
fn read_up_to<F: Read + Drop>(reader: F, limit: usize, into: &mut Vec<u8>) -> Fetched
    ensures some { FetchesSome limit result into.old.items into.new.items }
    ensures all { IfSome (F.remaining reader) (λ left. Fetches (Some left) limit result into.old.items into.new.items) }
{
    let start = into.len();
    let answer = match reader
        .take((limit as u64).saturating_add(1))
        .read_to_end(into)
    {
        Ok(count) if count <= limit => {
            each_is_a_byte(into.as_slice());
            return Fetched::Found;
        }
        Ok(_) => Fetched::TooLong,
        Err(error) => match error.kind() {
            ErrorKind::OutOfMemory => Fetched::NoMemory,
            _ => Fetched::Failed,
        },
    };
    into.truncate(start);
    answer
}

/// Says in a contract that bytes are numbers below 256. The loop does nothing, and a compiler drops it.
pub fn each_is_a_byte(bytes: &[u8])
    ensures { All (λ byte. byte < 256) bytes.now }
{
    for byte in bytes {
        let _byte = *byte;
    }
}
