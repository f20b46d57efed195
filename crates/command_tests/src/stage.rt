use crate::folders::run_over;
use dwmac_run::Status;
use mac_base::{Bytes, NoMemory, Paths};
use mac_io::{MapShelf, VecSink, are_distinct};
use std::alloc::Global;
use std::process::Abort;
use std::test::Fail;

/// More than nearly all texts of these tests have.
const ROOM: usize = 65_536;

/// A run: the words, the one file of the shelf, the calls that fail, and what the run is to leave.
#[derive(Clone, Copy)]
pub struct Case<'a> {
    pub words: &'a [&'a [u8]],
    pub name: &'a [u8],
    pub file: &'a [u8],
    pub shelf_fails: &'a [u64],
    pub out_fails: &'a [u64],
    pub err_fails: &'a [u64],
    /// How many bytes `out` takes.
    pub room: usize,
    pub status: Status,
    pub out: &'a [u8],
    pub err: &'a [u8],
}

/// A run that prints a report.
pub fn prints<'a>(
    words: &'a [&'a [u8]],
    name: &'a [u8],
    file: &'a [u8],
    out: &'a [u8],
) -> Case<'a> {
    Case {
        words,
        name,
        file,
        shelf_fails: &[],
        out_fails: &[],
        err_fails: &[],
        room: ROOM,
        status: Status::Ok,
        out,
        err: b"",
    }
}

/// A run that refuses its file.
pub fn refuses<'a>(
    words: &'a [&'a [u8]],
    name: &'a [u8],
    file: &'a [u8],
    err: &'a [u8],
) -> Case<'a> {
    Case {
        words,
        name,
        file,
        shelf_fails: &[],
        out_fails: &[],
        err_fails: &[],
        room: ROOM,
        status: Status::Refused,
        out: b"",
        err,
    }
}

/// A run whose words fit no command.
pub fn usage<'a>(words: &'a [&'a [u8]], name: &'a [u8], file: &'a [u8]) -> Case<'a> {
    Case {
        words,
        name,
        file,
        shelf_fails: &[],
        out_fails: &[],
        err_fails: &[],
        room: ROOM,
        status: Status::Usage,
        out: b"",
        err: b"dwmac: usage\n",
    }
}

/// A text of its own.
pub fn bytes_of(alloc: Global, bytes: &[u8]) -> Result<Bytes, NoMemory> {
    Bytes::from_slice(alloc, bytes)
}

/// The words as a list of their own.
pub fn paths_of(alloc: Global, words: &[&[u8]]) -> Result<Paths, NoMemory> {
    let mut paths = Paths::new(alloc);
    for word in words {
        paths.push(bytes_of(alloc, word)?)?;
    }
    Ok(paths)
}

/// Runs the case, and compares the status and both texts.
pub fn check(rt: &impl Abort, alloc: Global, case: &Case<'_>) -> Result<(), Fail> {
    let words = paths_of(alloc, case.words)?;
    let names = paths_of(alloc, &[case.name])?;
    let contents = paths_of(alloc, &[case.file])?;
    assert!(rt; are_distinct(&names));
    assert_eq!(rt; names.len(), contents.len());
    let shelf_fails = Vec::from_slice(alloc, case.shelf_fails)?;
    let mut shelf = MapShelf::new(alloc, names, contents, shelf_fails);
    let mut out = VecSink::new(alloc, case.room, Vec::from_slice(alloc, case.out_fails)?)?;
    let mut err = VecSink::new(alloc, ROOM, Vec::from_slice(alloc, case.err_fails)?)?;
    let status = run_over(alloc, &words, &[], &mut shelf, &mut out, &mut err)?;
    assert_eq!(rt; out.text(), case.out);
    assert_eq!(rt; err.text(), case.err);
    assert_eq!(rt; status, case.status);
    assert_eq!(rt; shelf.file(case.name).ok_or("the file is gone")?, case.file);
    Ok(())
}
