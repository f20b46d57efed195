// Runs of commands that walk translation units, over header stores in memory.
use crate::stage::{bytes_of, paths_of};
use dwmac_run::{Status, add_store, labels_for, run};
use mac_base::{NoMemory, Paths};
use mac_io::{MapShelf, MapStore, SearchPath, VecSink, are_distinct};
use std::alloc::Global;
use std::process::Abort;
use std::test::Fail;

/// The files of a store, each a name and its content, and the calls that fail.
#[derive(Clone, Copy)]
pub struct Folder<'a> {
    pub files: &'a [(&'a [u8], &'a [u8])],
    pub fails: &'a [u64],
}

/// A store of these files in which no call fails.
pub fn holding<'a>(files: &'a [(&'a [u8], &'a [u8])]) -> Folder<'a> {
    Folder { files, fails: &[] }
}

/// A run over these folders, and what it is to leave.
#[derive(Clone, Copy)]
pub struct UnitCase<'a> {
    pub words: &'a [&'a [u8]],
    pub folders: &'a [Folder<'a>],
    pub status: Status,
    /// What `out` has after the lines of the macros that are predefined.
    pub out: &'a [u8],
    pub err: &'a [u8],
}

/// What each report begins with.
const PREDEFINED: &[u8] =
    b"define 0 __STDC__ 1\ndefine 0 __STDC_HOSTED__ 1\ndefine 0 __STDC_VERSION__ 201710L\n";

/// A store of a folder, whose names differ.
fn store_of(alloc: Global, folder: &Folder<'_>) -> Result<MapStore, NoMemory> {
    let mut names = Paths::new(alloc);
    let mut contents = Paths::new(alloc);
    for (name, content) in folder.files {
        names.push(bytes_of(alloc, name)?)?;
        contents.push(bytes_of(alloc, content)?)?;
    }
    if names.len() != contents.len() || !are_distinct(&names) {
        return Err(NoMemory);
    }
    Ok(MapStore::new(
        alloc,
        names,
        contents,
        Vec::from_slice(alloc, folder.fails)?,
    ))
}

/// Runs words over a path with a store for each label that they call for: the folder at its place, or an empty one.
pub fn run_over(
    alloc: Global,
    words: &Paths,
    folders: &[Folder<'_>],
    shelf: &mut MapShelf,
    out: &mut VecSink,
    err: &mut VecSink,
) -> Result<Status, NoMemory> {
    let named = labels_for(alloc, words)?;
    let mut path = SearchPath::new(alloc);
    let mut left = folders.iter();
    for label in named.as_slice() {
        let here = left.next().copied().unwrap_or(holding(&[]));
        let store = Box::new(alloc, store_of(alloc, &here)?)?;
        let Ok(()) = add_store(&mut path, label, store) else {
            return Err(NoMemory);
        };
    }
    Ok(run(alloc, words, &mut path, shelf, out, err))
}

/// What `out` is to have.
fn expected(alloc: Global, case: &UnitCase<'_>) -> Result<Vec<u8>, NoMemory> {
    let mut text = Vec::new(alloc);
    if case.status == Status::Ok {
        text.extend_from_slice(PREDEFINED)?;
        text.extend_from_slice(case.out)?;
    }
    Ok(text)
}

/// Runs the case, and compares the status and both texts.
pub fn check_unit(rt: &impl Abort, alloc: Global, case: &UnitCase<'_>) -> Result<(), Fail> {
    let words = paths_of(alloc, case.words)?;
    let names = Paths::new(alloc);
    let contents = Paths::new(alloc);
    assert!(rt; are_distinct(&names));
    let mut shelf = MapShelf::new(alloc, names, contents, Vec::new(alloc));
    let mut out = VecSink::new(alloc, 65_536, Vec::new(alloc))?;
    let mut err = VecSink::new(alloc, 65_536, Vec::new(alloc))?;
    let status = run_over(alloc, &words, case.folders, &mut shelf, &mut out, &mut err)?;
    assert_eq!(rt; err.text(), case.err);
    assert_eq!(rt; status, case.status);
    assert_eq!(rt; out.text(), expected(alloc, case)?.as_slice());
    Ok(())
}
