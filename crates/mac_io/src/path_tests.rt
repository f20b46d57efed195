ghost use Rattle.std.specs.Prelude.{◌≡◌, ◌<◌, ◌+◌, length, IfOk};
ghost use Rattle.mac_io.specs.Search.{OnFound};

use crate::{
    DirStore, FileId, Form, HeaderStore, Headers, Located, MapStore, SearchPath, are_distinct,
};
use mac_base::{Bytes, NoMemory, Paths};
use std::alloc::Global;
use std::fs;
use std::io::Write;
use std::os::unix::fs::symlink;
use std::process::Abort;
use std::test::Fail;

fn bytes_of(alloc: Global, text: &[u8]) -> Result<Bytes, NoMemory> {
    Bytes::from_slice(alloc, text)
}

/// The words of a text.
fn words_of(alloc: Global, text: &[u8]) -> Result<Paths, NoMemory> {
    let mut words = Paths::new(alloc);
    for word in text.split(|byte| *byte == b' ') {
        words.push(bytes_of(alloc, word)?)?;
    }
    Ok(words)
}

/// A store of files with these names, each with its own name as content.
fn store_of(rt: &impl Abort, alloc: Global, text: &[u8], fails: &[u64]) -> Result<MapStore, Fail> {
    let names = words_of(alloc, text)?;
    let contents = words_of(alloc, text)?;
    let fails = Vec::from_slice(alloc, fails)?;
    assert!(rt; are_distinct(&names));
    assert_eq!(rt; names.len(), contents.len());
    Ok(MapStore::new(alloc, names, contents, fails))
}

/// A store with one file of so many bytes.
fn long_store(rt: &impl Abort, alloc: Global, length: usize) -> Result<MapStore, Fail> {
    let names = words_of(alloc, b"u.c")?;
    let mut contents = Paths::new(alloc);
    contents.push(Bytes::from_vec(vec![in alloc; 0; length]?))?;
    assert!(rt; are_distinct(&names));
    assert_eq!(rt; names.len(), contents.len());
    Ok(MapStore::new(alloc, names, contents, Vec::new(alloc)))
}

/// Puts a store on a path.
fn add(
    alloc: Global,
    path: &mut SearchPath,
    label: &[u8],
    store: Box<dyn HeaderStore>,
) -> Result<(), NoMemory>
    requires { length (⟦<SearchPath as Headers>⟧.stores path.old) < 100 }
    ensures { IfOk result (λ _. length (⟦<SearchPath as Headers>⟧.stores path.new) ≡ length (⟦<SearchPath as Headers>⟧.stores path.old) + 1) }
{
    match path.push(bytes_of(alloc, label)?, store) {
        Ok(()) => Ok(()),
        Err(_) => Err(NoMemory),
    }
}

/// A path of three stores.
fn path_of(
    alloc: Global,
    first: Box<dyn HeaderStore>,
    one: Box<dyn HeaderStore>,
    two: Box<dyn HeaderStore>,
) -> Result<SearchPath, NoMemory>
    ensures { IfOk result (λ path. length (⟦<SearchPath as Headers>⟧.stores path) ≡ 3) }
{
    let mut path = SearchPath::new(alloc);
    add(alloc, &mut path, b"", first)?;
    add(alloc, &mut path, b"one", one)?;
    add(alloc, &mut path, b"two", two)?;
    Ok(path)
}

/// A search, and what it tells: the path of the file, or the answer in a word.
#[derive(Clone, Copy)]
struct Case<'a> {
    store: u32,
    includer: &'a [u8],
    form: Form,
    name: &'a [u8],
    answer: &'a [u8],
}

/// The path of what was found, or the answer in a word.
fn told<P: Headers>(alloc: Global, path: &P, located: &Located) -> Result<Bytes, NoMemory>
    requires { OnFound located.now (λ id. id.store < length (P.stores path.now)) }
{
    match located {
        Located::Found(id) => path.path_of(id),
        Located::Absent => bytes_of(alloc, b"absent"),
        Located::TooLong => bytes_of(alloc, b"too long"),
        Located::Failed => bytes_of(alloc, b"failed"),
        Located::NoMemory => bytes_of(alloc, b"no memory"),
    }
}

/// Makes a search; a file that is found has its path without the label as content.
fn check<P: Headers>(
    rt: &impl Abort,
    alloc: Global,
    path: &mut P,
    case: &Case<'_>,
) -> Result<(), Fail>
    requires { length (P.stores path.old) ≡ 3 }
    ensures { P.stores path.new ≡ P.stores path.old }
{
    assert!(rt; case.store < 3);
    let name = bytes_of(alloc, case.includer)?;
    let store = case.store;
    let mut into = Vec::new(alloc);
    let located = path.find(&FileId { store, name }, case.form, case.name, &mut into);
    let answer = told(alloc, path, &located)?;
    assert_eq!(rt; answer.as_slice(), case.answer);
    assert!(rt; into.is_empty() || answer.as_slice().ends_with(into.as_slice()));
    Ok(())
}

fn check_all<P: Headers>(
    rt: &impl Abort,
    alloc: Global,
    path: &mut P,
    cases: &[Case<'_>],
) -> Result<(), Fail>
    requires { length (P.stores path.old) ≡ 3 }
    ensures { P.stores path.new ≡ P.stores path.old }
{
    for case in cases {
        check(rt, alloc, path, case)?;
    }
    Ok(())
}

/// What asking the first store for its source file tells.
fn check_primary<P: Headers>(
    rt: &impl Abort,
    alloc: Global,
    path: &mut P,
    name: &[u8],
    answer: &[u8],
) -> Result<(), Fail>
    requires { length (P.stores path.old) ≡ 3 }
    ensures { P.stores path.new ≡ P.stores path.old }
{
    let mut into = Vec::new(alloc);
    let located = path.primary(name, &mut into);
    assert_eq!(rt; told(alloc, path, &located)?.as_slice(), answer);
    Ok(())
}

fn asked<'a>(
    store: u32,
    includer: &'a [u8],
    form: Form,
    name: &'a [u8],
    answer: &'a [u8],
) -> Case<'a> {
    Case {
        store,
        includer,
        form,
        name,
        answer,
    }
}

#[test]
fn the_folder_of_the_includer_comes_first(rt: HostRuntime) -> Result<(), Fail> {
    let alloc = rt.alloc();
    let first = Box::new(alloc, store_of(&rt, alloc, b"q.h d/q.h /q.h d/e.h", &[])?)?;
    let one = Box::new(alloc, store_of(&rt, alloc, b"q.h e/q.h /only.h", &[])?)?;
    let two = Box::new(alloc, store_of(&rt, alloc, b"q.h only.h", &[])?)?;
    let mut path = path_of(alloc, first, one, two)?;
    check_primary(&rt, alloc, &mut path, b"d/e.h", b"d/e.h")?;
    check_primary(&rt, alloc, &mut path, b"only.h", b"absent")?;
    let cases = [
        asked(0, b"d/u.c", Form::Quote, b"q.h", b"d/q.h"),
        asked(0, b"d/u.c", Form::Angle, b"q.h", b"one/q.h"),
        asked(1, b"e/x.h", Form::Quote, b"q.h", b"one/e/q.h"),
        asked(0, b"u.c", Form::Quote, b"only.h", b"two/only.h"),
        asked(0, b"d/u.c", Form::Quote, b"none.h", b"absent"),
        asked(2, b"q.h", Form::Quote, b"/q.h", b"/q.h"),
        asked(1, b"q.h", Form::Quote, b"/only.h", b"absent"),
    ];
    check_all(&rt, alloc, &mut path, &cases)?;
    assert_eq!(rt; path.faults(), 0);
    Ok(())
}

#[test]
fn a_store_that_fails_ends_the_search(rt: HostRuntime) -> Result<(), Fail> {
    let alloc = rt.alloc();
    let first = Box::new(alloc, store_of(&rt, alloc, b"u.c", &[])?)?;
    let one = Box::new(alloc, store_of(&rt, alloc, b"other.h", &[1])?)?;
    let two = Box::new(alloc, store_of(&rt, alloc, b"only.h", &[])?)?;
    let mut path = path_of(alloc, first, one, two)?;
    check(
        &rt,
        alloc,
        &mut path,
        &asked(0, b"u.c", Form::Angle, b"only.h", b"failed"),
    )?;
    check(
        &rt,
        alloc,
        &mut path,
        &asked(0, b"u.c", Form::Angle, b"only.h", b"two/only.h"),
    )?;
    assert_eq!(rt; path.faults(), 1);
    path.clear();
    assert_eq!(rt; path.faults(), 1);
    Ok(())
}

#[test]
fn a_source_file_has_at_most_16777216_bytes(rt: HostRuntime) -> Result<(), Fail> {
    let alloc = rt.alloc();
    let first = Box::new(alloc, long_store(&rt, alloc, 16_777_216)?)?;
    let one = Box::new(alloc, long_store(&rt, alloc, 16_777_217)?)?;
    let two = Box::new(alloc, store_of(&rt, alloc, b"u.c", &[])?)?;
    let mut path = path_of(alloc, first, one, two)?;
    check_primary(&rt, alloc, &mut path, b"u.c", b"u.c")?;
    check(
        &rt,
        alloc,
        &mut path,
        &asked(0, b"u.c", Form::Angle, b"u.c", b"too long"),
    )?;
    Ok(())
}

#[test]
fn real_headers_are_found(rt: HostRuntime) -> Result<(), Fail> {
    let alloc = rt.alloc();
    fs::create(&rt, "q.h")?.write_all(b"q.h")?;
    symlink(&rt, "loop", "loop")?;
    let first = Box::new(alloc, DirStore::new(alloc, rt, bytes_of(alloc, b"")?))?;
    let one = Box::new(alloc, DirStore::new(alloc, rt, bytes_of(alloc, b".")?))?;
    let two = Box::new(alloc, DirStore::new(alloc, rt, bytes_of(alloc, b"no")?))?;
    let mut path = path_of(alloc, first, one, two)?;
    let cases = [
        asked(0, b"u.c", Form::Quote, b"q.h", b"q.h"),
        asked(0, b"u.c", Form::Angle, b"q.h", b"one/q.h"),
        asked(0, b"u.c", Form::Quote, b"none.h", b"absent"),
        asked(0, b"u.c", Form::Quote, b"\xff", b"absent"),
        asked(0, b"u.c", Form::Angle, b".", b"absent"),
        asked(0, b"u.c", Form::Angle, b"q.h/x.h", b"absent"),
        asked(0, b"u.c", Form::Angle, b"loop", b"failed"),
    ];
    check_all(&rt, alloc, &mut path, &cases)?;
    assert_eq!(rt; path.faults(), 1);
    Ok(())
}
