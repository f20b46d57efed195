use crate::{DirShelf, Fetched, MapShelf, Put, Shelf, Sink, StdSink, VecSink, Wrote, are_distinct};
use mac_base::{Bytes, NoMemory, Paths};
use std::alloc::Global;
use std::fs;
use std::io::Read;
use std::process::Abort;
use std::test::Fail;

fn paths_of(alloc: Global, words: &[&[u8]]) -> Result<Paths, NoMemory> {
    let mut paths = Paths::new(alloc);
    for word in words {
        paths.push(Bytes::from_slice(alloc, word)?)?;
    }
    Ok(paths)
}

/// A shelf with two files.
fn shelf_of(rt: &impl Abort, alloc: Global, fails: &[u64]) -> Result<MapShelf, Fail> {
    let names = paths_of(alloc, &[b"a", b"b"])?;
    let contents = paths_of(alloc, &[b"one", b"three"])?;
    assert!(rt; are_distinct(&names));
    assert_eq!(rt; names.len(), contents.len());
    Ok(MapShelf::new(alloc, names, contents, Vec::from_slice(alloc, fails)?))
}

/// What a look-up answers, and what it appends.
fn check_get<S: Shelf>(
    rt: &impl Abort,
    alloc: Global,
    shelf: &mut S,
    name: &[u8],
    limit: usize,
    answer: Fetched,
    bytes: &[u8],
) -> Result<(), Fail> {
    let mut into = Vec::from_slice(alloc, b">")?;
    assert_eq!(rt; shelf.get(name, limit, &mut into), answer);
    assert_eq!(rt; &into[..1], b">".as_slice());
    assert_eq!(rt; &into[1..], bytes);
    Ok(())
}

fn has(shelf: &MapShelf, name: &[u8], bytes: &[u8]) -> bool {
    shelf.file(name).is_some_and(|file| file == bytes)
}

#[test]
fn files_in_memory_are_read_and_stored(rt: HostRuntime) -> Result<(), Fail> {
    let alloc = rt.alloc();
    let mut shelf = shelf_of(&rt, alloc, &[5, 7])?;
    check_get(&rt, alloc, &mut shelf, b"b", 5, Fetched::Found, b"three")?;
    check_get(&rt, alloc, &mut shelf, b"b", 4, Fetched::TooLong, b"")?;
    check_get(&rt, alloc, &mut shelf, b"c", 4, Fetched::Absent, b"")?;
    assert_eq!(rt; shelf.put(b"c", b"new"), Put::Done);
    check_get(&rt, alloc, &mut shelf, b"c", 4, Fetched::Failed, b"")?;
    assert_eq!(rt; shelf.put(b"a", b"again"), Put::Done);
    assert_eq!(rt; shelf.put(b"a", b"lost"), Put::Failed);
    assert!(rt; has(&shelf, b"a", b"again"));
    assert!(rt; has(&shelf, b"c", b"new"));
    assert_eq!(rt; shelf.faults(), 2);
    Ok(())
}

fn check_write<K: Sink>(rt: &impl Abort, sink: &mut K, piece: &[u8], answer: Wrote) {
    assert_eq!(rt; sink.write(piece), answer);
}

#[test]
fn a_sink_in_memory_takes_what_fits(rt: HostRuntime) -> Result<(), Fail> {
    let alloc = rt.alloc();
    let mut sink = VecSink::new(alloc, 5, Vec::from_slice(alloc, &[2])?)?;
    check_write(&rt, &mut sink, b"one", Wrote::Done);
    check_write(&rt, &mut sink, b"x", Wrote::Failed);
    check_write(&rt, &mut sink, b"two", Wrote::Failed);
    check_write(&rt, &mut sink, b"wo", Wrote::Done);
    assert_eq!(rt; sink.text(), b"onewo".as_slice());
    assert_eq!(rt; sink.faults(), 2);
    Ok(())
}

#[test]
fn real_files_are_read_and_stored(rt: HostRuntime) -> Result<(), Fail> {
    let alloc = rt.alloc();
    let mut shelf = DirShelf::new(alloc, rt);
    assert_eq!(rt; shelf.put(b"a", b"three"), Put::Done);
    assert_eq!(rt; shelf.put(b"a", b"one"), Put::Done);
    check_get(&rt, alloc, &mut shelf, b"a", 3, Fetched::Found, b"one")?;
    check_get(&rt, alloc, &mut shelf, b"a", 2, Fetched::TooLong, b"")?;
    check_get(&rt, alloc, &mut shelf, b"b", 2, Fetched::Absent, b"")?;
    check_get(&rt, alloc, &mut shelf, b"\xff", 2, Fetched::Absent, b"")?;
    assert_eq!(rt; shelf.faults(), 0);
    assert_eq!(rt; shelf.put(b"\xff", b"one"), Put::Failed);
    assert_eq!(rt; shelf.put(b"no/such/folder", b"one"), Put::Failed);
    check_get(
        &rt,
        alloc,
        &mut shelf,
        b".",
        1_000_000,
        Fetched::Failed,
        b"",
    )?;
    assert_eq!(rt; shelf.faults(), 3);
    Ok(())
}

#[test]
fn a_writer_has_all_text_after_the_flush(rt: HostRuntime) -> Result<(), Fail> {
    let alloc = rt.alloc();
    let mut sink = StdSink::new(alloc, fs::create(&rt, "text")?)?;
    check_write(&rt, &mut sink, b"one", Wrote::Done);
    check_write(&rt, &mut sink, b" two", Wrote::Done);
    assert_eq!(rt; sink.flush(), Wrote::Done);
    assert_eq!(rt; sink.faults(), 0);
    let mut text = Vec::new(alloc);
    fs::open(&rt, "text")?.read_to_end(&mut text)?;
    assert_eq!(rt; text.as_slice(), b"one two".as_slice());
    Ok(())
}

#[test]
fn a_writer_that_cannot_write_is_counted(rt: HostRuntime) -> Result<(), Fail> {
    let alloc = rt.alloc();
    let mut sink = StdSink::new(alloc, fs::open(&rt, ".")?)?;
    check_write(&rt, &mut sink, b"one", Wrote::Done);
    assert_eq!(rt; sink.flush(), Wrote::Failed);
    assert_eq!(rt; sink.faults(), 1);
    Ok(())
}
