use crate::{DirShelf, DirStore, Fetched, HeaderStore, Put, Shelf};
use mac_base::Bytes;
use std::alloc::Global;
use std::fs;
use std::fs::Permissions;
use std::io::{Read, Write};
use std::os::unix::fs::{MetadataExt, PermissionsExt, symlink};
use std::process::Abort;
use std::rt::Files;
use std::test::Fail;

/// Makes a file.
fn make(rt: &impl Files, path: &str, bytes: &[u8]) -> Result<(), Fail> {
    fs::create(rt, path)?.write_all(bytes)?;
    Ok(())
}

/// A file has these bytes.
fn check_file<R: Files + Abort>(
    rt: &R,
    alloc: Global,
    path: &str,
    bytes: &[u8],
) -> Result<(), Fail> {
    let mut text = Vec::new(alloc);
    fs::open(rt, path)?.read_to_end(&mut text)?;
    assert_eq!(rt; text.as_slice(), bytes);
    Ok(())
}

/// There is nothing at a path.
fn check_none<R: Files + Abort>(rt: &R, path: &str) {
    assert!(rt; rt.symlink_metadata(path).is_err());
}

/// A shelf answers so, and appends so many bytes.
fn check_get(
    rt: &impl Abort,
    alloc: Global,
    shelf: &mut impl Shelf,
    name: &[u8],
    limit: usize,
    answer: Fetched,
    length: usize,
) {
    let mut into = Vec::new(alloc);
    assert_eq!(rt; shelf.get(name, limit, &mut into), answer);
    assert_eq!(rt; into.len(), length);
}

#[test]
fn a_file_is_read_whole_up_to_the_limit(rt: HostRuntime) -> Result<(), Fail> {
    let alloc = rt.alloc();
    let bytes = vec![in alloc; b'x'; 4097]?;
    make(&rt, "long", bytes.as_slice())?;
    make(&rt, "none", b"")?;
    let mut shelf = DirShelf::new(alloc, rt);
    check_get(
        &rt,
        alloc,
        &mut shelf,
        b"long",
        1_000_000,
        Fetched::Found,
        4097,
    );
    check_get(&rt, alloc, &mut shelf, b"long", 4097, Fetched::Found, 4097);
    check_get(&rt, alloc, &mut shelf, b"long", 4096, Fetched::TooLong, 0);
    check_get(&rt, alloc, &mut shelf, b"none", 0, Fetched::Found, 0);
    check_get(
        &rt,
        alloc,
        &mut shelf,
        b"/dev/zero",
        4096,
        Fetched::TooLong,
        0,
    );
    check_get(&rt, alloc, &mut shelf, b"/dev/null", 0, Fetched::Found, 0);
    Ok(())
}

/// What a shelf and a store over the working folder answer for a name.
fn check_both<R: Files + Abort>(
    rt: &R,
    alloc: Global,
    name: &[u8],
    of_shelf: Fetched,
    of_store: Fetched,
) -> Result<(), Fail> {
    let mut into = Vec::new(alloc);
    let mut shelf = DirShelf::new(alloc, rt);
    let mut store = DirStore::new(alloc, rt, Bytes::new(alloc));
    assert_eq!(rt; shelf.get(name, 1, &mut into), of_shelf);
    assert_eq!(rt; store.fetch(name, 1, &mut into), of_store);
    assert_eq!(rt; shelf.faults() == 1, of_shelf == Fetched::Failed);
    assert_eq!(rt; store.faults() == 1, of_store == Fetched::Failed);
    Ok(())
}

#[test]
fn what_is_no_file_is_absent_for_a_header_alone(rt: HostRuntime) -> Result<(), Fail> {
    fs::create_dir(&rt, "folder")?;
    make(&rt, "file", b"")?;
    check_both(
        &rt,
        rt.alloc(),
        b"missing",
        Fetched::Absent,
        Fetched::Absent,
    )?;
    check_both(
        &rt,
        rt.alloc(),
        b"missing/file",
        Fetched::Absent,
        Fetched::Absent,
    )?;
    check_both(&rt, rt.alloc(), b"folder", Fetched::Failed, Fetched::Absent)?;
    check_both(
        &rt,
        rt.alloc(),
        b"file/file",
        Fetched::Failed,
        Fetched::Absent,
    )?;
    Ok(())
}

#[test]
fn a_file_that_may_not_be_read_is_a_fault(rt: HostRuntime) -> Result<(), Fail> {
    make(&rt, "closed", b"")?;
    fs::set_permissions(&rt, "closed", Permissions::from_mode(0))?;
    if fs::open(&rt, "closed").is_err() {
        check_both(&rt, rt.alloc(), b"closed", Fetched::Failed, Fetched::Failed)?;
    }
    if symlink(&rt, "loop", "loop").is_err() {
        return Ok(());
    }
    check_both(&rt, rt.alloc(), b"loop", Fetched::Failed, Fetched::Failed)
}

#[test]
fn a_regular_file_is_replaced_whole(rt: HostRuntime) -> Result<(), Fail> {
    let alloc = rt.alloc();
    fs::create_dir(&rt, "d")?;
    make(&rt, "d/a", b"old")?;
    fs::hard_link(&rt, "d/a", "kept")?;
    fs::set_permissions(&rt, "d/a", Permissions::from_mode(0o640))?;
    make(&rt, "d/.dwmac-0.tmp", b"left behind")?;
    let mut shelf = DirShelf::new(alloc, rt);
    assert_eq!(rt; shelf.put(b"d/a", b"new"), Put::Done);
    check_file(&rt, alloc, "d/a", b"new")?;
    check_file(&rt, alloc, "kept", b"old")?;
    check_file(&rt, alloc, "d/.dwmac-0.tmp", b"left behind")?;
    check_none(&rt, "d/.dwmac-1.tmp");
    assert_eq!(rt; fs::metadata(&rt, "d/a")?.mode() & 0o777, 0o640);
    assert_eq!(rt; shelf.put(b"d/b", b"fresh"), Put::Done);
    check_file(&rt, alloc, "d/b", b"fresh")?;
    assert_eq!(rt; shelf.faults(), 0);
    Ok(())
}

#[test]
fn a_symbolic_link_is_followed(rt: HostRuntime) -> Result<(), Fail> {
    let alloc = rt.alloc();
    fs::create_dir(&rt, "e")?;
    make(&rt, "e/a", b"old")?;
    if symlink(&rt, "e/a", "link").is_err() || symlink(&rt, "e/b", "dangling").is_err() {
        return Ok(());
    }
    let mut shelf = DirShelf::new(alloc, rt);
    assert_eq!(rt; shelf.put(b"link", b"new"), Put::Done);
    assert_eq!(rt; shelf.put(b"dangling", b"fresh"), Put::Done);
    assert!(rt; fs::symlink_metadata(&rt, "link")?.is_symlink());
    assert!(rt; fs::symlink_metadata(&rt, "dangling")?.is_symlink());
    check_file(&rt, alloc, "e/a", b"new")?;
    check_file(&rt, alloc, "e/b", b"fresh")?;
    check_none(&rt, "e/.dwmac-0.tmp");
    Ok(())
}

#[test]
fn what_is_no_regular_file_is_written_in_place(rt: HostRuntime) -> Result<(), Fail> {
    let alloc = rt.alloc();
    let mut shelf = DirShelf::new(alloc, rt);
    assert_eq!(rt; shelf.put(b"/dev/null", b"new"), Put::Done);
    assert!(rt; !fs::metadata(&rt, "/dev/null")?.is_file());
    assert_eq!(rt; shelf.put(b"/dev/full", b"new"), Put::Failed);
    assert_eq!(rt; shelf.put(b".", b"new"), Put::Failed);
    assert_eq!(rt; shelf.faults(), 2);
    Ok(())
}

#[test]
fn a_put_that_fails_leaves_no_file(rt: HostRuntime) -> Result<(), Fail> {
    let alloc = rt.alloc();
    let mut shelf = DirShelf::new(alloc, rt);
    assert_eq!(rt; shelf.put(b"", b"new"), Put::Failed);
    assert_eq!(rt; shelf.put(b"missing/a", b"new"), Put::Failed);
    check_none(&rt, ".dwmac-0.tmp");
    assert_eq!(rt; shelf.faults(), 2);
    Ok(())
}
