use crate::{LineFault, LineKind, read_files};
use mac_base::Sections;
use std::alloc::{AllocError, Global};
use std::test::Fail;

/// The line table of a linked file with one directory and the files `m.c` and `m.h`.
const LINKED: &[u8] =
    b"\x30\0\0\0\x05\0\x08\0\x28\0\0\0\x01\x01\x01\xfb\x0e\x0d\0\x01\x01\x01\x01\0\0\0\x01\0\0\x01\
    \x01\x01\x08\x01.\0\x02\x01\x08\x02\x0f\x02m.c\0\0m.h\0\0";

const STRS: &[u8] = b"A 1\0s.c\0open";

const LINE_STRS: &[u8] = b".\0inc\0";

fn sections(lines: &[u8]) -> Sections<'_> {
    Sections {
        macros: b"",
        strs: STRS,
        str_offsets: b"",
        lines,
        line_strs: LINE_STRS,
        info: b"",
        abbrevs: b"",
    }
}

/// A table of 32 bits without standard opcodes: `entries` begin at 0x12.
fn table(alloc: Global, entries: &[u8]) -> Result<Vec<u8>, AllocError> {
    let mut bytes = Vec::new(alloc);
    bytes.push((entries.len() % 128) as u8 + 14)?;
    bytes.extend_from_slice(b"\0\0\0\x05\0\x08\0\0\0\0\0\x01\x01\x01\xfb\x0e\x01")?;
    bytes.extend_from_slice(entries)?;
    Ok(bytes)
}

/// The paths, each with a line feed.
fn printed(alloc: Global, lines: &[u8], off: u64) -> Result<Vec<u8>, Fail> {
    let mut text = Vec::new(alloc);
    let paths = read_files(alloc, &sections(lines), off)?;
    for path in paths.as_slice() {
        text.extend_from_slice(path.as_slice())?;
        text.push(b'\n')?;
    }
    Ok(text)
}

#[test]
fn paths_are_names_in_their_directories(rt: HostRuntime) -> Result<(), Fail> {
    let alloc = rt.alloc();
    assert_eq!(rt;
        printed(alloc, LINKED, 0)?.as_slice(),
        b"m.c\nm.h\n".as_slice()
    );
    let rows: [(&[u8], &[u8]); 7] = [
        (
            b"\x01\x01\x08\x02.\0inc\0\x02\x01\x08\x02\x0b\x04a.c\0\0b.h\0\x01/c.h\0\x01\0\x01",
            b"a.c\ninc/b.h\n/c.h\ninc/\n",
        ),
        // Offsets into the two sections of strings, and the contents that compilers add.
        (
            b"\x01\x01\x1f\x02\0\0\0\0\x02\0\0\0\x03\x01\x0e\x02\x0f\x05\x1e\x01\x04\0\0\0\x01sixteen bytes...",
            b"inc/s.c\n",
        ),
        // The directory's index comes before the path, in two bytes.
        (
            b"\x01\x01\x08\x02a\0b\0\x02\x02\x05\x01\x08\x01\x01\0x\0",
            b"b/x\n",
        ),
        // Of two equal types the first counts, and other types are passed over, a block too.
        (
            b"\x02\x01\x08\x01\x08\x01a\0b\0\x04\x01\x08\x01\x08\x81\x40\x09\x03\x07\x01x\0y\0\x02??12345678",
            b"x\n",
        ),
        // No entry needs no path.
        (b"\0\0\0\0", b""),
        // Index 0 is good without directories.
        (b"\0\0\x02\x01\x08\x02\x0b\x01x\0\0", b"x\n"),
        // The line program is not read.
        (b"\0\0\x01\x01\x08\x01x\0\xff\xff", b"x\n"),
    ];
    for (entries, text) in rows.iter() {
        let lines = table(alloc, entries)?;
        assert_eq!(rt; printed(alloc, lines.as_slice(), 0)?.as_slice(), *text);
    }
    Ok(())
}

#[test]
fn wide_tables_have_offsets_of_eight_bytes(rt: HostRuntime) -> Result<(), Fail> {
    let alloc = rt.alloc();
    let lines =
        b"\0\xff\xff\xff\xff\x20\0\0\0\0\0\0\0\x05\0\x08\0\0\0\0\0\0\0\0\0\x01\x01\x01\xfb\x0e\x01\
        \0\0\x01\x01\x0e\x01\x04\0\0\0\0\0\0\0";
    assert_eq!(rt; printed(alloc, lines, 1)?.as_slice(), b"s.c\n".as_slice());
    Ok(())
}

#[test]
fn faults_name_the_first_field(rt: HostRuntime) -> Result<(), Fail> {
    let alloc = rt.alloc();
    let rows: [(&[u8], u64, LineKind); 16] = [
        (b"\0", 0x13, LineKind::Cut),
        (b"\0\x80\x80", 0x13, LineKind::Cut),
        (b"\0\0\x01\x01\x08\x02x\0", 0x1a, LineKind::NoNul),
        (
            b"\0\x80\x80\x80\x80\x80\x80\x80\x80\x80\x02",
            0x13,
            LineKind::Leb,
        ),
        (b"\x01\x01\x08\x01open", 0x16, LineKind::NoNul),
        (b"\x01\x02\x0b\x01", 0x15, LineKind::NoPath),
        (b"\0\0\0\x01", 0x15, LineKind::NoPath),
        (b"\x01\x01\x0b\0", 0x14, LineKind::Form),
        (b"\x01\x01\x17\0", 0x14, LineKind::Form),
        (b"\x01\x02\x06\0", 0x14, LineKind::Form),
        (b"\x01\x81\x40\x99\x01\0", 0x15, LineKind::Form),
        (b"\x01\x01\x0e\x01\x08\0\0\0", 0x16, LineKind::StrRange),
        (b"\x01\x01\x1f\x01\x06\0\0\0", 0x16, LineKind::StrRange),
        (
            b"\x01\x01\x08\x01.\0\x02\x01\x08\x02\x0b\x01/x\0\x01",
            0x21,
            LineKind::DirIndex,
        ),
        (
            b"\0\0\x02\x01\x08\x02\x0b\x01x\0\x01",
            0x1c,
            LineKind::DirIndex,
        ),
        // A block's bytes are a field of their own.
        (
            b"\x02\x01\x08\x81\x40\x09\x01a\0\x03??",
            0x1c,
            LineKind::Cut,
        ),
    ];
    for (entries, at, what) in rows.iter() {
        let lines = table(alloc, entries)?;
        let fault = read_files(alloc, &sections(lines.as_slice()), 0).err();
        assert_eq!(rt;
            fault,
            Some(LineFault {
                at: *at,
                what: *what
            })
        );
    }
    Ok(())
}

#[test]
fn faults_of_the_header_name_their_field(rt: HostRuntime) -> Result<(), Fail> {
    let alloc = rt.alloc();
    let rows: [(&[u8], u64, u64, LineKind); 11] = [
        (b"", 0, 0, LineKind::Cut),
        (LINKED, 52, 52, LineKind::Cut),
        (LINKED, u64::MAX, u64::MAX, LineKind::Cut),
        (b"?\x05\0\0", 1, 1, LineKind::Cut),
        (b"?\x05\0\0\0\x04\0\0\0", 1, 1, LineKind::Cut),
        (b"\xff\xff\xff\xff\x05\0", 0, 4, LineKind::Cut),
        (
            b"\xff\xff\xff\xff\x05\0\0\0\0\0\0\0\x05\0",
            0,
            0,
            LineKind::Cut,
        ),
        (b"\xf0\xff\xff\xff", 0, 0, LineKind::Length),
        (b"\x02\0\0\0\x04\0", 0, 4, LineKind::Version),
        (
            b"\x0e\0\0\0\x05\0\x08\0\0\0\0\0\x01\x01\x01\xfb\x0e\0",
            0,
            0x11,
            LineKind::OpcodeBase,
        ),
        (
            b"\x10\0\0\0\x05\0\x08\0\0\0\0\0\x01\x01\x01\xfb\x0e\x05\0\x01",
            0,
            0x14,
            LineKind::Cut,
        ),
    ];
    for (lines, off, at, what) in rows.iter() {
        let fault = read_files(alloc, &sections(lines), *off).err();
        assert_eq!(rt;
            fault,
            Some(LineFault {
                at: *at,
                what: *what
            })
        );
    }
    Ok(())
}
