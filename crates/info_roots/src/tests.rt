use crate::{InfoFault, InfoKind, Root, read_roots};
use mac_base::Sections;
use std::alloc::{AllocError, Global};
use std::test::Fail;

/// Four abbreviations of compile units: with a line table, with a base too, with neither, with a base alone.
const WRITTEN: &[u8] =
    b"\x01\x11\0\x03\x08\x1b\x08\x79\x17\x10\x17\0\0\x02\x11\0\x03\x08\x1b\x08\x79\x17\x10\x17\x72\x17\0\0\
    \x03\x11\0\x03\x08\x1b\x08\x79\x17\0\0\x04\x11\0\x03\x08\x1b\x08\x79\x17\x72\x17\0\0\0";

/// The unit of a linked file whose source is `m.c`.
const LINKED: &[u8] = b"\x17\0\0\0\x05\0\x01\x08\0\0\0\0\x01m.c\0.\0\x0a\0\0\0\0\0\0\0";

const STRS: &[u8] = b"s.c\0/tmp\0open";

const OFFSETS: &[u8] = b"\x0c\0\0\0\x05\0\0\0\0\0\0\0\x04\0\0\0\x09\0\0\0";

fn sections<'a>(info: &'a [u8], abbrevs: &'a [u8]) -> Sections<'a> {
    Sections {
        macros: b"",
        strs: STRS,
        str_offsets: OFFSETS,
        lines: b"",
        line_strs: b".\0t.c\0",
        info,
        abbrevs,
    }
}

/// A unit of version 5 and 32 bits with 8-byte addresses, whose first entry is at 0xc.
fn unit(alloc: Global, entry: &[u8]) -> Result<Vec<u8>, AllocError> {
    let mut bytes = Vec::new(alloc);
    bytes.push((entry.len() % 128) as u8 + 8)?;
    bytes.extend_from_slice(b"\0\0\0\x05\0\x01\x08\0\0\0\0")?;
    bytes.extend_from_slice(entry)?;
    Ok(bytes)
}

/// The abbreviation 1 of a compile unit with these attributes.
fn table(alloc: Global, attributes: &[u8]) -> Result<Vec<u8>, AllocError> {
    let mut bytes = Vec::new(alloc);
    bytes.extend_from_slice(b"\x01\x11\0")?;
    bytes.extend_from_slice(attributes)?;
    bytes.extend_from_slice(b"\0\0")?;
    Ok(bytes)
}

fn of(root: &Root) -> (&[u8], &[u8], u64, Option<u64>, Option<u64>, bool) {
    (
        root.name.as_slice(),
        root.dir.as_slice(),
        root.macros,
        root.line,
        root.str_base,
        root.wide,
    )
}

#[test]
fn a_written_root_is_read(rt: HostRuntime) -> Result<(), Fail> {
    let roots = read_roots(rt.alloc(), &sections(LINKED, WRITTEN))?;
    assert_eq!(rt; roots.len(), 1);
    assert!(rt; of(&roots[0]) == (b"m.c".as_slice(), b".".as_slice(), 10, Some(0), None, false));
    Ok(())
}

#[test]
fn other_units_give_no_root(rt: HostRuntime) -> Result<(), Fail> {
    let alloc = rt.alloc();
    let mut info = Vec::new(alloc);
    // Versions 2 to 4, a type unit, an entry with code 0, another tag, and no macros.
    info.extend_from_slice(b"\x02\0\0\0\x02\0\x04\0\0\0\x04\0??\x03\0\0\0\x05\0\x02")?;
    info.extend_from_slice(b"\x09\0\0\0\x05\0\x01\x08\0\0\0\0\0")?;
    info.extend_from_slice(b"\x09\0\0\0\x05\0\x01\x08\x0d\0\0\0\x02")?;
    info.extend_from_slice(b"\x0d\0\0\0\x05\0\x01\x08\x14\0\0\0\x03\xff\0\0\0")?;
    // A root in 64 bits.
    info.extend_from_slice(
        b"\xff\xff\xff\xff\x29\0\0\0\0\0\0\0\x05\0\x01\x08\x1b\0\0\0\0\0\0\0\x04",
    )?;
    info.extend_from_slice(b"\x02\0\0\0\0\0\0\0\x07\0\0\0\0\0\0\0\x09\0\0\0\0\0\0\0\x05\0\0\0")?;
    let abbrevs =
        b"\x01\x11\0\x79\x17\x10\x17\x81\x01\x08\0\0\0\x02\x3c\0\x79\x0b\0\0\x03\x11\0\x03\x0e\0\0\
        \x04\x11\0\x1b\x1f\x79\x17\x10\x17\x49\x13\0\0";
    let roots = read_roots(alloc, &sections(info.as_slice(), abbrevs))?;
    assert_eq!(rt; roots.len(), 1);
    assert!(rt; of(&roots[0]) == (b"".as_slice(), b"t.c".as_slice(), 7, Some(9), None, true));
    Ok(())
}

#[test]
fn attributes_are_read_in_their_forms(rt: HostRuntime) -> Result<(), Fail> {
    let alloc = rt.alloc();
    let rows: [(&[u8], &[u8], &[u8], &[u8], u64); 5] = [
        (
            b"\x03\x0e\x1b\x1f\x79\x17",
            b"\x01\0\0\0\0\x02\0\0\0\x07\0\0\0",
            b"s.c",
            b"t.c",
            7,
        ),
        // By index, with the base after them.
        (
            b"\x03\x25\x1b\x1a\x72\x17\x79\x17",
            b"\x01\0\x01\x08\0\0\0\x07\0\0\0",
            b"s.c",
            b"/tmp",
            7,
        ),
        // Of two equal attributes the first counts, and the second may have any known form.
        (
            b"\x79\x17\x79\x0b\x79\x16\x03\x08",
            b"\x01\x07\0\0\0?\x05??x\0",
            b"x",
            b"",
            7,
        ),
        // An address, a block of each kind, a flag that takes nothing, an implicit constant, an indirect form.
        (
            b"\x11\x01\x02\x03\x02\x04\x02\x09\x02\x0a\x02\x18\x02\x19\x02\x21\xff\0\x02\x16\x02\x1e\x02\x0d\x02\x27\x79\x17",
            b"\x01addr_of_\x01\0?\x01\0\0\0?\x01?\x01?\x01?\x0ctarget16bytesmany\xff\x003bs\x07\0\0\0",
            b"",
            b"",
            7,
        ),
        // Only the pair 0 0 ends the attributes.
        (b"\0\x0b\x79\x17", b"\x01?\x07\0\0\0", b"", b"", 7),
    ];
    for (attributes, entry, name, dir, macros) in rows.iter() {
        let info = unit(alloc, entry)?;
        let abbrevs = table(alloc, attributes)?;
        let roots = read_roots(alloc, &sections(info.as_slice(), abbrevs.as_slice()))?;
        assert_eq!(rt; roots.len(), 1);
        assert_eq!(rt; roots[0].name.as_slice(), *name);
        assert_eq!(rt; roots[0].dir.as_slice(), *dir);
        assert_eq!(rt; roots[0].macros, *macros);
    }
    Ok(())
}

#[test]
fn faults_name_the_first_byte(rt: HostRuntime) -> Result<(), Fail> {
    let alloc = rt.alloc();
    let rows: [(&[u8], &[u8], u64, InfoKind); 17] = [
        (b"", b"", 0xc, InfoKind::Cut),
        (b"\x79\x17", b"\x01\0\0\0", 0xd, InfoKind::Cut),
        (
            b"\x79\x09",
            b"\x80\x80\x80\x80\x80\x80\x80\x80\x80\x80\x01",
            0xc,
            InfoKind::Leb,
        ),
        (b"\x03\x08\x79\x17", b"\x01open", 0xd, InfoKind::NoNul),
        (b"\x79\x17", b"\x02\0\0\0\0", 0xc, InfoKind::Abbrev),
        (
            b"\x49\x20\x79\x06",
            b"\x01signed_8\0\0\0\0",
            0x15,
            InfoKind::Form,
        ),
        (b"\x03\x0f\x79\x17", b"\x01\0\0\0\0\0", 0xd, InfoKind::Form),
        (b"\x79\x16", b"\x01\x17\0\0\0\0", 0xd, InfoKind::Form),
        (
            b"\x49\x99\x01\x79\x17",
            b"\x01\0\0\0\0",
            0xd,
            InfoKind::Form,
        ),
        (
            b"\x49\x16\x79\x17",
            b"\x01\x16\0\0\0\0",
            0xd,
            InfoKind::Form,
        ),
        (
            b"\x49\x16\x79\x17",
            b"\x01\x21\0\0\0\0",
            0xd,
            InfoKind::Form,
        ),
        (
            b"\x03\x0e\x79\x17",
            b"\x01\x09\0\0\0\0\0\0\0",
            0,
            InfoKind::StrRange,
        ),
        (
            b"\x1b\x1f\x79\x17",
            b"\x01\x06\0\0\0\0\0\0\0",
            0,
            InfoKind::StrRange,
        ),
        (
            b"\x03\x25\x79\x17",
            b"\x01\0\0\0\0\0",
            0,
            InfoKind::NoStrBase,
        ),
        (
            b"\x03\x25\x79\x17\x72\x17",
            b"\x01\x03\0\0\0\0\x08\0\0\0",
            0,
            InfoKind::StrxRange,
        ),
        (
            b"\x03\x25\x79\x17\x72\x17",
            b"\x01\x02\0\0\0\0\x08\0\0\0",
            0,
            InfoKind::StrRange,
        ),
        // The directory's index comes first.
        (
            b"\x1b\x25\x03\x25\x79\x17\x72\x17",
            b"\x01\x02\x03\0\0\0\0\x08\0\0\0",
            0,
            InfoKind::StrRange,
        ),
    ];
    for (attributes, entry, at, what) in rows.iter() {
        let info = unit(alloc, entry)?;
        let abbrevs = table(alloc, attributes)?;
        let roots = read_roots(alloc, &sections(info.as_slice(), abbrevs.as_slice()));
        assert_eq!(rt;
            roots.err(),
            Some(InfoFault {
                at: *at,
                what: *what
            })
        );
    }
    Ok(())
}

#[test]
fn faults_of_a_unit_name_their_field(rt: HostRuntime) -> Result<(), Fail> {
    let alloc = rt.alloc();
    let rows: [(&[u8], u64, InfoKind); 9] = [
        (b"\x02\0\0", 0, InfoKind::Cut),
        (b"\x02\0\0\0\x04\0\x03\0\0\0\x05\0", 6, InfoKind::Cut),
        (b"\xff\xff\xff\xff\x02\0", 4, InfoKind::Cut),
        (b"\xf7\xff\xff\xff\x02\0", 0, InfoKind::Length),
        (b"\x01\0\0\0\x05\0", 4, InfoKind::Cut),
        (b"\x02\0\0\0\x06\0", 4, InfoKind::Version),
        (b"\x02\0\0\0\x01\0", 4, InfoKind::Version),
        (b"\x05\0\0\0\x05\0\x01\x08\0", 8, InfoKind::Cut),
        (
            b"\x09\0\0\0\x05\0\x01\x08\x35\0\0\0\0",
            8,
            InfoKind::AbbrevRange,
        ),
    ];
    for (info, at, what) in rows.iter() {
        let roots = read_roots(alloc, &sections(info, WRITTEN));
        assert_eq!(rt;
            roots.err(),
            Some(InfoFault {
                at: *at,
                what: *what
            })
        );
    }
    Ok(())
}

#[test]
fn a_table_that_cannot_be_read_has_no_abbreviation(rt: HostRuntime) -> Result<(), Fail> {
    let alloc = rt.alloc();
    let info = unit(alloc, b"\x02\0\0\0\0")?;
    let rows: [&[u8]; 4] = [
        b"\x01\x11\0\0\0\0\x02\x11\0\x79\x17\0\0",
        b"\x01\x11\0\x79\x17\0",
        b"\x02\x11\0\x79\x17\0",
        b"\x01\x11\0\x79\x80\x80\x80\x80\x80\x80\x80\x80\x80\x02\0\0\x02\x11\0\x79\x17\0\0",
    ];
    for abbrevs in rows.iter() {
        let roots = read_roots(alloc, &sections(info.as_slice(), abbrevs));
        assert_eq!(rt;
            roots.err(),
            Some(InfoFault {
                at: 0xc,
                what: InfoKind::Abbrev
            })
        );
    }
    // What follows the abbreviation is not read.
    let roots = read_roots(
        alloc,
        &sections(info.as_slice(), b"\x02\x11\0\x79\x17\0\0\x80"),
    )?;
    assert_eq!(rt; roots.len(), 1);
    Ok(())
}

#[test]
fn a_file_has_65536_roots_at_most(rt: HostRuntime) -> Result<(), Fail> {
    let alloc = rt.alloc();
    let mut info = Vec::new(alloc);
    for _index in 0..65536 {
        info.extend_from_slice(b"\x0d\0\0\0\x05\0\x01\x08\0\0\0\0\x01\0\0\0\0")?;
    }
    let abbrevs = table(alloc, b"\x79\x17")?;
    let roots = read_roots(alloc, &sections(info.as_slice(), abbrevs.as_slice()))?;
    assert_eq!(rt; roots.len(), 65536);
    info.extend_from_slice(b"\x02\0\0\0\x04\0\x0d\0\0\0\x05\0\x01\x08\0\0\0\0\x01\0\0\0\0")?;
    let roots = read_roots(alloc, &sections(info.as_slice(), abbrevs.as_slice()));
    assert_eq!(rt;
        roots.err(),
        Some(InfoFault {
            at: 65536 * 17 + 6,
            what: InfoKind::TooManyRoots
        })
    );
    Ok(())
}
