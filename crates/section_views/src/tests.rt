use crate::{Elf, ElfFault};
use std::alloc::{AllocError, Global};
use std::process::Abort;
use std::test::Fail;

/// A section of a file that is to be laid out.
#[derive(Clone, Copy)]
struct Part<'a> {
    name: &'a [u8],
    kind: u32,
    bytes: &'a [u8],
}

/// One entry of the table of sections.
#[derive(Clone, Copy)]
struct Slot {
    name: u32,
    kind: u32,
    offset: u64,
    size: u64,
}

fn put_slot(table: &mut Vec<u8>, slot: &Slot) -> Result<(), AllocError> {
    table.extend_from_slice(&slot.name.to_le_bytes())?;
    table.extend_from_slice(&slot.kind.to_le_bytes())?;
    table.extend_from_slice(&[0; 16])?;
    table.extend_from_slice(&slot.offset.to_le_bytes())?;
    table.extend_from_slice(&slot.size.to_le_bytes())?;
    table.extend_from_slice(&[0; 8])?;
    table.extend_from_slice(&1u64.to_le_bytes())?;
    table.extend_from_slice(&[0; 8])
}

/// The ELF header of an executable file with its table of sections at a place; the last section holds the names.
fn header_of(alloc: Global, table: u64, count: u16) -> Result<Vec<u8>, AllocError> {
    let mut header = Vec::from_slice(alloc, b"\x7fELF\x02\x01\x01\0\0\0\0\0\0\0\0\0")?;
    header.extend_from_slice(&[2, 0, 62, 0, 1, 0, 0, 0])?;
    header.extend_from_slice(&[0; 16])?;
    header.extend_from_slice(&table.to_le_bytes())?;
    header.extend_from_slice(&[0, 0, 0, 0, 64, 0, 0, 0, 0, 0, 64, 0])?;
    header.extend_from_slice(&count.to_le_bytes())?;
    header.extend_from_slice(&count.saturating_sub(1).to_le_bytes())?;
    Ok(header)
}

/// The header, the contents one after another, zeros up to a multiple of 8, and the table of sections.
fn file_of(alloc: Global, parts: &[Part<'_>]) -> Result<Vec<u8>, Fail> {
    let mut contents = Vec::new(alloc);
    let mut names = Vec::from_slice(alloc, &[0])?;
    let mut table = Vec::from_slice(alloc, &[0; 64])?;
    for part in parts {
        let slot = Slot {
            name: u32::try_from(names.len())?,
            kind: part.kind,
            offset: 64u64.saturating_add(contents.len() as u64),
            size: part.bytes.len() as u64,
        };
        put_slot(&mut table, &slot)?;
        names.extend_from_slice(part.name)?;
        names.push(0)?;
        contents.extend_from_slice(part.bytes)?;
    }
    let slot = Slot {
        name: u32::try_from(names.len())?,
        kind: 3,
        offset: 64u64.saturating_add(contents.len() as u64),
        size: (names.len() as u64).saturating_add(10),
    };
    put_slot(&mut table, &slot)?;
    names.extend_from_slice(b".shstrtab\0")?;
    contents.extend_from_slice(names.as_slice())?;
    for _ in 0..(8 - contents.len() % 8) % 8 {
        contents.push(0)?;
    }
    let count = u16::try_from(table.len() / 64)?;
    let mut file = header_of(alloc, 64u64.saturating_add(contents.len() as u64), count)?;
    file.extend_from_slice(contents.as_slice())?;
    file.extend_from_slice(table.as_slice())?;
    Ok(file)
}

const UNIT: [u8; 10] = [5, 0, 0, 5, 7, 4, 0, 0, 0, 0];

const STRINGS: [u8; 8] = *b"A 1\0B 2\0";

/// A linked file: a unit with one entry, the strings that it names, and empty sections.
fn linked(alloc: Global) -> Result<Vec<u8>, Fail> {
    let part = |name, bytes| Part {
        name,
        kind: 1,
        bytes,
    };
    file_of(
        alloc,
        &[
            part(b".debug_macro".as_slice(), UNIT.as_slice()),
            part(b".debug_str", &STRINGS),
            part(b".debug_str_offsets", &[]),
            part(b".debug_line", &[]),
            part(b".debug_info", &[]),
            part(b".debug_abbrev", &[]),
        ],
    )
}

/// Where the table of sections of that file begins, and where entries of it are.
const TABLE: usize = 176;

const MACRO: usize = TABLE + 64;

const STR: usize = TABLE + 64 * 2;

const STR_OFFSETS: usize = TABLE + 64 * 3;

const LINE: usize = TABLE + 64 * 4;

const INFO: usize = TABLE + 64 * 5;

const ABBREV: usize = TABLE + 64 * 6;

/// Where the last byte of the names is.
const LAST_NUL: usize = 173;

/// Where fields are in an entry of the table.
const TYPE: usize = 4;

const FLAGS: usize = 8;

const OFFSET: usize = 24;

const SIZE: usize = 32;

/// Two bytes of that file that are written over, and what is wrong with it then.
#[derive(Clone, Copy)]
struct Row {
    first: (usize, u8),
    second: (usize, u8),
    fault: Option<ElfFault>,
}

const fn faulty(first: (usize, u8), second: (usize, u8), fault: Option<ElfFault>) -> Row {
    Row {
        first,
        second,
        fault,
    }
}

/// The first byte of each file, which is no change.
const SAME: (usize, u8) = (0, 0x7f);

fn patched(alloc: Global, file: &[u8], row: &Row) -> Result<Vec<u8>, AllocError> {
    let mut copy = Vec::from_slice(alloc, file)?;
    for (at, byte) in [row.first, row.second] {
        if let Some(place) = copy.get_mut(at) {
            *place = byte;
        }
    }
    Ok(copy)
}

fn holds(rt: &impl Abort, alloc: Global, file: &[u8], row: &Row) -> Result<(), Fail> {
    let copy = patched(alloc, file, row)?;
    assert_eq!(rt; Elf::read(copy.as_slice()).err(), row.fault);
    Ok(())
}

#[test]
fn a_linked_file_gives_its_sections(rt: HostRuntime) -> Result<(), Fail> {
    let file = linked(rt.alloc())?;
    assert_eq!(rt; file.len(), 688);
    let elf = Elf::read(file.as_slice())?;
    let sections = elf.sections();
    assert_eq!(rt; sections.macros, UNIT.as_slice());
    assert_eq!(rt; sections.strs, STRINGS.as_slice());
    assert_eq!(rt; sections.line_strs.len(), 0);
    assert_eq!(rt; elf.number(b".debug_abbrev"), Some(6));
    assert_eq!(rt; elf.number(b".shstrtab"), None);
    assert!(rt; elf.section(b".debug_info").is_some());
    assert!(rt; elf.section(b".debug_line_str").is_none());
    Ok(())
}

#[test]
fn the_first_fault_is_named(rt: HostRuntime) -> Result<(), Fail> {
    let alloc = rt.alloc();
    let file = linked(alloc)?;
    let rows = [
        faulty((3, b'G'), (4, 1), Some(ElfFault::NotElf)),
        faulty((4, 1), (5, 2), Some(ElfFault::Class)),
        faulty((5, 2), (16, 1), Some(ElfFault::Order)),
        faulty((16, 1), (60, 0), Some(ElfFault::Kind)),
        faulty((16, 4), SAME, Some(ElfFault::Kind)),
        faulty((16, 3), SAME, None),
        faulty((60, 0), (58, 63), Some(ElfFault::Extended)),
        faulty((62, 0xff), (63, 0xff), Some(ElfFault::Extended)),
        faulty((58, 63), (60, 9), Some(ElfFault::Table { at: 58 })),
        faulty((60, 9), SAME, Some(ElfFault::Table { at: 176 })),
        faulty((41, 0xff), SAME, Some(ElfFault::Table { at: 0xffb0 })),
        // Without a table of sections there are none, and nothing else is tested.
        faulty((40, 0), (62, 9), None),
        // Contents that aren't inside the file, also where there are none and where place and size exceed 64 bits.
        faulty(
            (INFO + OFFSET + 1, 3),
            (62, 0),
            Some(ElfFault::Range { n: 5 }),
        ),
        faulty((STR + SIZE + 7, 0xff), SAME, Some(ElfFault::Range { n: 2 })),
        faulty(
            (STR + OFFSET + 7, 0xff),
            (STR + SIZE + 7, 1),
            Some(ElfFault::Range { n: 2 }),
        ),
        faulty((STR + OFFSET + 7, 0xff), (STR + TYPE, 8), None),
        faulty((STR + OFFSET + 7, 0xff), (STR + TYPE, 0), None),
        // The section of names, and names without a NUL.
        faulty((62, 0), SAME, Some(ElfFault::Name { n: 0 })),
        faulty((62, 8), SAME, Some(ElfFault::Name { n: 8 })),
        faulty((62, 1), (STR + 1, 1), Some(ElfFault::Name { n: 1 })),
        faulty(
            (STR + 1, 1),
            (LINE + FLAGS + 1, 8),
            Some(ElfFault::Name { n: 2 }),
        ),
        faulty((LAST_NUL, b'x'), SAME, Some(ElfFault::Name { n: 7 })),
        // A compressed section, in a group too.
        faulty(
            (LINE + FLAGS + 1, 8),
            (MACRO, 14),
            Some(ElfFault::Compressed { n: 4 }),
        ),
        faulty(
            (LINE + FLAGS + 1, 10),
            SAME,
            Some(ElfFault::Compressed { n: 4 }),
        ),
        faulty((LINE + FLAGS + 1, 8), (LINE + TYPE, 8), None),
        // Two sections of one name, where neither belongs to a group and both have contents.
        faulty((ABBREV, 14), SAME, Some(ElfFault::Twice { n: 6 })),
        faulty((ABBREV, 14), (ABBREV + FLAGS + 1, 2), None),
        faulty((STR_OFFSETS, 14), (STR + TYPE, 8), None),
    ];
    for row in &rows {
        holds(&rt, alloc, file.as_slice(), row)?;
    }
    Ok(())
}

#[test]
fn a_file_that_is_cut_is_rejected(rt: HostRuntime) -> Result<(), Fail> {
    let file = linked(rt.alloc())?;
    for n in 0..688 {
        let cut = file.as_slice().get(..n).ok_or("short")?;
        let fault = if n < 64 {
            ElfFault::NotElf
        } else {
            ElfFault::Table { at: 176 }
        };
        assert_eq!(rt; Elf::read(cut).err(), Some(fault));
    }
    Ok(())
}
