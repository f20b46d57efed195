ghost use Rattle.std.specs.Prelude.{◌≡◌, ◌<◌};

use crate::entry_tests::printed;
use crate::{FileFault, Graph};
use info_roots::Root;
use mac_base::{Bytes, Sections, Steps};
use std::alloc::Global;
use std::marker::Brand;
use std::sync::ledger::{Blank, Ledger};
use std::test::Fail;
use unit_header::{UnitFault, UnitKind};

/// The line table of a linked file with one directory and the files `m.c` and `m.h`.
const LINES: &[u8] =
    b"\x30\0\0\0\x05\0\x08\0\x28\0\0\0\x01\x01\x01\xfb\x0e\x0d\0\x01\x01\x01\x01\0\0\0\x01\0\0\x01\
    \x01\x01\x08\x01.\0\x02\x01\x08\x02\x0f\x02m.c\0\0m.h\0\0";

fn sections(macros: &[u8]) -> Sections<'_> {
    Sections {
        macros,
        strs: b"B 2\0open",
        str_offsets: b"\x08\0\0\0\x05\0\0\0\0\0\0\0\x04\0\0\0",
        lines: LINES,
        line_strs: b"",
        info: b"",
        abbrevs: b"",
    }
}

/// A root whose unit stands at an offset, with or without a line table and a base of string offsets.
fn root(alloc: Global, macros: u64, line: Option<u64>, str_base: Option<u64>) -> Root {
    Root {
        name: Bytes::new(alloc),
        dir: Bytes::new(alloc),
        macros,
        line,
        str_base,
        wide: false,
    }
}

fn read_with<'a, L: Ledger>(
    alloc: Global,
    s: &Sections<'a>,
    root: &Root,
    blank: Blank,
) -> Result<Graph<'a>, FileFault>
    requires name { blank.name ≡ L.name }
    requires parts { blank.parts ≡ L.parts }
    requires some { 0 < L.parts }
{
    let mut steps = Steps::<L>::new(blank);
    Graph::read(alloc, s, root, &mut steps)
}

fn read<'a>(alloc: Global, s: &Sections<'a>, root: &Root) -> Result<Graph<'a>, FileFault> {
    read_with::<Brand>(alloc, s, root, Blank::new(1))
}

#[test]
fn imports_stand_in_their_places(rt: HostRuntime) -> Result<(), Fail> {
    let alloc = rt.alloc();
    let macros =
        b"\x05\0\0\x01\x01A 1\0\0\x05\0\x02\0\0\0\0\x03\0\0\x03\x02\x01\x07\0\0\0\0\x04\x02\x03A\0\x05\x01\0\0\0\0\x0b\x01\0\x07\0\0\0\0\x04\0";
    let graph = read(alloc, &sections(macros), &root(alloc, 10, Some(0), Some(8)))?;
    assert_eq!(rt;
        printed(alloc, &graph)?.as_slice(),
        b"start m.c\nstart m.h\ndefine A 1\nend\nundef A\ndefine B 2\ndefine B 2\ndefine A 1\nend\n".as_slice()
    );
    assert_eq!(rt; graph.count(), 9);
    assert_eq!(rt; graph.paths(), 2);
    Ok(())
}

#[test]
fn the_first_fault_of_the_walk_is_answered(rt: HostRuntime) -> Result<(), Fail> {
    let alloc = rt.alloc();
    let rows: [(&[u8], u64, UnitKind); 12] = [
        (b"\x05\0\0\x07\0\0\0\0\0", 3, UnitKind::ImportCycle),
        (b"\x05\0\0\x04\0", 3, UnitKind::EndWithoutStart),
        (b"\x05\0\0\x03\0\0\x04\0", 3, UnitKind::NoLineTable),
        (b"\x05\0\0\x0b\x01\0\0", 3, UnitKind::NoStrBase),
        (b"\x05\0\0\x07\xff\0\0\0\0", 3, UnitKind::ImportRange),
        (
            b"\x05\0\x02\0\0\0\0\x03\0\0\0",
            10,
            UnitKind::StartWithoutEnd,
        ),
        (
            b"\x05\0\x02\0\0\0\0\x03\0\x02\x04\0",
            7,
            UnitKind::FileIndex,
        ),
        (b"\x05\0\x02\xff\0\0\0\0", 3, UnitKind::LineRange),
        (b"\x05\0\0\x05\x01\x04\0\0\0\0", 3, UnitKind::StrRange),
        (b"\x05\0\0\x0a\0\0\0\0\0", 3, UnitKind::Supplementary),
        (
            b"\x05\0\0\x07\x09\0\0\0\x04\x05\0\0\x07\0\0\0\0\0",
            12,
            UnitKind::ImportCycle,
        ),
        (
            b"\x05\0\0\x07\x0e\0\0\0\x07\x0e\0\0\0\0\x05\0\0\x04\0",
            17,
            UnitKind::EndWithoutStart,
        ),
    ];
    for (macros, at, what) in rows {
        let found = read(alloc, &sections(macros), &root(alloc, 0, None, None)).err();
        assert_eq!(rt; found, Some(FileFault::Unit(UnitFault { at, what })));
    }
    let outside = read(alloc, &sections(b"\x05\0\0\0"), &root(alloc, 4, None, None)).err();
    let fault = UnitFault {
        at: 4,
        what: UnitKind::ImportRange,
    };
    assert_eq!(rt; outside, Some(FileFault::Unit(fault)));
    Ok(())
}

/// So many units of 14 bytes, each of which imports the next one twice, and one behind them.
fn doubled(alloc: Global, count: u32, last: &[u8]) -> Result<Vec<u8>, Fail> {
    let mut macros = Vec::new(alloc);
    for index in 0..count {
        let next = (index.saturating_add(1).saturating_mul(14)).to_le_bytes();
        macros.extend_from_slice(b"\x05\0\0\x07")?;
        macros.extend_from_slice(&next)?;
        macros.push(7)?;
        macros.extend_from_slice(&next)?;
        macros.push(0)?;
    }
    macros.extend_from_slice(last)?;
    Ok(macros)
}

#[test]
fn units_that_are_imported_twice_are_read_once(rt: HostRuntime) -> Result<(), Fail> {
    let alloc = rt.alloc();
    let main = root(alloc, 0, None, None);
    let define = b"\x05\0\0\x01\x01A 1\0\0";
    let many = doubled(alloc, 39, define)?;
    let fault = UnitFault {
        at: 0,
        what: UnitKind::TooManyEntries,
    };
    assert_eq!(rt;
        read(alloc, &sections(many.as_slice()), &main).err(),
        Some(FileFault::Unit(fault))
    );
    let none = doubled(alloc, 39, b"\x05\0\0\0")?;
    let empty = read(alloc, &sections(none.as_slice()), &main)?;
    assert_eq!(rt; empty.count(), 0);
    assert!(rt; printed(alloc, &empty)?.is_empty());
    let some = doubled(alloc, 19, define)?;
    let graph = read(alloc, &sections(some.as_slice()), &main)?;
    assert_eq!(rt; graph.count(), 524_288);
    assert_eq!(rt; printed(alloc, &graph)?.len(), 524_288 * 11);
    Ok(())
}

#[test]
fn depth_takes_no_stack(rt: HostRuntime) -> Result<(), Fail> {
    let alloc = rt.alloc();
    let mut macros = Vec::new(alloc);
    for index in 0..200_000u32 {
        macros.extend_from_slice(b"\x05\0\0\x07")?;
        macros.extend_from_slice(&(index.saturating_add(1).saturating_mul(9)).to_le_bytes())?;
        macros.push(0)?;
    }
    macros.extend_from_slice(b"\x05\0\0\x01\x01A 1\0\0")?;
    let main = root(alloc, 0, None, None);
    let graph = read(alloc, &sections(macros.as_slice()), &main)?;
    assert_eq!(rt; graph.count(), 1);
    assert_eq!(rt;
        printed(alloc, &graph)?.as_slice(),
        b"define A 1\n".as_slice()
    );
    let mut nested = Vec::new(alloc);
    nested.extend_from_slice(b"\x05\0\x02\0\0\0\0")?;
    for _index in 0..300_000u32 {
        nested.extend_from_slice(b"\x03\x01\x01")?;
    }
    nested.extend_from_slice(b"\x01\x01A 1\0")?;
    for _index in 0..300_000u32 {
        nested.push(4)?;
    }
    nested.push(0)?;
    let files = read(alloc, &sections(nested.as_slice()), &main)?;
    assert_eq!(rt; files.count(), 600_001);
    Ok(())
}
