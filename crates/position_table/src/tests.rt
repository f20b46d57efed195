ghost use Rattle.std.specs.Prelude.{◌≡◌, ◌<◌};

use crate::{
    LineNumbers, PosFault, Position, PositionText, Spot, locate_chain, locate_path, parse_position,
    table_at,
};
use import_graph::{FileFault, Graph};
use info_roots::Root;
use mac_base::{Bytes, Frame, Sections, Steps};
use macro_table::{Entry, Table};
use std::alloc::Global;
use std::marker::Brand;
use std::sync::ledger::{Blank, Ledger};
use std::test::Fail;

/// The line table of a linked file with one directory and the files `m.c` and `m.h`.
const LINES: &[u8] =
    b"\x30\0\0\0\x05\0\x08\0\x28\0\0\0\x01\x01\x01\xfb\x0e\x0d\0\x01\x01\x01\x01\0\0\0\x01\0\0\x01\
    \x01\x01\x08\x01.\0\x02\x01\x08\x02\x0f\x02m.c\0\0m.h\0\0";

/// `m.c` includes `m.h` in line 2, which defines `A` in line 1; line 3 of `m.c` takes it away.
const MACROS: &[u8] = b"\x05\0\x02\0\0\0\0\x03\0\0\x03\x02\x01\x01\x01A 1\0\x04\x02\x03A\0\x04\0";

fn read_with<L: Ledger>(
    alloc: Global,
    root: &Root,
    blank: Blank,
) -> Result<Graph<'static>, FileFault>
    requires name { blank.name ≡ L.name }
    requires parts { blank.parts ≡ L.parts }
    requires some { 0 < L.parts }
{
    let sections = Sections {
        macros: MACROS,
        strs: b"",
        str_offsets: b"",
        lines: LINES,
        line_strs: b"",
        info: b"",
        abbrevs: b"",
    };
    let mut steps = Steps::<L>::new(blank);
    Graph::read(alloc, &sections, root, &mut steps)
}

fn graph(alloc: Global) -> Result<Graph<'static>, FileFault> {
    let root = Root {
        name: Bytes::new(alloc),
        dir: Bytes::new(alloc),
        macros: 0,
        line: Some(0),
        str_base: None,
        wide: false,
    };
    read_with::<Brand>(alloc, &root, Blank::new(1))
}

/// Whether this is `A` as `m.h` defines it.
fn is_defined(table: &Table) -> bool {
    table.get(b"A").is_some_and(|entry: &Entry| {
        entry.text.as_slice() == b"A 1".as_slice()
            && entry.place.line == 1
            && entry.place.frames.as_slice()
                == [Frame { path: 0, line: 0 }, Frame { path: 1, line: 2 }].as_slice()
    })
}

/// The table in a line of the file that these lines lead to.
fn table(alloc: Global, graph: &Graph<'_>, lines: &[u32], line: u32) -> Result<Table, PosFault> {
    let spot = locate_chain(graph, lines, line)?;
    Ok(table_at(alloc, graph, &spot)?)
}

#[test]
fn the_table_of_a_line_has_what_stands_before_it(rt: HostRuntime) -> Result<(), Fail> {
    let alloc = rt.alloc();
    let graph = graph(alloc)?;
    assert!(rt; is_defined(&table(alloc, &graph, &[], 3)?));
    assert!(rt; table(alloc, &graph, &[], 4)?.get(b"A").is_none());
    assert!(rt; table(alloc, &graph, &[], 2)?.get(b"A").is_none());
    assert_eq!(rt; table(alloc, &graph, &[2], 1)?.names()?.len(), 0);
    assert!(rt; is_defined(&table(alloc, &graph, &[2], 2)?));
    Ok(())
}

#[test]
fn a_chain_leads_to_its_first_instance(rt: HostRuntime) -> Result<(), Fail> {
    let graph = graph(rt.alloc())?;
    assert!(rt; locate_chain(&graph, &[], 7) == Ok(Spot { start: 0, line: 7 }));
    assert!(rt; locate_chain(&graph, &[2], 7) == Ok(Spot { start: 1, line: 7 }));
    assert!(rt; locate_chain(&graph, &[5], 1) == Err(PosFault::NoSuchPosition { depth: 1 }));
    assert!(rt; locate_chain(&graph, &[2, 1], 1) == Err(PosFault::NoSuchPosition { depth: 2 }));
    Ok(())
}

#[test]
fn a_path_leads_to_its_first_instance(rt: HostRuntime) -> Result<(), Fail> {
    let graph = graph(rt.alloc())?;
    assert_eq!(rt; locate_path(&graph, b"m.c")?, Some(0));
    assert_eq!(rt; locate_path(&graph, b"m.h")?, Some(1));
    assert_eq!(rt; locate_path(&graph, b"h")?, None);
    Ok(())
}

fn is_chain(position: Position, of_unit: u32, of_lines: &[u32], of_line: u32) -> bool {
    match position {
        Position::Chain { unit, lines, line } => {
            unit == of_unit && lines.as_slice() == of_lines && line == of_line
        }
        Position::Named { .. } => false,
    }
}

fn is_named(position: Position, of_path: &[u8], of_line: u32) -> bool {
    match position {
        Position::Named { path, line } => path.as_slice() == of_path && line == of_line,
        Position::Chain { .. } => false,
    }
}

fn is_bad(alloc: Global, text: &[u8]) -> bool {
    match parse_position(alloc, text) {
        Ok(_) => false,
        Err(fault) => fault == PositionText::Bad,
    }
}

#[test]
fn numbers_between_colons_are_a_chain(rt: HostRuntime) -> Result<(), Fail> {
    let alloc = rt.alloc();
    assert!(rt; is_chain(parse_position(alloc, b"0:3")?, 0, &[], 3));
    assert!(rt; is_chain(parse_position(alloc, b"0:2:1")?, 0, &[2], 1));
    assert!(rt; is_chain(parse_position(alloc, b"1:1")?, 1, &[], 1));
    assert!(rt;
        is_chain(
            parse_position(alloc, b"4294967295:7:10:0")?,
            4294967295,
            &[7, 10],
            0
        )
    );
    Ok(())
}

#[test]
fn any_other_text_is_a_path_with_a_line(rt: HostRuntime) -> Result<(), Fail> {
    let alloc = rt.alloc();
    assert!(rt; is_named(parse_position(alloc, b"a.h:5")?, b"a.h", 5));
    assert!(rt; is_named(parse_position(alloc, b"C:\\x:7")?, b"C:\\x", 7));
    assert!(rt; is_named(parse_position(alloc, b"4294967296:1")?, b"4294967296", 1));
    assert!(rt; is_named(parse_position(alloc, b"01:0:1")?, b"01:0", 1));
    Ok(())
}

#[test]
fn texts_without_a_line_are_bad(rt: HostRuntime) -> Result<(), Fail> {
    let alloc = rt.alloc();
    assert!(rt; is_bad(alloc, b"0"));
    assert!(rt; is_bad(alloc, b"0:"));
    assert!(rt; is_bad(alloc, b":1"));
    assert!(rt; is_bad(alloc, b"0:01"));
    assert!(rt; is_bad(alloc, b""));
    assert!(rt; is_bad(alloc, b"a.h"));
    assert!(rt; is_bad(alloc, b"a.h:4294967296"));
    Ok(())
}

#[test]
fn line_numbers_are_a_list(rt: HostRuntime) -> Result<(), Fail> {
    let mut lines = LineNumbers::new(rt.alloc());
    lines.push(7)?;
    lines.push(8)?;
    assert_eq!(rt; lines.len(), 2);
    assert_eq!(rt; lines.as_slice(), [7, 8].as_slice());
    Ok(())
}
