use crate::elf::whole;
use crate::stage::{check, prints, refuses, usage};
use std::alloc::{AllocError, Global};
use std::test::Fail;

/// A unit that defines A, and at 10 the root's, which imports it in the file that line 2 includes and undefines A after it.
const TWO_UNITS: &[u8] =
    b"\x05\0\0\x01\x01A 1\0\0\x05\0\x02\0\0\0\0\x03\0\0\x03\x02\x01\x07\0\0\0\0\x04\x02\x03A\0\x04\0";

/// A line table with the files m.c and m.h.
const TWO_FILES: &[u8] =
    b"\x30\0\0\0\x05\0\x08\0\x28\0\0\0\x01\x01\x01\xfb\x0e\x0d\0\x01\x01\x01\x01\0\0\0\x01\0\0\x01\x01\x01\x08\x01.\0\x02\x01\x08\x02\x0f\x02m.c\0\0m.h\0\0";

/// A root whose macro unit is at 10, with a line table.
const ROOT_AT_10: &[u8] = b"\x17\0\0\0\x05\0\x01\x08\0\0\0\0\x01m.c\0.\0\x0a\0\0\0\0\0\0\0";

/// A root whose macro unit is at 0, without a line table and a base of string offsets.
const BARE_ROOT: &[u8] = b"\x13\0\0\0\x05\0\x01\x08\0\0\0\0\x03m.c\0.\0\0\0\0\0";

/// Two such roots: m.c with its macro unit at 0, and n.c with its at 18.
const TWO_ROOTS: &[u8] =
    b"\x13\0\0\0\x05\0\x01\x08\0\0\0\0\x03m.c\0.\0\0\0\0\0\x13\0\0\0\x05\0\x01\x08\0\0\0\0\x03n.c\0.\0\x12\0\0\0";

/// A unit that defines A in m.c, and at 18 one that defines B.
const GOOD_SECOND: &[u8] = b"\x05\0\x02\0\0\0\0\x03\0\0\x01\x01A 1\0\x04\0\x05\0\0\x01\x02B 2\0\0";

/// The first of these, and at 18 one that ends a file without a start.
const BAD_SECOND: &[u8] = b"\x05\0\x02\0\0\0\0\x03\0\0\x01\x01A 1\0\x04\0\x05\0\0\x04\0";

/// The four kinds of roots.
const ABBREVS: &[u8] =
    b"\x01\x11\0\x03\x08\x1b\x08\x79\x17\x10\x17\0\0\x02\x11\0\x03\x08\x1b\x08\x79\x17\x10\x17\x72\x17\0\0\x03\x11\0\x03\x08\x1b\x08\x79\x17\0\0\x04\x11\0\x03\x08\x1b\x08\x79\x17\x72\x17\0\0\0";

/// The file whose root undefines A after the file that defines it.
pub fn two_units(alloc: Global) -> Result<Vec<u8>, AllocError> {
    whole(alloc, TWO_UNITS, TWO_FILES, ROOT_AT_10, ABBREVS)
}

/// A file whose root's macro unit is at 0, without a line table of the root's.
pub fn bare(alloc: Global, macros: &[u8]) -> Result<Vec<u8>, AllocError> {
    whole(alloc, macros, TWO_FILES, BARE_ROOT, ABBREVS)
}

#[test]
fn dump_puts_imported_units_in_their_places(rt: HostRuntime) -> Result<(), Fail> {
    let file = two_units(rt.alloc())?;
    assert_eq!(rt; file.len(), 840);
    let out = b"root 0 m.c\nstart 0 m.c\nstart 2 m.h\ndefine 1 A 1\nend\nundef 3 A\nend\n";
    check(
        &rt,
        rt.alloc(),
        &prints(&[b"dump", b"f"], b"f", file.as_slice(), out),
    )
}

#[test]
fn dump_prints_each_root(rt: HostRuntime) -> Result<(), Fail> {
    let file = whole(rt.alloc(), GOOD_SECOND, TWO_FILES, TWO_ROOTS, ABBREVS)?;
    let out = b"root 0 m.c\nstart 0 m.c\ndefine 1 A 1\nend\nroot 1 n.c\ndefine 2 B 2\n".as_slice();
    check(
        &rt,
        rt.alloc(),
        &prints(&[b"dump", b"f"], b"f", file.as_slice(), out),
    )
}

#[test]
fn fault_of_the_second_root_leaves_the_first_readable(rt: HostRuntime) -> Result<(), Fail> {
    let file = whole(rt.alloc(), BAD_SECOND, TWO_FILES, TWO_ROOTS, ABBREVS)?;
    let err = b"dwmac: f: Unit EndWithoutStart at 0x15\n".as_slice();
    for words in [
        [b"dump".as_slice(), b"f"].as_slice(),
        [b"list".as_slice(), b"f", b"1:1"].as_slice(),
    ] {
        check(&rt, rt.alloc(), &refuses(words, b"f", file.as_slice(), err))?;
    }
    let out = b"Defined at m.c:1\n#define A 1\n".as_slice();
    let words = [b"info".as_slice(), b"f", b"0:2", b"A"];
    check(&rt, rt.alloc(), &prints(&words, b"f", file.as_slice(), out))
}

#[test]
fn info_and_list_answer_at_a_line(rt: HostRuntime) -> Result<(), Fail> {
    let file = two_units(rt.alloc())?;
    let bytes = file.as_slice();
    let defined = b"Defined at m.h:1\n  included at m.c:2\n#define A 1\n".as_slice();
    for (position, out) in [
        (b"0:3".as_slice(), defined),
        (b"0:2:2", defined),
        (b"0:4", b"A is not defined\n"),
        (b"0:0", b"A is not defined\n"),
    ] {
        let words = [b"info".as_slice(), b"f", position, b"A"];
        check(&rt, rt.alloc(), &prints(&words, b"f", bytes, out))?;
    }
    for (position, out) in [
        (b"0:2:1".as_slice(), b"".as_slice()),
        (b"0:2:2", b"#define A 1\n"),
        (b"0:4294967295", b""),
    ] {
        let words = [b"list".as_slice(), b"f", position];
        check(&rt, rt.alloc(), &prints(&words, b"f", bytes, out))?;
    }
    Ok(())
}

#[test]
fn positions_that_are_not_there_are_refused(rt: HostRuntime) -> Result<(), Fail> {
    let file = two_units(rt.alloc())?;
    let bytes = file.as_slice();
    for (position, err) in [
        (
            b"0:5:1".as_slice(),
            b"dwmac: f: NoSuchPosition depth 1\n".as_slice(),
        ),
        (b"0:2:7:1", b"dwmac: f: NoSuchPosition depth 2\n"),
        (b"1:1", b"dwmac: f: NoSuchUnit\n"),
    ] {
        let words = [b"list".as_slice(), b"f", position];
        check(&rt, rt.alloc(), &refuses(&words, b"f", bytes, err))?;
    }
    for position in [
        b"0".as_slice(),
        b"0:",
        b":1",
        b"0:01",
        b"m.c:3",
        b"4294967296:1",
        b"",
    ] {
        let words = [b"info".as_slice(), b"f", position, b"A"];
        check(&rt, rt.alloc(), &usage(&words, b"f", bytes))?;
    }
    check(
        &rt,
        rt.alloc(),
        &usage(&[b"info", b"f", b"0:3", b""], b"f", bytes),
    )?;
    check(&rt, rt.alloc(), &usage(&[b"dump", b"-f"], b"f", bytes))
}

#[test]
fn dump_names_the_first_fault_of_a_root(rt: HostRuntime) -> Result<(), Fail> {
    for (macros, err) in [
        (
            b"\x05\0\0\x07\0\0\0\0\0".as_slice(),
            b"dwmac: f: Unit ImportCycle at 0x3\n".as_slice(),
        ),
        (
            b"\x05\0\0\x04\0",
            b"dwmac: f: Unit EndWithoutStart at 0x3\n",
        ),
        (
            b"\x05\0\0\x03\0\0\x04\0",
            b"dwmac: f: Unit NoLineTable at 0x3\n",
        ),
        (
            b"\x05\0\0\x0b\x01\0\0",
            b"dwmac: f: Unit NoStrBase at 0x3\n",
        ),
        (
            b"\x05\0\0\x07\xff\0\0\0\0",
            b"dwmac: f: Unit ImportRange at 0x3\n",
        ),
        (
            b"\x05\0\x02\0\0\0\0\x03\0\0\0",
            b"dwmac: f: Unit StartWithoutEnd at 0xa\n",
        ),
        (
            b"\x05\0\x02\x34\0\0\0\0",
            b"dwmac: f: Unit LineRange at 0x3\n",
        ),
        (b"\x05\0\x02\x01\0\0\0\0", b"dwmac: f: Line Cut at 0x1\n"),
        (b"", b"dwmac: f: Unit ImportRange at 0x0\n"),
    ] {
        let file = bare(rt.alloc(), macros)?;
        let case = refuses(&[b"dump", b"f"], b"f", file.as_slice(), err);
        check(&rt, rt.alloc(), &case)?;
    }
    let cut = whole(rt.alloc(), TWO_UNITS, TWO_FILES, b"\x17\0\0\0\x05", ABBREVS)?;
    let err = b"dwmac: f: Info Cut at 0x0\n";
    check(
        &rt,
        rt.alloc(),
        &refuses(&[b"dump", b"f"], b"f", cut.as_slice(), err),
    )?;
    let case = refuses(&[b"list", b"f", b"7:1"], b"f", cut.as_slice(), err);
    check(&rt, rt.alloc(), &case)?;
    Ok(())
}

#[test]
fn file_without_roots_has_nothing_to_dump(rt: HostRuntime) -> Result<(), Fail> {
    let file = whole(rt.alloc(), b"", b"", b"", b"")?;
    check(
        &rt,
        rt.alloc(),
        &prints(&[b"dump", b"f"], b"f", file.as_slice(), b""),
    )?;
    let err = b"dwmac: f: NoSuchUnit\n";
    let case = refuses(&[b"info", b"f", b"0:1", b"A"], b"f", file.as_slice(), err);
    check(&rt, rt.alloc(), &case)
}

/// So many units of 14 bytes, each of which imports the next one twice, and one after them.
fn doubled(alloc: Global, count: u32, last: &[u8]) -> Result<Vec<u8>, AllocError> {
    let mut macros = Vec::new(alloc);
    for index in 0..count {
        let next = (index.saturating_add(1).saturating_mul(14)).to_le_bytes();
        macros.extend_from_slice(b"\x05\0\0\x07")?;
        macros.extend_from_slice(&next)?;
        macros.push(7)?;
        macros.extend_from_slice(&next)?;
        macros.push(0)?;
    }
    macros.extend_from_slice(last)?;
    bare(alloc, macros.as_slice())
}

#[test]
fn doubled_units_are_counted_at_once(rt: HostRuntime) -> Result<(), Fail> {
    let define = b"\x05\0\0\x01\x01A 1\0\0";
    let many = doubled(rt.alloc(), 39, define)?;
    let err = b"dwmac: f: Unit TooManyEntries at 0x0\n";
    check(
        &rt,
        rt.alloc(),
        &refuses(&[b"dump", b"f"], b"f", many.as_slice(), err),
    )?;
    let none = doubled(rt.alloc(), 39, b"\x05\0\0\0")?;
    check(
        &rt,
        rt.alloc(),
        &prints(&[b"dump", b"f"], b"f", none.as_slice(), b"root 0 m.c\n"),
    )?;
    let some = doubled(rt.alloc(), 3, define)?;
    let out =
        b"root 0 m.c\ndefine 1 A 1\ndefine 1 A 1\ndefine 1 A 1\ndefine 1 A 1\ndefine 1 A 1\ndefine 1 A 1\ndefine 1 A 1\ndefine 1 A 1\n";
    check(
        &rt,
        rt.alloc(),
        &prints(&[b"dump", b"f"], b"f", some.as_slice(), out),
    )?;
    let big = doubled(rt.alloc(), 19, define)?;
    let err = b"dwmac: f: NoSuchPosition depth 0\n";
    check(
        &rt,
        rt.alloc(),
        &refuses(&[b"list", b"f", b"0:1"], b"f", big.as_slice(), err),
    )
}

#[test]
fn nested_units_take_no_stack(rt: HostRuntime) -> Result<(), Fail> {
    let mut chain = Vec::new(rt.alloc());
    for index in 0..200_000u32 {
        chain.extend_from_slice(b"\x05\0\0\x07")?;
        chain.extend_from_slice(&(index.saturating_add(1).saturating_mul(9)).to_le_bytes())?;
        chain.push(0)?;
    }
    chain.extend_from_slice(b"\x05\0\0\x01\x01A 1\0\0")?;
    let deep = bare(rt.alloc(), chain.as_slice())?;
    let out = b"root 0 m.c\ndefine 1 A 1\n";
    check(
        &rt,
        rt.alloc(),
        &prints(&[b"dump", b"f"], b"f", deep.as_slice(), out),
    )
}

#[test]
fn nested_files_take_no_stack(rt: HostRuntime) -> Result<(), Fail> {
    let mut nested = Vec::new(rt.alloc());
    nested.extend_from_slice(b"\x05\0\x02\0\0\0\0\x01\0B 2\0")?;
    for _index in 0..300_000u32 {
        nested.extend_from_slice(b"\x03\x01\x01")?;
    }
    nested.extend_from_slice(b"\x01\x01A 1\0")?;
    for _index in 0..300_000u32 {
        nested.push(4)?;
    }
    nested.push(0)?;
    let starts = bare(rt.alloc(), nested.as_slice())?;
    for (position, out) in [
        (b"0:1".as_slice(), b"#define B 2\n".as_slice()),
        (b"0:2", b"#define A 1\n#define B 2\n"),
    ] {
        let words = [b"list".as_slice(), b"f", position];
        check(
            &rt,
            rt.alloc(),
            &prints(&words, b"f", starts.as_slice(), out),
        )?;
    }
    Ok(())
}
