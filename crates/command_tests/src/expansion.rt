use crate::stage::{Case, check, prints, refuses, usage};
use crate::whole::{bare, two_units};
use std::alloc::{AllocError, Global};
use std::process::Abort;
use std::test::Fail;

/// A file with one root, whose entries are these and then a file that begins and ends.
fn defined(alloc: Global, entries: &[u8]) -> Result<Vec<u8>, AllocError> {
    let mut macros = Vec::from_slice(alloc, b"\x05\0\x02\0\0\0\0")?;
    macros.extend_from_slice(entries)?;
    macros.extend_from_slice(b"\x03\0\0\x04\0")?;
    bare(alloc, macros.as_slice())
}

/// Runs a command on a text at line 1 of a file whose macro unit begins with these entries, which is to print this.
fn gives(
    rt: &impl Abort,
    alloc: Global,
    verb: &[u8],
    entries: &[u8],
    text: &[u8],
    out: &[u8],
) -> Result<(), Fail> {
    let file = defined(alloc, entries)?;
    let words = [verb, b"f", b"0:1", text];
    check(rt, alloc, &prints(&words, b"f", file.as_slice(), out))
}

/// The same, which is to be refused.
fn fails(
    rt: &impl Abort,
    alloc: Global,
    entries: &[u8],
    text: &[u8],
    err: &[u8],
) -> Result<(), Fail> {
    let file = defined(alloc, entries)?;
    for verb in [b"expand".as_slice(), b"once"] {
        let words = [verb, b"f", b"0:1", text];
        check(rt, alloc, &refuses(&words, b"f", file.as_slice(), err))?;
    }
    Ok(())
}

/// The definitions of example 3 of C17 6.10.3.5, as entries.
const EXAMPLE_3: &[u8] =
    b"\x01\0x 3\0\x02\0x\0\x01\0x 2\0\x01\0f(a) f(x * (a))\0\x01\0g f\0\x01\0z z[0]\0\x01\0h g(~\0\x01\0m(a) a(w)\0\x01\0w 0,1\0\x01\0t(a) a\0\x01\0p() int\0\x01\0q(x) x\0\x01\0r(x,y) x ## y\0\x01\0str(x) # x\0";

/// Those of example 5.
const EXAMPLE_5: &[u8] = b"\x01\0t(x,y,z) x ## y ## z\0";

/// Those of the example of 6.10.3.3.
const HASH_HASH: &[u8] =
    b"\x01\0hash_hash # ## #\0\x01\0mkstr(a) # a\0\x01\0in_between(a) mkstr(a)\0\x01\0join(c,d) in_between(c hash_hash d)\0";

#[test]
fn examples_of_the_standard_expand(rt: HostRuntime) -> Result<(), Fail> {
    for (entries, text, out) in [
        (
            EXAMPLE_3,
            b"f(y+1) + f(f(z)) % t(t(g)(0) + t)(1);".as_slice(),
            b"f(2 * (y+1)) + f(2 * (f(2 * (z[0])))) % f(2 * (0)) + t(1);\n".as_slice(),
        ),
        (
            EXAMPLE_3,
            b"g(x+(3,4)-w) | h 5) & m (f)^m(m);",
            b"f(2 * (2+(3,4)-0,1)) | f(2 * (~ 5)) & f(2 * (0,1))^m(0,1);\n",
        ),
        (
            EXAMPLE_3,
            b"p() i[q()] = { q(1), r(2,3), r(4,), r(,5), r(,) };",
            b"int i[] = { 1, 23, 4, 5, };\n",
        ),
        (
            EXAMPLE_3,
            b"char c[2][6] = { str(hello), str() };",
            b"char c[2][6] = { \"hello\", \"\" };\n",
        ),
        (HASH_HASH, b"join(x, y)", b"\"x ## y\"\n"),
        (
            EXAMPLE_5,
            b"int j[] = { t(1,2,3), t(,4,5), t(6,,7), t(8,9,), t(10,,), t(,11,), t(,,12), t(,,) };",
            b"int j[] = { 123, 45, 67, 89, 10, 11, 12, };\n",
        ),
    ] {
        gives(&rt, rt.alloc(), b"expand", entries, text, out)?;
    }
    Ok(())
}

#[test]
fn nested_names_are_replaced_by_their_hide_sets(rt: HostRuntime) -> Result<(), Fail> {
    for (entries, text, out) in [
        (
            b"\x01\0f(x) x\0\x01\0LP (\0".as_slice(),
            b"f LP 1 )".as_slice(),
            b"f ( 1 )\n".as_slice(),
        ),
        (b"\x01\0f(a) a*g\0\x01\0g(a) f(a)\0", b"f(2)(9)", b"2*9*g\n"),
        (b"\x01\0HH(x,y) x ## ## y\0", b"HH(,b)", b"## b\n"),
        (
            b"\x01\0A g E (1)\0\x01\0g(x) A\0\x01\0E \0\x01\0i(x) x\0",
            b"i(A)",
            b"A\n",
        ),
        (b"", b"", b"\n"),
        (b"", b"a  b\nc // d", b"a b c\n"),
    ] {
        gives(&rt, rt.alloc(), b"expand", entries, text, out)?;
    }
    Ok(())
}

#[test]
fn once_replaces_one_level(rt: HostRuntime) -> Result<(), Fail> {
    let entries = b"\x01\0M 42\0\x01\0ADD(x) (M + x)\0";
    gives(
        &rt,
        rt.alloc(),
        b"expand",
        entries,
        b"ADD(1)",
        b"(42 + 1)\n",
    )?;
    gives(&rt, rt.alloc(), b"once", entries, b"ADD(1)", b"(M + 1)\n")?;
    gives(
        &rt,
        rt.alloc(),
        b"once",
        entries,
        b"ADD(M) M",
        b"(M + M) 42\n",
    )
}

#[test]
fn texts_without_an_expansion_are_refused(rt: HostRuntime) -> Result<(), Fail> {
    let f = b"\x01\0f(x) x\0".as_slice();
    for (entries, text, err) in [
        (
            f,
            b"f(1".as_slice(),
            b"dwmac: Expand OpenCall f\n".as_slice(),
        ),
        (f, b"f(1,2)", b"dwmac: Expand ArgCount f 2\n"),
        (
            b"\x01\0h(a,b) a##b\0",
            b"h(+,*)",
            b"dwmac: Expand BadPaste + *\n",
        ),
        (
            b"\x01\0HH(x,y) x ## ## y\0",
            b"HH(a,b)",
            b"dwmac: Expand BadPaste a ##\n",
        ),
        (b"\x01\0s(x) #x\0", b"s(\\)", b"dwmac: Expand BadString s\n"),
        (b"\x01\0Z(\0", b"Z", b"dwmac: Expand BadDefinition Z\n"),
        (b"", b"don't", b"dwmac: Expand LoneQuote\n"),
        (b"", b"/*", b"dwmac: Text OpenComment\n"),
        (b"", b"a\0", b"dwmac: Text NulByte\n"),
    ] {
        fails(&rt, rt.alloc(), entries, text, err)?;
    }
    Ok(())
}

#[test]
fn names_of_the_position_expand(rt: HostRuntime) -> Result<(), Fail> {
    let file = two_units(rt.alloc())?;
    let bytes = file.as_slice();
    for (position, text, out) in [
        (
            b"0:3".as_slice(),
            b"A+A __LINE__ __FILE__".as_slice(),
            b"1+1 3 \"m.c\"\n".as_slice(),
        ),
        (b"0:4", b"A", b"A\n"),
        (b"0:2:9", b"__LINE__ __FILE__ A", b"9 \"m.h\" 1\n"),
    ] {
        let words = [b"expand".as_slice(), b"f", position, text];
        check(&rt, rt.alloc(), &prints(&words, b"f", bytes, out))?;
    }
    for (position, err) in [
        (
            b"0:5:1".as_slice(),
            b"dwmac: f: NoSuchPosition depth 1\n".as_slice(),
        ),
        (b"1:1", b"dwmac: f: NoSuchUnit\n"),
    ] {
        let words = [b"once".as_slice(), b"f", position, b"/*"];
        check(&rt, rt.alloc(), &refuses(&words, b"f", bytes, err))?;
    }
    let words = [b"expand".as_slice(), b"f", b"m.c:3", b"A"];
    check(&rt, rt.alloc(), &usage(&words, b"f", bytes))?;
    let words = [b"expand".as_slice(), b"f", b"0:3"];
    check(&rt, rt.alloc(), &usage(&words, b"f", bytes))
}

#[test]
fn nested_calls_take_no_stack(rt: HostRuntime) -> Result<(), Fail> {
    let mut text = Vec::new(rt.alloc());
    for _index in 0..20_000u32 {
        text.extend_from_slice(b"I(")?;
    }
    text.push(b'1')?;
    for _index in 0..20_000u32 {
        text.push(b')')?;
    }
    gives(
        &rt,
        rt.alloc(),
        b"expand",
        b"\x01\0I(x) x\0",
        text.as_slice(),
        b"1\n",
    )
}

/// A name for each level, which is twice the level below it.
fn doublings(alloc: Global) -> Result<Vec<u8>, AllocError> {
    let mut entries = Vec::from_slice(alloc, b"\x01\0A x x\0")?;
    for level in b'A'..b'U' {
        let above = level.saturating_add(1);
        entries.extend_from_slice(&[1, 0, above, b' ', level, b' ', level, 0])?;
    }
    Ok(entries)
}

#[test]
fn work_of_an_expansion_is_limited(rt: HostRuntime) -> Result<(), Fail> {
    let mut entries = doublings(rt.alloc())?;
    let mut out = Vec::from_slice(rt.alloc(), b"x")?;
    for _index in 1..2_097_152u32 {
        out.extend_from_slice(b" x")?;
    }
    out.push(b'\n')?;
    let file = defined(rt.alloc(), entries.as_slice())?;
    let words = [b"expand".as_slice(), b"f", b"0:1", b"U"];
    let case = prints(&words, b"f", file.as_slice(), out.as_slice());
    check(
        &rt,
        rt.alloc(),
        &Case {
            room: 4_194_304,
            ..case
        },
    )?;
    entries.extend_from_slice(b"\x01\0V U U\0")?;
    let file = defined(rt.alloc(), entries.as_slice())?;
    let words = [b"expand".as_slice(), b"f", b"0:1", b"V"];
    let err = b"dwmac: Expand TooLong\n";
    check(
        &rt,
        rt.alloc(),
        &refuses(&words, b"f", file.as_slice(), err),
    )
}
