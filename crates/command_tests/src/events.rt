use crate::folders::{Folder, UnitCase, check_unit, holding};
use dwmac_run::Status;
use std::alloc::{AllocError, Global};
use std::process::Abort;
use std::test::Fail;

/// Runs `events` on a file of this text, which is to print this.
fn gives(rt: &impl Abort, alloc: Global, text: &[u8], out: &[u8]) -> Result<(), Fail> {
    let files = [(b"a.c".as_slice(), text)];
    let case = UnitCase {
        words: &[b"events", b"a.c"],
        folders: &[holding(&files)],
        status: Status::Ok,
        out,
        err: b"",
    };
    check_unit(rt, alloc, &case)
}

/// The same, which is to be refused.
fn fails(rt: &impl Abort, alloc: Global, text: &[u8], err: &[u8]) -> Result<(), Fail> {
    let files = [(b"a.c".as_slice(), text)];
    let case = UnitCase {
        words: &[b"events", b"a.c"],
        folders: &[holding(&files)],
        status: Status::Refused,
        out: b"",
        err,
    };
    check_unit(rt, alloc, &case)
}

#[test]
fn events_are_printed(rt: HostRuntime) -> Result<(), Fail> {
    for (text, out) in [
        (
            b"#define N 28".as_slice(),
            b"start 0 a.c\ndefine 1 N 28\nend\n".as_slice(),
        ),
        (b"", b"start 0 a.c\nend\n"),
        (
            b"int x;\n#define A\n#undef A\n#undef B\n",
            b"start 0 a.c\ndefine 2 A \nundef 3 A\nundef 4 B\nend\n",
        ),
        (b"#if 1\n#elif 1/0\n#endif\n", b"start 0 a.c\nend\n"),
        (
            b"#if 0\ndon't\n#if\n#else\n#endif\n#else\n#define X 1\n#endif\n",
            b"start 0 a.c\ndefine 7 X 1\nend\n",
        ),
        (
            b"#if 1 || 1/0\n#define A 1\n#endif\n#if -1 > 0u\n#define B 2\n#endif\n",
            b"start 0 a.c\ndefine 2 A 1\ndefine 5 B 2\nend\n",
        ),
        (
            b"#define A 1\n#define A 1\n#if A \\\n > 0\n#define B 2\n#endif\n",
            b"start 0 a.c\ndefine 1 A 1\ndefine 2 A 1\ndefine 5 B 2\nend\n",
        ),
    ] {
        gives(&rt, rt.alloc(), text, out)?;
    }
    Ok(())
}

#[test]
fn first_faults_are_printed(rt: HostRuntime) -> Result<(), Fail> {
    for (text, err) in [
        (
            b"#undef __FILE__".as_slice(),
            b"dwmac: a.c:1: Predefined __FILE__\n".as_slice(),
        ),
        (b"#else\n", b"dwmac: a.c:1: Struct StrayElse\n"),
        (b"\n#if 1\n", b"dwmac: a.c:2: Struct OpenIf\n"),
        (b"#if 1/0\n#endif\n", b"dwmac: a.c:1: Expr ZeroDivisor\n"),
        (b"#define A don't\n", b"dwmac: a.c:1: Def LoneQuote\n"),
        (
            b"\n#define A 1\n#define A 2\n",
            b"dwmac: a.c:3: Redefined A\n",
        ),
        (b"#include \"a.c\"\n", b"dwmac: a.c:1: IncludeDepth\n"),
        (b"#include <p.h>\n", b"dwmac: a.c:1: NoSuchFile p.h\n"),
        (b"#include p.h\n", b"dwmac: a.c:1: BadInclude\n"),
        (b"int i;\n/* open", b"dwmac: a.c:2: Lex OpenComment\n"),
        (b"#error no\n", b"dwmac: a.c:1: ErrorDirective\n"),
        (b"#line 0\n", b"dwmac: a.c:1: BadLine\n"),
        (b"#warning no\n", b"dwmac: a.c:1: Directive UnknownName\n"),
        (
            b"#define f(x) x\n#if f(1\n#endif\n",
            b"dwmac: a.c:2: Expand OpenCall f\n",
        ),
        (
            b"#define f(x) x\n#if f(1,2)\n#endif\n",
            b"dwmac: a.c:2: Expand ArgCount f 2\n",
        ),
    ] {
        fails(&rt, rt.alloc(), text, err)?;
    }
    Ok(())
}

/// A line `#if` with so many parentheses round its condition, and a definition in the group.
fn parentheses(alloc: Global, count: usize) -> Result<Vec<u8>, Fail> {
    let mut text = Vec::from_slice(alloc, b"#if ")?;
    for _ in 0..count {
        text.push(b'(')?;
    }
    text.push(b'1')?;
    for _ in 0..count {
        text.push(b')')?;
    }
    text.extend_from_slice(b"\n#define D 1\n#endif\n")?;
    Ok(text)
}

#[test]
fn a_condition_may_have_100_000_parentheses(rt: HostRuntime) -> Result<(), Fail> {
    let text = parentheses(rt.alloc(), 100_000)?;
    gives(
        &rt,
        rt.alloc(),
        text.as_slice(),
        b"start 0 a.c\ndefine 2 D 1\nend\n",
    )
}

/// Runs `events` with these words over these folders, which is to print this.
fn finds(
    rt: &impl Abort,
    alloc: Global,
    words: &[&[u8]],
    folders: &[Folder<'_>],
    out: &[u8],
) -> Result<(), Fail> {
    let case = UnitCase {
        words,
        folders,
        status: Status::Ok,
        out,
        err: b"",
    };
    check_unit(rt, alloc, &case)
}

const SAMPLE: &[u8] =
    b"#include <stdio.h>\n#include \"sample.h\"\n\n#define M 42\n#define ADD(x) (M + x)\n\nmain ()\n{\n#define N 28\n  printf (\"Hello, world!\\n\");\n#undef N\n  printf (\"We're so creative.\\n\");\n#define N 1729\n  printf (\"Goodbye, world!\\n\");\n}\n";

const SAMPLE_EVENTS: &[u8] =
    b"start 0 sample.c\nstart 1 inc/stdio.h\nend\nstart 2 sample.h\ndefine 1 Q <\nend\ndefine 4 M 42\ndefine 5 ADD(x) (M + x)\ndefine 9 N 28\nundef 11 N\ndefine 13 N 1729\nend\n";

#[test]
fn a_unit_finds_its_headers(rt: HostRuntime) -> Result<(), Fail> {
    let sources = [
        (b"sample.c".as_slice(), SAMPLE),
        (b"sample.h", b"#define Q <\n"),
    ];
    let headers = [(
        b"stdio.h".as_slice(),
        b"extern int printf(const char *, ...);\n".as_slice(),
    )];
    let words: &[&[u8]] = &[b"events", b"-I", b"inc", b"sample.c"];
    finds(
        &rt,
        rt.alloc(),
        words,
        &[holding(&sources), holding(&headers)],
        SAMPLE_EVENTS,
    )
}

#[test]
fn a_header_is_once_or_named_by_a_macro(rt: HostRuntime) -> Result<(), Fail> {
    let all = [
        (b"p.h".as_slice(), b"#pragma once\n#define A 1\n".as_slice()),
        (b"u.c", b"#include \"p.h\"\n#include \"p.h\"\n"),
        (b"v.c", b"#define H \"p.h\"\n#include H\n"),
        (b"d/u.c", b"#include \"q.h\"\n"),
        (b"d/q.h", b""),
    ];
    let files = holding(&all);
    for (words, out) in [
        (
            [b"events".as_slice(), b"u.c"],
            b"start 0 u.c\nstart 1 p.h\ndefine 2 A 1\nend\nend\n".as_slice(),
        ),
        (
            [b"events", b"v.c"],
            b"start 0 v.c\ndefine 1 H \"p.h\"\nstart 2 p.h\ndefine 2 A 1\nend\nend\n",
        ),
        (
            [b"events", b"d/u.c"],
            b"start 0 d/u.c\nstart 1 d/q.h\nend\nend\n",
        ),
    ] {
        finds(&rt, rt.alloc(), &words, &[files], out)?;
    }
    Ok(())
}

#[test]
fn a_store_that_lacks_a_header_is_passed(rt: HostRuntime) -> Result<(), Fail> {
    let unit = holding(&[(b"u.c", b"#include <k.h>\n")]);
    let with_header = holding(&[(b"k.h", b"#define K 1\n")]);
    let words: &[&[u8]] = &[b"events", b"u.c", b"-I", b"one", b"-I", b"two"];
    let out = b"start 0 u.c\nstart 1 two/k.h\ndefine 1 K 1\nend\nend\n";
    finds(
        &rt,
        rt.alloc(),
        words,
        &[unit, holding(&[]), with_header],
        out,
    )
}

#[test]
fn a_store_that_fails_ends_the_run(rt: HostRuntime) -> Result<(), Fail> {
    let unit = holding(&[(b"u.c", b"#include <k.h>\n")]);
    let with_header = holding(&[(b"k.h", b"#define K 1\n")]);
    let broken = Folder {
        files: &[],
        fails: &[1],
    };
    for folders in [[unit, broken, with_header], [broken, with_header, unit]] {
        let case = UnitCase {
            words: &[b"events", b"-I", b"one", b"-I", b"two", b"u.c"],
            folders: &folders,
            status: Status::Outside,
            out: b"",
            err: b"dwmac: outside fault\n",
        };
        check_unit(&rt, rt.alloc(), &case)?;
    }
    Ok(())
}

#[test]
fn words_define_in_their_order(rt: HostRuntime) -> Result<(), Fail> {
    let files = holding(&[(b"a.c", b"#ifdef X\n#define Y X\n#endif\n")]);
    for (words, out) in [
        (
            [b"events".as_slice(), b"-D", b"X=2", b"-U", b"X", b"a.c"],
            b"define 0 X 2\nundef 0 X\nstart 0 a.c\nend\n".as_slice(),
        ),
        (
            [b"events", b"-U", b"X", b"-D", b"X", b"a.c"],
            b"undef 0 X\ndefine 0 X 1\nstart 0 a.c\ndefine 2 Y X\nend\n",
        ),
        (
            [b"events", b"a.c", b"-D", b"f(x)=x", b"-D", b"f(x)=x"],
            b"define 0 f(x) x\ndefine 0 f(x) x\nstart 0 a.c\nend\n",
        ),
    ] {
        finds(&rt, rt.alloc(), &words, &[files], out)?;
    }
    Ok(())
}

/// A text of so many spaces.
fn spaces(alloc: Global, count: usize) -> Result<Vec<u8>, AllocError> {
    Ok(vec![in alloc; b' '; count]?)
}

#[test]
fn words_and_missing_files_are_refused(rt: HostRuntime) -> Result<(), Fail> {
    let long = spaces(rt.alloc(), 16_777_217)?;
    let files = [
        (b"a.c".as_slice(), b"".as_slice()),
        (b"l.c", long.as_slice()),
    ];
    for (words, err) in [
        (
            [b"events".as_slice(), b"-D", b"A=1", b"-D", b"A=2", b"a.c"],
            b"dwmac: <start>:0: Redefined A\n".as_slice(),
        ),
        (
            [b"events", b"-D", b"A=1", b"-D", b"=2", b"a.c"],
            b"dwmac: <start>:0: Def NoName\n",
        ),
        (
            [b"events", b"-I", b"a.c", b"-D", b"A", b"n.c"],
            b"dwmac: <start>:0: NoSuchFile n.c\n",
        ),
        (
            [b"events", b"-I", b"a.c", b"-D", b"A", b"l.c"],
            b"dwmac: <start>:0: SourceTooLong l.c\n",
        ),
    ] {
        let case = UnitCase {
            words: &words,
            folders: &[holding(&files)],
            status: Status::Refused,
            out: b"",
            err,
        };
        check_unit(&rt, rt.alloc(), &case)?;
    }
    Ok(())
}

/// Runs these words, which are to fit no command.
fn misused(rt: &impl Abort, alloc: Global, words: &[&[u8]]) -> Result<(), Fail> {
    let case = UnitCase {
        words,
        folders: &[],
        status: Status::Usage,
        out: b"",
        err: b"dwmac: usage\n",
    };
    check_unit(rt, alloc, &case)
}

#[test]
fn words_that_fit_no_unit_are_usage(rt: HostRuntime) -> Result<(), Fail> {
    let alloc = rt.alloc();
    misused(&rt, alloc, &[b"events"])?;
    misused(&rt, alloc, &[b"events", b"a.c", b"b.c"])?;
    misused(&rt, alloc, &[b"events", b"a.c", b"-D"])?;
    misused(&rt, alloc, &[b"events", b"-D", b"", b"a.c"])?;
    misused(&rt, alloc, &[b"events", b"-I", b"a\0", b"a.c"])?;
    misused(&rt, alloc, &[b"events", b"-DX=1", b"a.c"])?;
    misused(&rt, alloc, &[b"events", b"-x", b"a.c"])?;
    misused(&rt, alloc, &[b"events", b"", b"a.c"])?;
    misused(&rt, alloc, &[b"raw", b"-I", b"a.c"])
}

#[test]
fn at_most_255_folders_are_taken(rt: HostRuntime) -> Result<(), Fail> {
    let alloc = rt.alloc();
    let mut words = Vec::from_slice(alloc, &[b"events".as_slice(), b"a.c"])?;
    for _ in 0..255 {
        words.extend_from_slice(&[b"-I".as_slice(), b"inc"])?;
    }
    let files = holding(&[(b"a.c", b"")]);
    finds(
        &rt,
        alloc,
        words.as_slice(),
        &[files],
        b"start 0 a.c\nend\n",
    )?;
    words.extend_from_slice(&[b"-I".as_slice(), b"inc"])?;
    misused(&rt, alloc, words.as_slice())
}
