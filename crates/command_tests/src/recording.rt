// Runs of `record`, over header stores and a shelf in memory.
use crate::folders::{Folder, run_over};
use crate::objects::{INDEXED, NARROW, WIDE, WIDE_INDEXED};
use crate::stage::paths_of;
use dwmac_run::Status;
use mac_io::{MapShelf, VecSink, are_distinct};
use std::alloc::Global;
use std::process::Abort;
use std::test::Fail;

/// A run over these source files, and what it is to leave. The shelf has a file `o`, and another one that stays.
#[derive(Clone, Copy)]
struct Recording<'a> {
    words: &'a [&'a [u8]],
    files: &'a [(&'a [u8], &'a [u8])],
    store_fails: &'a [u64],
    shelf_fails: &'a [u64],
    out_fails: &'a [u64],
    status: Status,
    out: &'a [u8],
    err: &'a [u8],
    /// How many bytes `o` has in the end; none where it is as before.
    size: Option<usize>,
}

/// What `o` has before a run.
const BEFORE: &[u8] = b"as before";

/// A run that writes a file of so many bytes.
fn writes<'a>(
    words: &'a [&'a [u8]],
    files: &'a [(&'a [u8], &'a [u8])],
    out: &'a [u8],
    size: usize,
) -> Recording<'a> {
    Recording {
        words,
        files,
        store_fails: &[],
        shelf_fails: &[],
        out_fails: &[],
        status: Status::Ok,
        out,
        err: b"",
        size: Some(size),
    }
}

/// A run that ends so, and writes nothing.
fn ends<'a>(
    words: &'a [&'a [u8]],
    files: &'a [(&'a [u8], &'a [u8])],
    status: Status,
    err: &'a [u8],
) -> Recording<'a> {
    Recording {
        words,
        files,
        store_fails: &[],
        shelf_fails: &[],
        out_fails: &[],
        status,
        out: b"",
        err,
        size: None,
    }
}

/// A shelf with `o` and another file.
fn shelf_of(rt: &impl Abort, alloc: Global, fails: &[u64]) -> Result<MapShelf, Fail> {
    let names = paths_of(alloc, &[b"o", b"other"])?;
    let contents = paths_of(alloc, &[BEFORE, b"stays"])?;
    assert!(rt; are_distinct(&names));
    assert_eq!(rt; names.len(), contents.len());
    Ok(MapShelf::new(alloc, names, contents, Vec::from_slice(alloc, fails)?))
}

/// Runs the case, and compares the status and both texts. Answers what `o` has then.
fn run_case(rt: &impl Abort, alloc: Global, case: &Recording<'_>) -> Result<Vec<u8>, Fail> {
    let words = paths_of(alloc, case.words)?;
    let mut shelf = shelf_of(rt, alloc, case.shelf_fails)?;
    let mut out = VecSink::new(alloc, 65_536, Vec::from_slice(alloc, case.out_fails)?)?;
    let mut err = VecSink::new(alloc, 65_536, Vec::new(alloc))?;
    let folder = Folder {
        files: case.files,
        fails: case.store_fails,
    };
    let status = run_over(alloc, &words, &[folder], &mut shelf, &mut out, &mut err)?;
    assert_eq!(rt; err.text(), case.err);
    assert_eq!(rt; out.text(), case.out);
    assert_eq!(rt; status, case.status);
    assert_eq!(rt;
        shelf.file(b"other").ok_or("a file is gone")?,
        b"stays".as_slice()
    );
    let file = shelf.file(b"o").ok_or("the file is gone")?;
    Ok(Vec::from_slice(alloc, file)?)
}

/// Runs the case, and compares all that it leaves.
fn check(rt: &impl Abort, alloc: Global, case: &Recording<'_>) -> Result<(), Fail> {
    let file = run_case(rt, alloc, case)?;
    match case.size {
        Some(size) => assert_eq!(rt; file.len(), size),
        None => assert_eq!(rt; file.as_slice(), BEFORE),
    }
    Ok(())
}

const ONE: [(&[u8], &[u8]); 1] = [(b"a.c", b"#define N 28")];

const PLAIN: [&[u8]; 4] = [b"record", b"-o", b"o", b"a.c"];

#[test]
fn object_of_one_definition_has_exactly_these_bytes(rt: HostRuntime) -> Result<(), Fail> {
    for (words, out, object) in [
        (
            PLAIN.as_slice(),
            b"units 1 pieces 0 strings 4 bytes 1504\n".as_slice(),
            NARROW,
        ),
        (
            &[b"record", b"--strx", b"-o", b"o", b"a.c"],
            b"units 1 pieces 0 strings 4 bytes 1760\n",
            INDEXED,
        ),
        (
            &[b"record", b"-o", b"o", b"a.c", b"--dwarf64"],
            b"units 1 pieces 0 strings 4 bytes 1552\n",
            WIDE,
        ),
        (
            &[b"record", b"--dwarf64", b"a.c", b"--strx", b"-o", b"o"],
            b"units 1 pieces 0 strings 4 bytes 1824\n",
            WIDE_INDEXED,
        ),
    ] {
        let file = run_case(&rt, rt.alloc(), &writes(words, &ONE, out, object.len()))?;
        assert_eq!(&rt; file.as_slice(), object);
    }
    Ok(())
}

#[test]
fn runs_of_definitions_in_headers_are_pieces(rt: HostRuntime) -> Result<(), Fail> {
    let words = [b"record".as_slice(), b"-o", b"o", b"v.c"];
    let two = b"#define A 1\n#define B 2\n".as_slice();
    let again = b"#define A 1\n#define B 2\n#include \"e.h\"\n".as_slice();
    let parted = b"#define A 1\n#include \"e.h\"\n#define B 2\n".as_slice();
    for (source, header, out, size) in [
        (
            b"#include \"h.h\"\n".as_slice(),
            two,
            b"units 1 pieces 1 strings 5 bytes 1952\n".as_slice(),
            1952,
        ),
        (
            b"#include \"h.h\"\n#include \"h.h\"\n",
            again,
            b"units 1 pieces 1 strings 5 bytes 2000\n",
            2000,
        ),
        (
            b"#include \"h.h\"\n",
            b"#define A 1\n",
            b"units 1 pieces 0 strings 4 bytes 1512\n",
            1512,
        ),
        (
            b"#include \"h.h\"\n",
            parted,
            b"units 1 pieces 0 strings 5 bytes 1552\n",
            1552,
        ),
        (two, b"", b"units 1 pieces 0 strings 5 bytes 1536\n", 1536),
    ] {
        let files = [
            (b"v.c".as_slice(), source),
            (b"h.h".as_slice(), header),
            (b"e.h".as_slice(), b"".as_slice()),
        ];
        check(&rt, rt.alloc(), &writes(&words, &files, out, size))?;
    }
    Ok(())
}

/// A header with so many runs of two definitions, between any two of which an empty header is included.
fn header_with_runs(alloc: Global, count: usize) -> Result<Vec<u8>, Fail> {
    let mut text = Vec::new(alloc);
    for _ in 0..count {
        text.extend_from_slice(b"#define A 1\n#define B 2\n#include \"e.h\"\n")?;
    }
    Ok(text)
}

#[test]
fn runs_past_the_most_pieces_stay_in_the_root(rt: HostRuntime) -> Result<(), Fail> {
    let header = header_with_runs(rt.alloc(), 16_385)?;
    let files = [
        (b"v.c".as_slice(), b"#include \"h.h\"\n".as_slice()),
        (b"h.h".as_slice(), header.as_slice()),
        (b"e.h".as_slice(), b"".as_slice()),
    ];
    let words = [b"record".as_slice(), b"-o", b"o", b"v.c"];
    let out = b"units 1 pieces 16384 strings 5 bytes 7734688\n";
    check(&rt, rt.alloc(), &writes(&words, &files, out, 7_734_688))
}

#[test]
fn options_that_are_given_once_may_not_be_repeated(rt: HostRuntime) -> Result<(), Fail> {
    for words in [
        [b"record".as_slice(), b"-o", b"o", b"a.c", b"-o", b"o"].as_slice(),
        &[b"record", b"--strx", b"-o", b"o", b"a.c", b"--strx"],
        &[b"record", b"--dwarf64", b"--dwarf64", b"-o", b"o", b"a.c"],
        &[b"record", b"a.c"],
        &[b"record", b"a.c", b"-o"],
        &[b"record", b"a.c", b"-o", b""],
        &[b"record", b"-o", b"a.c"],
        &[b"record", b"-o", b"o", b"a.c", b"b.c"],
        &[b"record", b"-o", b"o", b"--stry", b"a.c"],
        &[b"events", b"-o", b"o", b"a.c"],
        &[b"events", b"--strx", b"a.c"],
    ] {
        let case = ends(words, &ONE, Status::Usage, b"dwmac: usage\n");
        check(&rt, rt.alloc(), &case)?;
    }
    Ok(())
}

#[test]
fn refused_unit_leaves_the_file(rt: HostRuntime) -> Result<(), Fail> {
    for (text, err) in [
        (
            b"#undef __FILE__".as_slice(),
            b"dwmac: a.c:1: Predefined __FILE__\n".as_slice(),
        ),
        (b"#else\n", b"dwmac: a.c:1: Struct StrayElse\n"),
        (b"#if 1/0\n#endif\n", b"dwmac: a.c:1: Expr ZeroDivisor\n"),
        (b"#define A don't\n", b"dwmac: a.c:1: Def LoneQuote\n"),
        (
            b"\n#define A 1\n#define A 2\n",
            b"dwmac: a.c:3: Redefined A\n",
        ),
        (b"#include \"a.c\"\n", b"dwmac: a.c:1: IncludeDepth\n"),
        (b"#include <p.h>\n", b"dwmac: a.c:1: NoSuchFile p.h\n"),
        (b"#include p.h\n", b"dwmac: a.c:1: BadInclude\n"),
        (b"int i;\n/* open", b"dwmac: a.c:2: Lex OpenComment\n"),
        (b"#error no\n", b"dwmac: a.c:1: ErrorDirective\n"),
        (b"#line 0\n", b"dwmac: a.c:1: BadLine\n"),
        (b"#warning no\n", b"dwmac: a.c:1: Directive UnknownName\n"),
        (
            b"#define f(x) x\n#if f(1\n#endif\n",
            b"dwmac: a.c:2: Expand OpenCall f\n",
        ),
    ] {
        let files = [(b"a.c".as_slice(), text)];
        check(&rt, rt.alloc(), &ends(&PLAIN, &files, Status::Refused, err))?;
    }
    Ok(())
}

#[test]
fn missing_source_leaves_the_file(rt: HostRuntime) -> Result<(), Fail> {
    let words = [b"record".as_slice(), b"-o", b"o", b"b.c"];
    let err = b"dwmac: <start>:0: NoSuchFile b.c\n";
    check(&rt, rt.alloc(), &ends(&words, &ONE, Status::Refused, err))
}

const FAULT: &[u8] = b"dwmac: outside fault\n";

#[test]
fn failing_store_or_shelf_prints_nothing(rt: HostRuntime) -> Result<(), Fail> {
    let failed = ends(&PLAIN, &ONE, Status::Outside, FAULT);
    for case in [
        Recording {
            store_fails: &[1],
            ..failed
        },
        Recording {
            shelf_fails: &[1],
            ..failed
        },
    ] {
        check(&rt, rt.alloc(), &case)?;
    }
    Ok(())
}

#[test]
fn file_is_written_before_the_line_fails(rt: HostRuntime) -> Result<(), Fail> {
    let case = Recording {
        out_fails: &[1],
        status: Status::Outside,
        err: FAULT,
        ..writes(&PLAIN, &ONE, b"", 1504)
    };
    check(&rt, rt.alloc(), &case)
}
