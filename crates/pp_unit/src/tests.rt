ghost use Rattle.std.specs.Prelude.{◌<◌, length, None};

use crate::{Command, Commands, PpFault, UnitSpec, preprocess};
use mac_base::{Bytes, Event, NoMemory, Paths};
use mac_io::{Fetched, HeaderStore, Headers, MapStore, SearchPath, are_distinct, each_is_a_byte};
use std::alloc::Global;
use std::process::Abort;
use std::test::Fail;

fn bytes(alloc: Global, text: &[u8]) -> Result<Bytes, NoMemory> {
    Bytes::from_slice(alloc, text)
}

fn paths(alloc: Global, texts: &[&[u8]]) -> Result<Paths, NoMemory> {
    let mut all = Paths::new(alloc);
    for text in texts {
        all.push(bytes(alloc, text)?)?;
    }
    Ok(all)
}

/// A store with these files.
fn store(
    rt: &impl Abort,
    alloc: Global,
    names: &[&[u8]],
    contents: &[&[u8]],
    fails: &[u64],
) -> Result<MapStore, Fail> {
    let names = paths(alloc, names)?;
    let contents = paths(alloc, contents)?;
    assert!(rt; are_distinct(&names));
    assert_eq!(rt; names.len(), contents.len());
    Ok(MapStore::new(alloc, names, contents, Vec::from_slice(alloc, fails)?))
}

/// A store in which every name is another file each time that it asks.
#[derive(Drop)]
struct Changing {
    /// The files that are to come, the next one last.
    left: Vec<Bytes>,
}

impl HeaderStore for Changing {
    ghost files = { λ _. None };

    ghost count = { λ _. 0 };

    fn fetch(&mut self, _name: &[u8], limit: usize, into: &mut Vec<u8>) -> Fetched {
        let Some(file) = self.left.pop() else {
            return Fetched::Absent;
        };
        each_is_a_byte(file.as_slice());
        if file.len() > limit {
            return Fetched::TooLong;
        }
        match into.extend_from_slice(file.as_slice()) {
            Ok(()) => Fetched::Found,
            Err(_) => Fetched::NoMemory,
        }
    }

    fn faults(&self) -> u64 {
        0
    }
}

/// Puts an event at the end of a text.
fn put(text: &mut Vec<u8>, event: &Event) -> Result<(), NoMemory> {
    match event {
        Event::Define { line: _, text: def } => {
            text.push(b'+')?;
            text.extend_from_slice(def.as_slice())?;
        }
        Event::Undef { line: _, name } => {
            text.push(b'-')?;
            text.extend_from_slice(name.as_slice())?;
        }
        Event::Start { line: _, file } => {
            let digit = (*file % 10) as u8;
            text.push(b'<')?;
            text.push(b'0'.saturating_add(digit))?;
        }
        Event::End => text.push(b'>')?,
    }
    Ok(())
}

/// A translation unit whose primary file is `a.c`.
fn unit(alloc: Global, defines: &[&[u8]], undefs: &[&[u8]]) -> Result<UnitSpec, NoMemory> {
    let mut commands = Commands::new(alloc);
    for word in defines {
        commands.push(Command::Define(bytes(alloc, word)?))?;
    }
    for word in undefs {
        commands.push(Command::Undef(bytes(alloc, word)?))?;
    }
    Ok(UnitSpec {
        source: bytes(alloc, b"a.c")?,
        commands,
    })
}

/// The text of what the translation unit comes to: an event each, or the fault.
fn said(alloc: Global, path: &mut SearchPath, spec: &UnitSpec) -> Result<Vec<u8>, Fail>
    requires { 0 < length (⟦<SearchPath as Headers>⟧.stores path.old) }
{
    let mut text = Vec::new(alloc);
    match preprocess(alloc, path, spec) {
        Ok(events) => {
            for event in events.list.as_slice() {
                put(&mut text, event)?;
            }
        }
        Err(fault) => {
            let PpFault { place, path, what } = fault;
            text.extend_from_slice(path.as_slice())?;
            let line = format!(in alloc; ":{}: {}", place.line, what)?;
            text.extend_from_slice(line.as_bytes())?;
        }
    }
    Ok(text)
}

/// Checks what a translation unit comes to, after what is predefined.
fn check_over(
    rt: &impl Abort,
    alloc: Global,
    path: &mut SearchPath,
    spec: &UnitSpec,
    wanted: &[u8],
) -> Result<(), Fail>
    requires { 0 < length (⟦<SearchPath as Headers>⟧.stores path.old) }
{
    let text = said(alloc, path, spec)?;
    let front = b"+__STDC__ 1+__STDC_HOSTED__ 1+__STDC_VERSION__ 201710L".as_slice();
    assert_eq!(rt; text.strip_prefix(front).unwrap_or(text.as_slice()), wanted);
    Ok(())
}

/// Checks what a translation unit comes to whose primary file is `a.c`, beside `p.h`, `t.h`, `d/u.h` and `d/q.h`.
fn check(
    rt: &impl Abort,
    alloc: Global,
    content: &[u8],
    spec: &UnitSpec,
    fails: &[u64],
    wanted: &[u8],
) -> Result<(), Fail> {
    let mut path = SearchPath::new(alloc);
    let first = store(
        rt,
        alloc,
        &[b"a.c", b"p.h", b"t.h", b"d/u.h", b"d/q.h"],
        &[
            content,
            b"#pragma once\n#define A 1\n",
            b"#ifdef T\n#undef T\n#else\n#define T 1\n#endif\n",
            b"#include \"q.h\"\n",
            b"#undef Q\n",
        ],
        fails,
    )?;
    let second = store(rt, alloc, &[b"k.h"], &[b"#define K 1\n"], &[])?;
    assert!(rt;
        path.push(bytes(alloc, b"")?, Box::new(alloc, first)?)
            .is_ok()
    );
    assert!(rt;
        path.push(bytes(alloc, b"inc")?, Box::new(alloc, second)?)
            .is_ok()
    );
    check_over(rt, alloc, &mut path, spec, wanted)
}

#[test]
fn lines_of_one_file_are_events(rt: HostRuntime) -> Result<(), Fail> {
    let alloc = rt.alloc();
    let spec = unit(alloc, &[], &[])?;
    for (content, wanted) in [
        (b"#define N 28\n".as_slice(), b"<0+N 28>".as_slice()),
        (b"#undef __FILE__\n", b"a.c:1: Predefined __FILE__"),
        (
            b"#define A 1\n#define A  1\n#define A 2\n",
            b"a.c:3: Redefined A",
        ),
        (b"#else\n", b"a.c:1: Struct StrayElse"),
        (b"\n#ifdef X\n", b"a.c:2: Struct OpenIf"),
        (
            b"#ifdef X\n#error\n#else\n#define X 1\n#endif\n",
            b"<0+X 1>",
        ),
        (b"#line 0\n", b"a.c:1: BadLine"),
        (
            b"#define L 7 \"f\"\n#line L\n#error\n",
            b"a.c:3: ErrorDirective",
        ),
        (b"#define A don't\n", b"a.c:1: Def LoneQuote"),
        (b"#warning\n", b"a.c:1: Directive UnknownName"),
    ] {
        check(&rt, alloc, content, &spec, &[], wanted)?;
    }
    Ok(())
}

#[test]
fn words_come_before_the_file(rt: HostRuntime) -> Result<(), Fail> {
    let alloc = rt.alloc();
    let twice = unit(alloc, &[b"A=1", b"A=2"], &[])?;
    check(&rt, alloc, b"", &twice, &[], b":0: Redefined A")?;
    let gone = unit(alloc, &[b"X=2", b"Y"], &[b"X"])?;
    check(&rt, alloc, b"", &gone, &[], b"+X 2+Y 1-X<0>")?;
    let bad = unit(alloc, &[], &[b" X"])?;
    check(&rt, alloc, b"", &bad, &[], b":0: Def NoName")
}

#[test]
fn headers_are_included(rt: HostRuntime) -> Result<(), Fail> {
    let alloc = rt.alloc();
    let spec = unit(alloc, &[], &[])?;
    for (content, wanted) in [
        (
            b"#include \"p.h\"\n#include \"p.h\"\n".as_slice(),
            b"<0<1+A 1>>".as_slice(),
        ),
        (b"#define H \"p.h\"\n#include H\n", b"<0+H \"p.h\"<1+A 1>>"),
        (b"#include <k.h>\n", b"<0<1+K 1>>"),
        (
            b"#include \"t.h\"\n#include \"t.h\"\n#include \"t.h\"\n",
            b"<0<1+T 1><1-T><1+T 1>>",
        ),
        (b"#include <p.h>\n", b"a.c:1: NoSuchFile p.h"),
        (b"#include \"d/u.h\"\n", b"<0<1<2-Q>>>"),
        (b"#include \"a.c\"\n", b"a.c:1: IncludeDepth"),
        (b"#include\n", b"a.c:1: BadInclude"),
    ] {
        check(&rt, alloc, content, &spec, &[], wanted)?;
    }
    check(
        &rt,
        alloc,
        b"#include \"p.h\"\n",
        &spec,
        &[2],
        b"a.c:1: StoreFault",
    )
}

#[test]
fn a_header_that_was_changed_gives_its_new_lines(rt: HostRuntime) -> Result<(), Fail> {
    let alloc = rt.alloc();
    let spec = unit(alloc, &[], &[])?;
    let source = b"#include <t.h>\n#include <t.h>\n#include <t.h>\n".as_slice();
    let first = store(&rt, alloc, &[b"a.c"], &[source], &[])?;
    let left = paths(alloc, &[b"#define A 1\n", b"#undef A\n", b"#define A 1\n"])?;
    let second = Changing {
        left: left.into_vec(),
    };
    let mut path = SearchPath::new(alloc);
    assert!(rt;
        path.push(bytes(alloc, b"")?, Box::new(alloc, first)?)
            .is_ok()
    );
    assert!(rt;
        path.push(bytes(alloc, b"inc")?, Box::new(alloc, second)?)
            .is_ok()
    );
    check_over(&rt, alloc, &mut path, &spec, b"<0<1+A 1><1-A><1+A 1>>")
}

#[test]
fn conditions_decide_groups(rt: HostRuntime) -> Result<(), Fail> {
    let alloc = rt.alloc();
    let spec = unit(alloc, &[b"X=2"], &[])?;
    for (content, wanted) in [
        (
            b"#if 1\n#elif 1/0\n#endif\n".as_slice(),
            b"+X 2<0>".as_slice(),
        ),
        (b"#if 1/0\n#endif\n", b"a.c:1: Expr ZeroDivisor"),
        (b"#if 1 || 1/0\n#define D 1\n#endif\n", b"+X 2<0+D 1>"),
        (
            b"#if -1 > 0u && defined X\n#define D 1\n#endif\n",
            b"+X 2<0+D 1>",
        ),
        (
            b"#if X == 1\n#error\n#elif X == 2\n#define D 1\n#else\n#error\n#endif\n",
            b"+X 2<0+D 1>",
        ),
        (
            b"#if 0\ndon't\n#if\n#else\n#endif\n#else\n#undef Y\n#endif\n",
            b"+X 2<0-Y>",
        ),
    ] {
        check(&rt, alloc, content, &spec, &[], wanted)?;
    }
    Ok(())
}

#[test]
fn nested_parentheses_take_no_stack(rt: HostRuntime) -> Result<(), Fail> {
    let alloc = rt.alloc();
    let spec = unit(alloc, &[], &[])?;
    let mut content = Vec::from_slice(alloc, b"#if ")?;
    for _index in 0..100_000u32 {
        content.push(b'(')?;
    }
    content.push(b'1')?;
    for _index in 0..100_000u32 {
        content.push(b')')?;
    }
    content.extend_from_slice(b"\n#define D 1\n#endif\n")?;
    check(&rt, alloc, content.as_slice(), &spec, &[], b"<0+D 1>")
}
