use crate::{ExpandFault, Here, expand, expand_once};
use mac_base::{Bytes, Frames, NoMemory, Place};
use macro_table::Table;
use pp_tokens::{Tokens, lex_text};
use std::alloc::Global;
use std::test::Fail;

/// A table of these definitions.
fn table_of(alloc: Global, defs: &[&[u8]]) -> Result<Table, NoMemory> {
    let mut table = Table::new(alloc);
    for text in defs {
        let place = Place {
            frames: Frames::new(alloc),
            line: 0,
        };
        table.define(*text, &place)?;
    }
    Ok(table)
}

/// The tokens, with a space where white space is before one.
fn written(alloc: Global, tokens: &Tokens) -> Result<Vec<u8>, NoMemory> {
    let mut text = Vec::new(alloc);
    for token in tokens.as_slice() {
        if token.space {
            text.push(b' ')?;
        }
        text.extend_from_slice(token.text.as_slice())?;
    }
    Ok(text)
}

/// A word and names.
fn said(alloc: Global, word: &[u8], names: &[&[u8]]) -> Result<Vec<u8>, NoMemory> {
    let mut text = Vec::new(alloc);
    text.extend_from_slice(word)?;
    for name in names {
        text.push(b' ')?;
        text.extend_from_slice(*name)?;
    }
    Ok(text)
}

/// The kind of a fault and what it names.
fn fault_text(alloc: Global, fault: &ExpandFault) -> Result<Vec<u8>, NoMemory> {
    match fault {
        ExpandFault::OpenCall { name } => said(alloc, b"OpenCall", [name.as_slice()].as_slice()),
        ExpandFault::ArgCount { name, got } => {
            let digit = [b'0' + (*got % 10) as u8];
            said(
                alloc,
                b"ArgCount",
                [name.as_slice(), digit.as_slice()].as_slice(),
            )
        }
        ExpandFault::BadPaste { left, right } => said(
            alloc,
            b"BadPaste",
            [left.as_slice(), right.as_slice()].as_slice(),
        ),
        ExpandFault::BadString { name } => said(alloc, b"BadString", [name.as_slice()].as_slice()),
        ExpandFault::BadDefinition { name } => said(
            alloc,
            b"BadDefinition",
            [name.as_slice()].as_slice(),
        ),
        ExpandFault::LoneQuote => said(alloc, b"LoneQuote", [].as_slice()),
        ExpandFault::TooLong => said(alloc, b"TooLong", [].as_slice()),
        ExpandFault::NoMemory => said(alloc, b"NoMemory", [].as_slice()),
    }
}

/// What a text expands to, or its fault.
fn answer(alloc: Global, defs: &[&[u8]], text: &[u8]) -> Result<Vec<u8>, Fail> {
    let table = table_of(alloc, defs)?;
    let file = Bytes::from_slice(alloc, b"m.c".as_slice())?;
    let here = Here { line: 3, file };
    let tokens = lex_text(alloc, text)?;
    match expand(alloc, &table, &here, &tokens) {
        Ok(list) => Ok(written(alloc, &list)?),
        Err(fault) => Ok(fault_text(alloc, &fault)?),
    }
}

fn expands(alloc: Global, defs: &[&[u8]], text: &[u8], wanted: &[u8]) -> Result<bool, Fail> {
    let found = answer(alloc, defs, text)?;
    Ok(found.as_slice() == wanted)
}

/// The same at a single level.
fn once(alloc: Global, defs: &[&[u8]], text: &[u8], wanted: &[u8]) -> Result<bool, Fail> {
    let table = table_of(alloc, defs)?;
    let here = Here {
        line: 3,
        file: Bytes::new(alloc),
    };
    let tokens = lex_text(alloc, text)?;
    let found = match expand_once(alloc, &table, &here, &tokens) {
        Ok(list) => written(alloc, &list)?,
        Err(fault) => fault_text(alloc, &fault)?,
    };
    Ok(found.as_slice() == wanted)
}

const THREE: [&[u8]; 12] = [
    b"x 2",
    b"f(a) f(x * (a))",
    b"g f",
    b"z z[0]",
    b"h g(~",
    b"m(a) a(w)",
    b"w 0,1",
    b"t(a) a",
    b"p() int",
    b"q(x) x",
    b"r(x,y) x ## y",
    b"str(x) # x",
];

#[test]
fn example_3_of_the_standard(rt: HostRuntime) -> Result<(), Fail> {
    let alloc = rt.alloc();
    let three = THREE.as_slice();
    assert!(rt;
        expands(
            alloc,
            three,
            b"f(y+1) + f(f(z)) % t(t(g)(0) + t)(1);",
            b"f(2 * (y+1)) + f(2 * (f(2 * (z[0])))) % f(2 * (0)) + t(1);"
        )?
    );
    assert!(rt;
        expands(
            alloc,
            three,
            b"g(x+(3,4)-w) | h 5) & m (f)^m(m);",
            b"f(2 * (2+(3,4)-0,1)) | f(2 * (~ 5)) & f(2 * (0,1))^m(0,1);"
        )?
    );
    assert!(rt;
        expands(
            alloc,
            three,
            b"p() i[q()] = { q(1), r(2,3), r(4,), r(,5), r(,) };",
            b"int i[] = { 1, 23, 4, 5, };"
        )?
    );
    assert!(rt;
        expands(
            alloc,
            three,
            b"char c[2][6] = { str(hello), str() };",
            b"char c[2][6] = { \"hello\", \"\" };"
        )?
    );
    Ok(())
}

#[test]
fn pastes_of_the_standard(rt: HostRuntime) -> Result<(), Fail> {
    let alloc = rt.alloc();
    let hashes: [&[u8]; 4] = [
        b"hash_hash # ## #",
        b"mkstr(a) # a",
        b"in_between(a) mkstr(a)",
        b"join(c,d) in_between(c hash_hash d)",
    ];
    assert!(rt; expands(alloc, hashes.as_slice(), b"join(x, y)", b"\"x ## y\"")?);
    let five: [&[u8]; 1] = [b"t(x,y,z) x ## y ## z"];
    assert!(rt;
        expands(
            alloc,
            five.as_slice(),
            b"int j[] = { t(1,2,3), t(,4,5), t(6,,7), t(8,9,), t(10,,), t(,11,), t(,,12), t(,,) };",
            b"int j[] = { 123, 45, 67, 89, 10, 11, 12, };"
        )?
    );
    Ok(())
}

#[test]
fn hide_sets_travel(rt: HostRuntime) -> Result<(), Fail> {
    let alloc = rt.alloc();
    let parentheses: [&[u8]; 2] = [b"f(x) x", b"LP ("];
    assert!(rt; expands(alloc, parentheses.as_slice(), b"f LP 1 )", b"f ( 1 )")?);
    let nested: [&[u8]; 2] = [b"f(a) a*g", b"g(a) f(a)"];
    assert!(rt; expands(alloc, nested.as_slice(), b"f(2)(9)", b"2*9*g")?);
    let travels: [&[u8]; 4] = [b"A g E (1)", b"g(x) A", b"E", b"i(x) x"];
    assert!(rt; expands(alloc, travels.as_slice(), b"i(A)", b"A")?);
    Ok(())
}

const SMALL: [&[u8]; 11] = [
    b"f(x) x",
    b"h(a,b) a##b",
    b"s(x) #x",
    b"HH(x,y) x ## ## y",
    b"v(x,...) [x|__VA_ARGS__]",
    b"w(...) #__VA_ARGS__",
    b"A 1",
    b"Z(",
    b"k(x) #x x##x x",
    b"two(x,y) y x",
    b"hash(x) # # x",
];

#[test]
fn faults(rt: HostRuntime) -> Result<(), Fail> {
    let alloc = rt.alloc();
    let small = SMALL.as_slice();
    assert!(rt; expands(alloc, small, b"f(1", b"OpenCall f")?);
    assert!(rt; expands(alloc, small, b"f(1,2)", b"ArgCount f 2")?);
    assert!(rt; expands(alloc, small, b"h(+,*)", b"BadPaste + *")?);
    assert!(rt; expands(alloc, small, b"s(\\)", b"BadString s")?);
    assert!(rt; expands(alloc, small, b"Z", b"BadDefinition Z")?);
    assert!(rt; expands(alloc, small, b"s(Z) w(f(,", b"OpenCall w")?);
    assert!(rt; expands(alloc, small, b"HH(a,b)", b"BadPaste a ##")?);
    assert!(rt; expands(alloc, small, b"don't", b"LoneQuote")?);
    assert!(rt; expands(alloc, small, b"two(Z,f(1)", b"OpenCall two")?);
    assert!(rt; expands(alloc, small, b"two(Z,f())", b"BadDefinition Z")?);
    assert!(rt; expands(alloc, small, b"hash(1)", b"BadDefinition hash")?);
    Ok(())
}

#[test]
fn arguments(rt: HostRuntime) -> Result<(), Fail> {
    let alloc = rt.alloc();
    let small = SMALL.as_slice();
    assert!(rt; expands(alloc, small, b"A+A __LINE__ __FILE__", b"1+1 3 \"m.c\"")?);
    assert!(rt; expands(alloc, small, b"HH(,b)", b"## b")?);
    assert!(rt;
        expands(
            alloc,
            small,
            b"v(1,2,3) v(1) w(a, \"b\") w()",
            b"[1|2,3] [1|] \"a, \\\"b\\\"\" \"\""
        )?
    );
    assert!(rt; expands(alloc, small, b"k(A)", b"\"A\" AA 1")?);
    assert!(rt; expands(alloc, small, b"f(f(f(f)))(2) s(Z) f", b"f(2) \"Z\" f")?);
    Ok(())
}

#[test]
fn a_single_level(rt: HostRuntime) -> Result<(), Fail> {
    let alloc = rt.alloc();
    let defs: [&[u8]; 3] = [b"ADD(x) (M + x)", b"M 42", b"S(x) #x x"];
    let defs = defs.as_slice();
    assert!(rt; once(alloc, defs, b"ADD(1)", b"(M + 1)")?);
    assert!(rt;
        once(
            alloc,
            defs,
            b"M ADD(M) S( ADD(1) ) ADD",
            b"42 (M + M) \"ADD(1)\" ADD(1) ADD"
        )?
    );
    assert!(rt; once(alloc, defs, b"M ADD(1", b"OpenCall ADD")?);
    assert!(rt; once(alloc, defs, b"__LINE__ 'M", b"LoneQuote")?);
    Ok(())
}

/// `D0` is `x x`, and each `Dk` is twice the one before it.
fn doubling(alloc: Global, levels: u8) -> Result<Table, NoMemory> {
    let mut table = table_of(alloc, [b"D0 x x".as_slice()].as_slice())?;
    for level in 1..levels {
        let place = Place {
            frames: Frames::new(alloc),
            line: 0,
        };
        let before = level.saturating_sub(1);
        let text = format!(in alloc; "D{level} D{before} D{before}")?;
        table.define(text.as_bytes(), &place)?;
    }
    Ok(table)
}

#[test]
fn work_is_bounded(rt: HostRuntime) -> Result<(), Fail> {
    let alloc = rt.alloc();
    let table = doubling(alloc, 22)?;
    let here = Here {
        line: 0,
        file: Bytes::new(alloc),
    };
    let most = lex_text(alloc, b"D20")?;
    let list = expand(alloc, &table, &here, &most)?;
    assert_eq!(rt; list.len(), 2_097_152);
    let more = lex_text(alloc, b"D21")?;
    let refused = expand(alloc, &table, &here, &more);
    assert!(rt; matches!(refused, Err(ExpandFault::TooLong)));
    Ok(())
}

#[test]
fn calls_nest_deep(rt: HostRuntime) -> Result<(), Fail> {
    let alloc = rt.alloc();
    let mut text = Vec::new(alloc);
    for _ in 0..20_000 {
        text.extend_from_slice(b"I(")?;
    }
    text.push(b'1')?;
    for _ in 0..20_000 {
        text.push(b')')?;
    }
    let found = answer(alloc, [b"I(x) x".as_slice()].as_slice(), text.as_slice())?;
    assert!(rt; found.as_slice() == b"1".as_slice());
    Ok(())
}
