use crate::{Conditions, Directive, ExprFault, StructFault, directive_of, resolve_defined};
use mac_base::{Frames, NoMemory, Place};
use macro_table::Table;
use pp_tokens::{lex_file, lex_text};
use std::alloc::Global;
use std::test::Fail;

/// The name of a directive, and the name that follows it.
fn named(directive: &Directive) -> (&[u8], &[u8]) {
    match directive {
        Directive::Text => (b"text", b""),
        Directive::Null => (b"null", b""),
        Directive::If => (b"if", b""),
        Directive::Ifdef(Some(name)) => (b"ifdef", name.as_slice()),
        Directive::Ifdef(None) => (b"ifdef", b""),
        Directive::Ifndef(Some(name)) => (b"ifndef", name.as_slice()),
        Directive::Ifndef(None) => (b"ifndef", b""),
        Directive::Elif => (b"elif", b""),
        Directive::Else => (b"else", b""),
        Directive::Endif => (b"endif", b""),
        Directive::Include => (b"include", b""),
        Directive::Define => (b"define", b""),
        Directive::Undef(Some(name)) => (b"undef", name.as_slice()),
        Directive::Undef(None) => (b"undef", b""),
        Directive::LineNumber => (b"line", b""),
        Directive::Error => (b"error", b""),
        Directive::Pragma => (b"pragma", b""),
        Directive::Unknown => (b"unknown", b""),
    }
}

#[test]
fn a_line_is_a_directive_by_its_first_two_tokens(rt: HostRuntime) -> Result<(), Fail> {
    let cases: [(&[u8], &[u8], &[u8]); 22] = [
        (b"x # if", b"text", b""),
        (b"#", b"null", b""),
        (b" # if 1", b"if", b""),
        (b"%:if 1", b"if", b""),
        (b"#ifdef A B", b"ifdef", b"A"),
        (b"#ifdef 1", b"ifdef", b""),
        (b"#ifdef defined", b"ifdef", b"defined"),
        (b"#ifndef\tA", b"ifndef", b"A"),
        (b"#ifndef", b"ifndef", b""),
        (b"#elif", b"elif", b""),
        (b"#else A", b"else", b""),
        (b"#endif /* A */ A", b"endif", b""),
        (b"#include <a.h>", b"include", b""),
        (b"#define A", b"define", b""),
        (b"#undef A", b"undef", b"A"),
        (b"#undef (A)", b"undef", b""),
        (b"#line 1", b"line", b""),
        (b"#error don't", b"error", b""),
        (b"#pragma once", b"pragma", b""),
        (b"#IF", b"unknown", b""),
        (b"# 1 \"a.c\"", b"unknown", b""),
        (b"## if", b"text", b""),
    ];
    for (source, word, name) in cases {
        let lines = lex_file(rt.alloc(), source)?;
        for line in lines.as_slice() {
            let directive = directive_of(line)?;
            let said = named(&directive);
            assert_eq!(rt; said.0, word);
            assert_eq!(rt; said.1, name);
        }
    }
    Ok(())
}

/// A table in which `A` is defined.
fn table_of_a(alloc: Global) -> Result<Table, NoMemory> {
    let mut table = Table::new(alloc);
    let place = Place {
        frames: Frames::new(alloc),
        line: 1,
    };
    table.define(b"A 0", &place)?;
    Ok(table)
}

#[test]
fn defined_is_one_or_zero(rt: HostRuntime) -> Result<(), Fail> {
    let table = table_of_a(rt.alloc())?;
    let cases: [(&[u8], &[u8]); 9] = [
        (b"defined A", b"1"),
        (b"defined B", b"0"),
        (b"defined(A)+defined ( B )", b"1+0"),
        (b"defined __LINE__-defined(__FILE__)", b"1-1"),
        (b"defined defined", b"0"),
        (b"A B", b"AB"),
        (b"f(defined A)", b"f(1)"),
        (b"defined A B", b"1B"),
        (b"", b""),
    ];
    for (source, wanted) in cases {
        let tokens = lex_text(rt.alloc(), source)?;
        let resolved = resolve_defined(rt.alloc(), &tokens, &table)?;
        let mut text = Vec::new(rt.alloc());
        for token in resolved.as_slice() {
            text.extend_from_slice(token.text.as_slice())?;
        }
        assert_eq!(rt; text.as_slice(), wanted);
    }
    Ok(())
}

#[test]
fn defined_needs_a_name(rt: HostRuntime) -> Result<(), Fail> {
    let table = table_of_a(rt.alloc())?;
    let cases: [&[u8]; 7] = [
        b"defined",
        b"defined 1",
        b"defined (",
        b"defined (A",
        b"defined (A B)",
        b"defined ((A))",
        b"defined A || defined ()",
    ];
    for source in cases {
        let tokens = lex_text(rt.alloc(), source)?;
        let resolved = resolve_defined(rt.alloc(), &tokens, &table);
        assert!(rt; matches!(resolved, Err(ExprFault::Syntax)));
    }
    Ok(())
}

#[test]
fn one_group_of_a_section_is_taken(rt: HostRuntime) -> Result<(), Fail> {
    let mut open = Conditions::new(rt.alloc());
    let cases: [(Directive, bool, bool, bool); 10] = [
        (Directive::If, false, true, false),
        (Directive::If, true, false, false),
        (Directive::Elif, true, false, false),
        (Directive::Else, true, false, false),
        (Directive::Endif, true, false, false),
        (Directive::Elif, true, true, true),
        (Directive::Text, true, false, true),
        (Directive::Elif, true, false, false),
        (Directive::Else, true, false, false),
        (Directive::Endif, true, false, true),
    ];
    for (directive, answer, due, active) in cases {
        assert!(rt; open.due(&directive) == due);
        open.turn(&directive, 7, answer)?;
        assert!(rt; open.active() == active);
    }
    Ok(())
}

#[test]
fn what_breaks_the_structure_is_refused(rt: HostRuntime) -> Result<(), Fail> {
    let mut open = Conditions::new(rt.alloc());
    assert!(rt; open.turn(&Directive::Else, 1, true) == Err(StructFault::StrayElse));
    assert!(rt; open.turn(&Directive::Elif, 1, true) == Err(StructFault::StrayElif));
    assert!(rt; open.turn(&Directive::Endif, 1, true) == Err(StructFault::StrayEndif));
    open.turn(&Directive::If, 2, false)?;
    open.turn(&Directive::Else, 3, true)?;
    assert!(rt; open.turn(&Directive::Else, 4, true) == Err(StructFault::ElseAfterElse));
    assert!(rt; open.turn(&Directive::Elif, 4, true) == Err(StructFault::ElifAfterElse));
    assert!(rt; open.depth() == 1);
    assert!(rt; open.open_line() == Some(2));
    Ok(())
}
