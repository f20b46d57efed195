use crate::{Def, DefFault, TextFault, def_of_text, parse_define, same, text_of};
use pp_tokens::{LexFault, lex_file};
use std::alloc::Global;
use std::test::Fail;

/// What is after `#define`, and the text that gcc 12.2 writes of it.
#[test]
fn texts_are_those_of_gcc(rt: HostRuntime) -> Result<(), Fail> {
    let cases: [(&[u8], &[u8]); 16] = [
        (b"OBJ_LIKE (1-1)", b"OBJ_LIKE (1-1)"),
        (
            b"OBJ_LIKE /* white space */  (1-1) /* other */",
            b"OBJ_LIKE (1-1)",
        ),
        (b"FUNC_LIKE(a)   ( a )", b"FUNC_LIKE(a) ( a )"),
        (
            b"FUNC_LIKE( a )( /* note */ a /* other\n */ )",
            b"FUNC_LIKE(a) ( a )",
        ),
        (b"t(x,y,z) x ## y ## z", b"t(x,y,z) x ## y ## z"),
        (b"h g(~", b"h g(~"),
        (
            b"debug(...) fprintf(stderr, __VA_ARGS__)",
            b"debug(...) fprintf(stderr, __VA_ARGS__)",
        ),
        (
            b"report(test, ...) ((test)?puts(#test): printf(__VA_ARGS__))",
            b"report(test,...) ((test)?puts(#test): printf(__VA_ARGS__))",
        ),
        (b"EMPTY", b"EMPTY "),
        (b"hash_hash # ## #", b"hash_hash # ## #"),
        (b"A+1", b"A +1"),
        (b"D a..b", b"D a..b"),
        (b"S \"x y\" 'c'  L\"s\"", b"S \"x y\" 'c' L\"s\""),
        (b"E0() x", b"E0() x"),
        (b"N 1e+5-.5", b"N 1e+5-.5"),
        (b"empty_args(  ) ", b"empty_args() "),
    ];
    for (source, wanted) in cases {
        let def = def_of_text(rt.alloc(), source)?;
        let text = text_of(rt.alloc(), &def)?;
        assert_eq!(rt; text.as_slice(), wanted);
        assert!(rt; same(&def, &def_of_text(rt.alloc(), text.as_slice())?));
    }
    Ok(())
}

#[test]
fn the_first_fault_is_told(rt: HostRuntime) -> Result<(), Fail> {
    let cases: [(&[u8], DefFault); 17] = [
        (b"", DefFault::NoName),
        (b"\"x\"", DefFault::NoName),
        (b"__VA_ARGS__", DefFault::Reserved),
        (b"defined(", DefFault::Reserved),
        (b"Z(", DefFault::ParamSyntax),
        (b"f(x", DefFault::ParamSyntax),
        (b"f(1) '", DefFault::ParamSyntax),
        (b"f(x,x", DefFault::RepeatedParam),
        (b"f(x,...,x)", DefFault::ParamSyntax),
        (b"f(__VA_ARGS__", DefFault::VaArgs),
        (b"A don't __VA_ARGS__", DefFault::LoneQuote),
        (b"A ## __VA_ARGS__", DefFault::VaArgs),
        (b"f(x) #y ##", DefFault::EdgePaste),
        (b"f(x) %:%:x", DefFault::EdgePaste),
        (b"f() #x", DefFault::LoneHash),
        (b"f(x) # __VA_ARGS", DefFault::LoneHash),
        (b"f(x,...) #", DefFault::LoneHash),
    ];
    for (source, wanted) in cases {
        let fault = def_of_text(rt.alloc(), source).err();
        assert_eq!(rt; fault, Some(TextFault::Def(wanted)));
    }
    assert_eq!(rt;
        def_of_text(rt.alloc(), b"A /*").err(),
        Some(TextFault::Lex(LexFault::OpenComment { line: 1 }))
    );
    assert_eq!(rt;
        def_of_text(rt.alloc(), b"A\0").err(),
        Some(TextFault::Lex(LexFault::NulByte { line: 1 }))
    );
    Ok(())
}

/// The definition of the one directive of a file.
fn directive(alloc: Global, file: &[u8]) -> Result<Def, Fail> {
    let lines = lex_file(alloc, file)?.into_vec();
    match lines.as_slice() {
        [line] => match line.tokens.as_slice() {
            [_, _, tokens @ ..] => Ok(parse_define(alloc, tokens)?),
            _ => Ok(parse_define(alloc, &[])?),
        },
        _ => Ok(parse_define(alloc, &[])?),
    }
}

/// C17 6.10.3.5, example 6, and a digraph.
#[test]
fn definitions_are_the_same_by_spelling_and_separation(rt: HostRuntime) -> Result<(), Fail> {
    let alloc = rt.alloc();
    let first = directive(alloc, b"#define FUNC_LIKE(a)   ( a )\n")?;
    let cases: [(&[u8], bool); 6] = [
        (
            b"#define FUNC_LIKE( a )( /* note */ \\\n a /* other\n */ )",
            true,
        ),
        (b"#define FUNC_LIKE(a) ( a )", true),
        (b"#define FUNC_LIKE(b) ( a )", false),
        (b"#define FUNC_LIKE(b) ( b )", false),
        (b"#define FUNC_LIKE(a) (a)", false),
        (b"#define FUNC_LIKE (a) ( a )", false),
    ];
    for (file, wanted) in cases {
        assert_eq!(rt; same(&first, &directive(alloc, file)?), wanted);
    }
    let hash = directive(alloc, b"#define s(x) #x")?;
    assert!(rt; !same(&hash, &directive(alloc, b"#define s(x) %:x")?));
    Ok(())
}
