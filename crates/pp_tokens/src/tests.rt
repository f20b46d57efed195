use crate::classes::is_identifier;
use crate::fault::LexFault;
use crate::lexing::{lex_file, lex_text};
use crate::line::{Line, Lines};
use crate::printing::print_tokens;
use crate::token::{Kind, Token, Tokens};
use mac_base::NoMemory;
use std::alloc::Global;
use std::test::Fail;

/// The letter of a kind in the tables below.
fn letter(kind: Kind) -> u8 {
    match kind {
        Kind::Identifier => b'I',
        Kind::Number => b'N',
        Kind::Char => b'C',
        Kind::Str => b'S',
        Kind::Punct => b'P',
        Kind::Header => b'H',
        Kind::LoneQuote => b'Q',
        Kind::Other => b'O',
    }
}

/// Each token as a blank or, where white space is before it, `~`, the letter of its kind and its text.
fn put_tokens(shown: &mut Vec<u8>, tokens: &Tokens) -> Result<(), NoMemory> {
    for token in tokens.as_slice() {
        shown.push(if token.space { b'~' } else { b' ' })?;
        shown.push(letter(token.kind))?;
        shown.extend_from_slice(token.text.as_slice())?;
    }
    Ok(())
}

/// Each line as the last digit of its number and its tokens.
fn shown_lines(alloc: Global, lines: &Lines) -> Result<Vec<u8>, NoMemory> {
    let mut shown = Vec::new(alloc);
    for line in lines.as_slice() {
        shown.push(b'0' + (line.number % 10) as u8)?;
        put_tokens(&mut shown, &line.tokens)?;
        shown.push(b';')?;
    }
    Ok(shown)
}

#[test]
fn files_are_cut_as_the_standard_says(rt: HostRuntime) -> Result<(), Fail> {
    let cases: [(&[u8], &[u8]); 41] = [
        (b"a+++b", b"1 Ia P++ P+ Ib;"),
        (b"x/**/y", b"1 Ix~Iy;"),
        (b"a //b\nc", b"1 Ia;2 Ic;"),
        (b"a //", b"1 Ia;"),
        (b"//a??/\nb\nc", b"3 Ic;"),
        (b"%:%:", b"1 P%:%:;"),
        (b"%:%", b"1 P%: P%;"),
        (b"<::", b"1 P<: P:;"),
        (b"...", b"1 P...;"),
        (b"..", b"1 P. P.;"),
        (b"1e+5", b"1 N1e+5;"),
        (b"0x1p-3", b"1 N0x1p-3;"),
        (b"1+5", b"1 N1 P+ N5;"),
        (b".5.5", b"1 N.5.5;"),
        (b"L'a'", b"1 CL'a';"),
        (b"u8\"x\"", b"1 Su8\"x\";"),
        (b"u8'x'", b"1 Iu8 C'x';"),
        (b"uu'x'", b"1 Iuu C'x';"),
        (b"''", b"1 Q' Q';"),
        (b"''a'", b"1 Q' C'a';"),
        (b"'a", b"1 Q' Ia;"),
        (b"\"a", b"1 Q\" Ia;"),
        (b"L\"a\nb\"", b"1 IL Q\" Ia;2 Ib Q\";"),
        (b"\"\\\"\"", b"1 S\"\\\"\";"),
        (b"\"\"", b"1 S\"\";"),
        (b"#include <a//b>\n", b"1 P# Iinclude~H<a//b>;"),
        (b"#include \"a\\\"", b"1 P# Iinclude~H\"a\\\";"),
        (b"%:include<a>", b"1 P%: Iinclude H<a>;"),
        (b"#include <a\n>", b"1 P# Iinclude~P< Ia;2 P>;"),
        (b"#include x <a>", b"1 P# Iinclude~Ix~P< Ia P>;"),
        (b"/*\n*/ # /**/ include /**/ <a>", b"2 P#~Iinclude~H<a>;"),
        (b"a\\\nb\nc", b"1 Iab;3 Ic;"),
        (b"a??/\r\nb", b"1 Iab;"),
        (b"/* *\\\n/ a /**\\\r\n/ b", b"2 Ia~Ib;"),
        (b"a\\\n", b"1 Ia;"),
        (b"a\r\nb\rc", b"1 Ia;2 Ib~Ic;"),
        (b"", b""),
        (b" /*a*/ //b\n\n", b""),
        (b"/*\n\n*/ a /*\n*/ b\nc", b"3 Ia~Ib;5 Ic;"),
        (b"??= ??( ??! ???/", b"1 P#~P[~P|~P? O\\;"),
        (b"@ \xc3\xa9 $x `", b"1 O@~I\xc3\xa9~I$x~O`;"),
    ];
    for (text, wanted) in cases {
        let lines = lex_file(rt.alloc(), text)?;
        let shown = shown_lines(rt.alloc(), &lines)?;
        assert_eq!(rt; shown.as_slice(), wanted);
    }
    Ok(())
}

#[test]
fn faults_name_the_first_line(rt: HostRuntime) -> Result<(), Fail> {
    assert_eq!(rt;
        lex_file(rt.alloc(), b"a\\\nb\n\0").err(),
        Some(LexFault::NulByte { line: 3 })
    );
    assert_eq!(rt;
        lex_file(rt.alloc(), b"/*\0").err(),
        Some(LexFault::NulByte { line: 1 })
    );
    assert_eq!(rt;
        lex_file(rt.alloc(), b"a\n/*\n//*/\n/*\n").err(),
        Some(LexFault::OpenComment { line: 4 })
    );
    assert_eq!(rt;
        lex_text(rt.alloc(), b"a\n/*").err(),
        Some(LexFault::OpenComment { line: 1 })
    );
    Ok(())
}

#[test]
fn printed_tokens_are_read_back(rt: HostRuntime) -> Result<(), Fail> {
    let cases: [(&[&[u8]], &[u8]); 12] = [
        (&[b"+", b"+"], b"+ +"),
        (&[b"a", b"b"], b"a b"),
        (&[b"a", b"+", b"1"], b"a+1"),
        (&[b".", b".", b"."], b". . ."),
        (&[b"%:", b"%", b":"], b"%:% :"),
        (&[b"/", b"/"], b"/ /"),
        (&[b"/", b"*"], b"/ *"),
        (&[b"L", b"'a'"], b"L 'a'"),
        (&[b"u", b"8"], b"u 8"),
        (&[b"1e", b"+", b"x"], b"1e +x"),
        (&[b"x  =\ny"], b"x = y"),
        (&[], b""),
    ];
    for (texts, wanted) in cases {
        let mut tokens = Vec::new(rt.alloc());
        for text in texts {
            for token in lex_text(rt.alloc(), text)?.into_vec() {
                tokens.push(token)?;
            }
        }
        let tokens = Tokens::from_vec(tokens);
        let printed = print_tokens(rt.alloc(), &tokens)?;
        assert_eq!(rt; printed.as_slice(), wanted);
        let again = lex_text(rt.alloc(), printed.as_slice())?;
        assert_eq!(rt; again.len(), tokens.len());
    }
    Ok(())
}

#[test]
fn copies_are_alike(rt: HostRuntime) -> Result<(), Fail> {
    let lines = lex_file(rt.alloc(), b"a 1\n'c' + b\n")?;
    let copied = lines.copy()?;
    let mut pushed = Lines::new(rt.alloc());
    for line in copied.into_vec() {
        let tokens = line.tokens.copy()?;
        let mut again = Tokens::new(rt.alloc());
        for token in tokens.as_slice() {
            again.push(token.copy()?)?;
        }
        pushed.push(Line {
            number: line.number,
            tokens: again,
        })?;
    }
    assert_eq!(rt; pushed.len(), 2);
    let shown = shown_lines(rt.alloc(), &pushed)?;
    assert_eq!(rt; shown.as_slice(), b"1 Ia~N1;2 C'c'~P+~Ib;".as_slice());
    Ok(())
}

#[test]
fn kinds_and_spellings_are_told(rt: HostRuntime) -> Result<(), Fail> {
    let tokens = lex_text(rt.alloc(), b"# ## %: %:%: a '")?;
    for token in tokens.as_slice() {
        assert_eq!(rt;
            token.is_hash(),
            token.is_spelled(b"#") || token.is_spelled(b"%:")
        );
        assert_eq!(rt;
            token.is_paste(),
            token.is_spelled(b"##") || token.is_spelled(b"%:%:")
        );
        assert_eq!(rt; token.is_punctuator(), token.is_hash() || token.is_paste());
        assert_eq!(rt; token.is_identifier(), is_identifier(token.text.as_slice()));
        assert_eq!(rt; token.is_lone_quote(), token.is_spelled(b"'"));
    }
    assert_eq!(rt; tokens.len(), 6);
    Ok(())
}
