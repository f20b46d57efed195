use crate::{ExprFault, evaluate};
use mac_base::Bytes;
use pp_tokens::{Kind, Token, Tokens, lex_text};
use std::alloc::Global;
use std::test::Fail;

/// What a condition comes to.
fn answer(alloc: Global, text: &[u8]) -> Result<Result<bool, ExprFault>, Fail> {
    let tokens = lex_text(alloc, text)?;
    Ok(evaluate(alloc, &tokens))
}

/// The first of the conditions that isn't true.
fn first_untrue<'a>(alloc: Global, cases: &[&'a [u8]]) -> Result<Option<&'a [u8]>, Fail> {
    for text in cases {
        if answer(alloc, *text)? != Ok(true) {
            return Ok(Some(*text));
        }
    }
    Ok(None)
}

/// Whether each of the conditions has this fault.
fn all_have(alloc: Global, cases: &[&[u8]], fault: ExprFault) -> Result<bool, Fail> {
    for text in cases {
        if answer(alloc, *text)? != Err(fault) {
            return Ok(false);
        }
    }
    Ok(true)
}

#[test]
fn operators_bind_and_group_as_in_the_standard(rt: HostRuntime) -> Result<(), Fail> {
    let cases: [&[u8]; 13] = [
        b"(2+3)*4==20",
        b"2+3*4==14",
        b"10-3-2==5",
        b"100/10/5==2",
        b"1?2:(3/0)",
        b"(0?1:0?2:3)==3",
        b"(1?0:1?2:3)==0",
        b"1||0&&0",
        b"(1|6^3&5)==(1|(6^(3&5)))",
        b"(1<2==2>1)==1",
        b"(1<<2+1)==8",
        b"- -1 == 1 && !!5 == 1 && ~-1 == 0 && -~+1 == 2",
        b"name==0 && sizeof==0 && true==0",
    ];
    assert!(rt; first_untrue(rt.alloc(), cases.as_slice())?.is_none());
    Ok(())
}

#[test]
fn what_is_skipped_has_no_fault(rt: HostRuntime) -> Result<(), Fail> {
    let cases: [&[u8]; 7] = [
        b"1||1/0",
        b"!(0&&1/0)",
        b"1?2:(3/0)",
        b"0?1<<64:1",
        b"1||(1/0||2/0)",
        b"(0&&9223372036854775807+1)==0",
        b"1?1:1?1/0:1/0",
    ];
    assert!(rt; first_untrue(rt.alloc(), cases.as_slice())?.is_none());
    Ok(())
}

#[test]
fn an_unsigned_operand_makes_the_other_unsigned(rt: HostRuntime) -> Result<(), Fail> {
    let cases: [&[u8]; 13] = [
        b"-1>0u",
        b"!(-1>0)",
        b"0u-1==18446744073709551615u",
        b"(1?-1:0u)>0",
        b"(0?0u:-1)>0",
        b"18446744073709551615u+1==0",
        b"9223372036854775808u*2==0",
        b"-1/2u==9223372036854775807",
        b"-1%10u==5",
        b"(-1&1u)-2>0",
        b"-0u==0 && -1u>0 && ~0u>0 && !0u-2<0",
        b"(-1<<1u)<0 && (1u<<63)>0",
        b"(1u<2u)-2<0 && (1u||0)-2<0 && (1u==1)-2<0",
    ];
    assert!(rt; first_untrue(rt.alloc(), cases.as_slice())?.is_none());
    Ok(())
}

#[test]
fn division_rounds_to_zero_and_a_right_shift_down(rt: HostRuntime) -> Result<(), Fail> {
    let cases: [&[u8]; 9] = [
        b"-7/2==-3 && 7/-2==-3 && -7%2==-1 && 7%-2==1",
        b"5%-3==2",
        b"-1>>1==-1 && -7>>1==-4 && -1>>63==-1",
        b"-1>>63u<0 && -1u>>63==1",
        b"(-9223372036854775807-1)%-1==0",
        b"-1<<63==-9223372036854775807-1",
        b"1<<62==4611686018427387904 && 0<<63==0 && 3u<<63==1u<<63",
        b"(6&3)==2 && (6|3)==7 && (6^3)==5 && (-1^1)==-2",
        b"1<=1 && 1>=1 && 1!=2 && !(2<=1) && !(1>=2)",
    ];
    assert!(rt; first_untrue(rt.alloc(), cases.as_slice())?.is_none());
    Ok(())
}

#[test]
fn constants_have_these_values(rt: HostRuntime) -> Result<(), Fail> {
    let cases: [&[u8]; 12] = [
        b"0x10==16 && 010==8 && 10==10 && 00==0 && 0xFfl==255",
        b"0x8000000000000000>0 && 01000000000000000000000>0",
        b"0x7fffffffffffffff-0x7fffffffffffffff-1<0",
        b"1u-2>0 && 1lu-2>0 && 1LLU-2>0 && 1ull-2>0 && 1UL-2>0 && 1ll-2<0 && 1L-2<0",
        b"18446744073709551615u==0xffffffffffffffff",
        b"'a'==97 && '\\0'==0 && '\\''==39 && '\\\"'==34 && '\"'==34 && '\\?'==63",
        b"'\\377'<0 && '\\xff'==-1 && '\\x7F'==127 && '\\200'==-128",
        b"'\\a'==7 && '\\b'==8 && '\\f'==12 && '\\n'==10 && '\\r'==13 && '\\t'==9 && '\\v'==11 && '\\\\'==92",
        b"L'\\x7fffffff'==2147483647 && L'\\377'==255 && L'a'-98<0",
        b"u'\\xffff'==65535 && u'a'-98>0",
        b"U'\\xffffffff'==4294967295 && U'a'-98>0",
        b"'\\x0000041'==65",
    ];
    assert!(rt; first_untrue(rt.alloc(), cases.as_slice())?.is_none());
    Ok(())
}

#[test]
fn what_is_no_constant_is_told_before_syntax(rt: HostRuntime) -> Result<(), Fail> {
    let numbers: [&[u8]; 15] = [
        b"08",
        b"0x",
        b"0b1",
        b"1.0",
        b"1e3",
        b"1uu",
        b"1lul",
        b"1Ll",
        b"1lll",
        b"9223372036854775808",
        b"18446744073709551616u",
        b"0x10000000000000000",
        b"0xg",
        b") 1x '\\q'",
        b"0 && 08",
    ];
    assert!(rt; all_have(rt.alloc(), numbers.as_slice(), ExprFault::BadNumber)?);
    let chars: [&[u8]; 11] = [
        b"'ab'",
        b"'\\q'",
        b"'\\8'",
        b"'\\x'",
        b"'\\x100'",
        b"'\\400'",
        b"'\\1234'",
        b"'\xc3'",
        b"L'\\x80000000'",
        b"u'\\x10000'",
        b") U'\\x100000000' 08",
    ];
    assert!(rt; all_have(rt.alloc(), chars.as_slice(), ExprFault::BadChar)?);
    let defined: [&[u8]; 2] = [b"defined", b"08 ) defined X"];
    assert!(rt; all_have(rt.alloc(), defined.as_slice(), ExprFault::DefinedFromMacro)?);
    Ok(())
}

#[test]
fn what_is_no_expression_is_told_before_its_value(rt: HostRuntime) -> Result<(), Fail> {
    let cases: [&[u8]; 24] = [
        b"", b"1 2", b"(", b")", b"()", b"(1", b"1)", b"a?b", b"a?b:", b"a:b", b"?1:2", b"a?:b",
        b"(a?b):c", b"a?(b:c)", b"1,2", b"a=1", b"++a", b"a--", b"f(1)", b"(int)1", b"\"s\"",
        b"1/0 +", b"1 ! 2", b"1 ~ 2",
    ];
    assert!(rt; all_have(rt.alloc(), cases.as_slice(), ExprFault::Syntax)?);
    Ok(())
}

#[test]
fn the_first_fault_of_an_evaluated_operand_is_told(rt: HostRuntime) -> Result<(), Fail> {
    let overflows: [&[u8]; 10] = [
        b"9223372036854775807+1",
        b"-9223372036854775807-2",
        b"(-9223372036854775807-1)/-1",
        b"-(-9223372036854775807-1)",
        b"9223372036854775807*2",
        b"1<<63",
        b"3<<62",
        b"-3<<62",
        b"(9223372036854775807+1)/0",
        b"1 ? 9223372036854775807+1 : 1/0",
    ];
    assert!(rt; all_have(rt.alloc(), overflows.as_slice(), ExprFault::Overflow)?);
    let divisions: [&[u8]; 7] = [
        b"1/0",
        b"1%0",
        b"1/0u",
        b"1u%0",
        b"1/0 || 1",
        b"1/0 + (1<<64)",
        b"1/0 ? 1<<64 : 1",
    ];
    assert!(rt; all_have(rt.alloc(), divisions.as_slice(), ExprFault::ZeroDivisor)?);
    let shifts: [&[u8]; 6] = [
        b"1<<64",
        b"1>>64",
        b"1<<-1",
        b"1u>>-1",
        b"1<<64u",
        b"0<<18446744073709551615u",
    ];
    assert!(rt; all_have(rt.alloc(), shifts.as_slice(), ExprFault::BadShift)?);
    Ok(())
}

/// A punctuator.
fn punctuator(alloc: Global, byte: u8) -> Result<Token, Fail> {
    let mut text = Bytes::new(alloc);
    text.push(byte)?;
    Ok(Token {
        kind: Kind::Punct,
        text,
        space: false,
    })
}

/// A condition in so many parentheses.
fn nested(alloc: Global, depth: usize, condition: &[u8]) -> Result<Tokens, Fail> {
    let mut tokens = Tokens::new(alloc);
    for _ in 0..depth {
        tokens.push(punctuator(alloc, b'(')?)?;
    }
    for token in lex_text(alloc, condition)?.as_slice() {
        tokens.push(token.copy()?)?;
    }
    for _ in 0..depth {
        tokens.push(punctuator(alloc, b')')?)?;
    }
    Ok(tokens)
}

#[test]
fn nesting_takes_no_stack(rt: HostRuntime) -> Result<(), Fail> {
    let closed = nested(rt.alloc(), 100_000, b"1")?;
    assert!(rt; evaluate(rt.alloc(), &closed) == Ok(true));
    let open = nested(rt.alloc(), 100_000, b"(1")?;
    assert!(rt; evaluate(rt.alloc(), &open) == Err(ExprFault::Syntax));
    Ok(())
}
