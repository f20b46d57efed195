ghost use Rattle.std.specs.Prelude.{◌≡◌, ◌++◌, [], if◌then◌else◌, Some, IfOk, OnOk};
ghost use Rattle.std.specs.List.{flat_map, join_with_byte};
ghost use lib.Chars.{codes};
ghost use Rattle.mac_base.specs.Answers.{Answers};
ghost use Rattle.macro_table.specs.Texts.{spaced, body_text, list_words, list_text, text_of, def_of_text};
ghost use Rattle.macro_table.specs.declared.fault.TextFault.TheVariants.{NoMemory as RanOut};

use crate::definition::Def;
use crate::fault::TextFault;
use crate::parse::parse_define;
use mac_base::{Bytes, NoMemory, Paths};
use pp_tokens::{Token, lex_text};
use std::alloc::Global;

/// The text of a definition as a macro unit has it (DWARF 5, 6.3.2.1): the name, the parameter list of a function-like
/// macro, one space, and the replacement list with one space where white space was between its tokens.
pub fn text_of(alloc: Global, def: &Def) -> Result<Bytes, NoMemory>
    ensures { IfOk result (λ text. text ≡ text_of def.now) }
{
    let mut text = Vec::from_slice(alloc, def.name.as_slice())?;
    put_list(&mut text, &def.params, def.variadic)?;
    text.push(b' ')?;
    put_body(&mut text, def.body.as_slice())?;
    Ok(Bytes::from_vec(text))
}

/// Puts the parameter list at the end of the text, where the macro has one.
fn put_list(text: &mut Vec<u8>, params: &Option<Paths>, variadic: bool) -> Result<(), NoMemory>
    ensures { OnOk result (text.new.items ≡ text.old.items ++ list_text params.now variadic) }
{
    let Some(names) = params else {
        return Ok(());
    };
    text.push(b'(')?;
    put_words(text, names.as_slice(), variadic)?;
    text.push(b')')?;
    Ok(())
}

/// Puts the parameters at the end of the text, and `...` after them, with a comma between each two.
fn put_words(text: &mut Vec<u8>, names: &[Bytes], variadic: bool) -> Result<(), NoMemory>
    ensures { OnOk result (text.new.items ≡ text.old.items ++ join_with_byte 44 (list_words names.now variadic)) }
{
    for (i, name) in names.iter().enumerate() {
        put_word(text, i == 0, name.as_slice())?;
    }
    if variadic {
        put_word(text, names.is_empty(), b"...")?;
    }
    Ok(())
}

/// Puts a word of a parameter list at the end of the text, after a comma where it is not the first.
fn put_word(text: &mut Vec<u8>, is_first: bool, word: &[u8]) -> Result<(), NoMemory>
    ensures { OnOk result (text.new.items ≡ text.old.items ++ (if is_first then [] else codes ",") ++ word.now) }
{
    if !is_first {
        text.push(b',')?;
    }
    text.extend_from_slice(word)?;
    Ok(())
}

/// Puts a replacement list at the end of the text.
fn put_body(text: &mut Vec<u8>, body: &[Token]) -> Result<(), NoMemory>
    ensures { OnOk result (text.new.items ≡ text.old.items ++ body_text body.now) }
{
    let Some((first, rest)) = body.split_first() else {
        return Ok(());
    };
    text.extend_from_slice(first.text.as_slice())?;
    for token in rest {
        put_token(text, token)?;
    }
    Ok(())
}

/// Puts a token at the end of the text, after one space where white space is before it.
fn put_token(text: &mut Vec<u8>, token: &Token) -> Result<(), NoMemory>
    ensures { OnOk result (text.new.items ≡ text.old.items ++ spaced token.now) }
{
    if token.space {
        text.extend_from_slice(b" ")?;
    }
    text.extend_from_slice(token.text.as_slice())?;
    Ok(())
}

/// The definition that a text is, by phase 3 and as after `#define` (C17 5.1.1.2 and 6.10.3), or why it is none.
pub fn def_of_text(alloc: Global, text: &[u8]) -> Result<Def, TextFault>
    ensures { Answers RanOut result (def_of_text text.now) }
{
    let tokens = lex_text(alloc, text)?;
    Ok(parse_define(alloc, tokens.as_slice())?)
}
