ghost use Rattle.std.specs.Prelude.{◌≡◌, ◌++◌, IfOk, OnOk, length, take_while, not};
ghost use Rattle.std.specs.Option.{option_map};
ghost use Rattle.std.specs.List.{list_any};
ghost use Rattle.mac_base.specs.Answers.{Answers};
ghost use Rattle.macro_table.specs.Texts.{spaced, body_text};
ghost use Rattle.pp_unit.specs.declared.fault.PpKind.TheVariants.{NoMemory as RanOut};
ghost use Rattle.pp_unit.specs.Seen.{macros};
ghost use Rattle.pp_unit.specs.Recorded.{ComesTo};
ghost use Rattle.pp_unit.specs.HeaderNames.{between, form_of, named, header_text, is_close, before_angle, angle_named, spelled_name, NamesHeader};

use crate::directives::header::HeaderName;
use crate::directives::line_number::is_plain_string;
use crate::event_log::EventLog;
use crate::fault::PpKind;
use mac_base::{Bytes, NoMemory};
use mac_io::Form;
use macro_expand::Here;
use pp_tokens::{Kind, Token, Tokens};
use std::alloc::Global;

/// The text of a header name that comes first (C17 6.4.7).
fn header_text(tokens: &[Token]) -> Option<&[u8]>
    ensures { option_map (λ text. text.now) result ≡ header_text tokens.now }
{
    match tokens {
        [first, ..] if first.kind == Kind::Header => Some(first.text.as_slice()),
        _ => None,
    }
}

/// What is between the delimiters of a text.
fn between(text: &[u8]) -> &[u8]
    ensures { result.now ≡ between text.now }
{
    match text {
        [_, after @ ..] => &after[..text.len().saturating_sub(2)],
        [] => text,
    }
}

/// By its delimiter, the form of a header name.
fn form_of(text: &[u8]) -> Form
    ensures { result ≡ form_of text.now }
{
    match text {
        [b'"', ..] => Form::Quote,
        _ => Form::Angle,
    }
}

/// A name in this form, which may not be empty.
fn named(alloc: Global, form: Form, name: &[u8]) -> Result<HeaderName, PpKind>
    ensures { Answers RanOut result (named form name.now) }
{
    if name.is_empty() {
        return Err(PpKind::BadInclude);
    }
    let name = Bytes::from_slice(alloc, name)?;
    Ok(HeaderName { form, name })
}

/// How many tokens come before the first `>`.
fn close_at(tokens: &[Token]) -> usize
    ensures { result ≡ length (take_while (λ t. not (is_close t)) tokens.now) }
{
    tokens
        .iter()
        .take_while(|token| !token.is_spelled(b">"))
        .count()
}

/// Whether a `>` is among the tokens.
fn has_close(tokens: &[Token]) -> bool
    ensures { result ≡ list_any is_close tokens.now }
{
    tokens.iter().any(|token| token.is_spelled(b">"))
}

/// The tokens before the first `>`.
fn before_angle(tokens: &[Token]) -> Option<&[Token]>
    ensures { option_map (λ front. front.now) result ≡ before_angle tokens.now }
{
    if has_close(tokens) {
        Some(&tokens[..close_at(tokens)])
    } else {
        None
    }
}

/// The texts of tokens, with a space where white space is between two of them.
fn joined(alloc: Global, tokens: &[Token]) -> Result<Vec<u8>, NoMemory>
    ensures { IfOk result (λ text. text.items ≡ body_text tokens.now) }
{
    let Some((first, rest)) = tokens.split_first() else {
        return Ok(Vec::new(alloc));
    };
    let mut text = Vec::from_slice(alloc, first.text.as_slice())?;
    for token in rest {
        put_token(&mut text, token)?;
    }
    Ok(text)
}

/// Puts a token at the end of a text, after one space where white space is before it.
fn put_token(text: &mut Vec<u8>, token: &Token) -> Result<(), NoMemory>
    ensures { OnOk result (text.new.items ≡ text.old.items ++ spaced token.now) }
{
    if token.space {
        text.extend_from_slice(b" ")?;
    }
    text.extend_from_slice(token.text.as_slice())?;
    Ok(())
}

/// The name that tokens after `<` are together, up to the first `>`.
fn angle_named(alloc: Global, tokens: &[Token]) -> Result<HeaderName, PpKind>
    ensures { Answers RanOut result (angle_named (before_angle tokens.now)) }
{
    let Some(front) = before_angle(tokens) else {
        return Err(PpKind::BadInclude);
    };
    let name = joined(alloc, front)?;
    named(alloc, Form::Angle, name.as_slice())
}

/// The header that expanded tokens name (C17 6.10.2 p4).
fn spelled_name(alloc: Global, tokens: &[Token]) -> Result<HeaderName, PpKind>
    ensures { Answers RanOut result (spelled_name tokens.now) }
{
    match tokens {
        [only] if is_plain_string(only) => {
            named(alloc, Form::Quote, between(only.text.as_slice()))
        }
        [first, second, ..] if first.is_spelled(b"<") => angle_named(alloc, &tokens[1..]),
        _ => Err(PpKind::BadInclude),
    }
}

/// The header that the operands of an `#include` name.
pub fn header_named(log: &EventLog, here: &Here, tokens: &Tokens) -> Result<HeaderName, PpKind>
    ensures { ComesTo (NamesHeader (macros log.now) here.now tokens.now) result }
{
    if let Some(text) = header_text(tokens.as_slice()) {
        return named(log.alloc(), form_of(text), between(text));
    }
    let expanded = log.expand(here, tokens)?;
    spelled_name(log.alloc(), expanded.as_slice())
}
