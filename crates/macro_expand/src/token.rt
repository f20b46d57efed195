// Tests of tokens.
ghost use Rattle.std.specs.Prelude.{◌≡◌, ◌<◌, ◌^◌};
ghost use Rattle.macro_expand.specs.Marked.{is_identifier, is_punctuator, is_literal, is_lone_quote, is_named, spells, is_hash, is_paste, delimiter_of};
ghost use Rattle.macro_expand.specs.Calls.{depth_behind, ends_call, parts};
ghost use Rattle.macro_expand.specs.Heads.{is_opens};

use crate::delimiter::Delimiter;
use pp_tokens::{Kind, Token};

/// Whether the kind is that of identifiers.
pub fn is_identifier(kind: Kind) -> bool
    ensures { result ≡ is_identifier kind }
{
    matches!(kind, Kind::Identifier)
}

fn is_punctuator(kind: Kind) -> bool
    ensures { result ≡ is_punctuator kind }
{
    matches!(kind, Kind::Punct)
}

/// Whether the kind is that of string literals or of character constants.
pub fn is_literal(kind: Kind) -> bool
    ensures { result ≡ is_literal kind }
{
    matches!(kind, Kind::Str | Kind::Char)
}

/// Whether the kind is that of quotes that nothing closes.
pub fn is_lone_quote(kind: Kind) -> bool
    ensures { result ≡ is_lone_quote kind }
{
    matches!(kind, Kind::LoneQuote)
}

/// Whether the token is this identifier.
pub fn is_named(name: &[u8], token: &Token) -> bool
    ensures { result ≡ is_named name.now token.now }
{
    is_identifier(token.kind) && token.text.as_slice() == name
}

/// Whether the token is this punctuator.
fn spells(text: &[u8], token: &Token) -> bool
    ensures { result ≡ spells text.now token.now }
{
    is_punctuator(token.kind) && token.text.as_slice() == text
}

/// Whether the token is `#`.
pub fn is_hash(token: &Token) -> bool
    ensures { result ≡ is_hash token.now }
{
    spells(b"#", token) || spells(b"%:", token)
}

/// Whether the token is `##`.
pub fn is_paste(token: &Token) -> bool
    ensures { result ≡ is_paste token.now }
{
    spells(b"##", token) || spells(b"%:%:", token)
}

/// What the token is to the arguments of a call.
pub fn delimiter(token: &Token) -> Delimiter
    ensures { result ≡ delimiter_of token.now }
{
    if spells(b"(", token) {
        Delimiter::Opens
    } else if spells(b")", token) {
        Delimiter::Closes
    } else if spells(b",", token) {
        Delimiter::Comma
    } else {
        Delimiter::Inner
    }
}

/// How deep in parentheses the tokens after this one are.
pub fn depth_behind(part: Delimiter, depth: usize) -> usize
    requires { depth < 2 ^ 63 }
    ensures { result ≡ depth_behind part depth }
{
    match part {
        Delimiter::Opens => depth + 1,
        Delimiter::Closes => depth.saturating_sub(1),
        Delimiter::Comma | Delimiter::Inner => depth,
    }
}

/// Whether a token at this depth closes the call.
pub fn ends_call(part: Delimiter, depth: usize) -> bool
    ensures { result ≡ ends_call part depth }
{
    match part {
        Delimiter::Closes => depth == 0,
        Delimiter::Opens | Delimiter::Comma | Delimiter::Inner => false,
    }
}

/// Whether a token at this depth, with so many commas left, parts two arguments.
pub fn parts_arguments(part: Delimiter, commas: usize, depth: usize) -> bool
    ensures { result ≡ parts part commas depth }
{
    match part {
        Delimiter::Comma => depth == 0 && commas != 0,
        Delimiter::Opens | Delimiter::Closes | Delimiter::Inner => false,
    }
}

/// Whether this is `(`.
pub fn is_opening(part: Delimiter) -> bool
    ensures { result ≡ is_opens part }
{
    matches!(part, Delimiter::Opens)
}
