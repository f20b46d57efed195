ghost use Rattle.std.specs.Prelude.{◌≡◌, ◌≤◌, ◌+◌, ◌==◌, if◌then◌else◌, false, [], ◌∷◌, drop, length, IfSome, IsTrue};
ghost use Rattle.pp_tokens.specs.Cleaning.{bytes_of};
ghost use Rattle.std.specs.Option.{option_map};
ghost use Rattle.pp_tokens.specs.Cut.{piece_at, token_at, up_to_close};
ghost use Rattle.pp_tokens.specs.Kinds.{begins, is_blank};
ghost use Rattle.pp_tokens.specs.declared.piece.PieceKind.TheVariants.{Comment};
ghost use Rattle.pp_tokens.specs.Kinds.{begins_number};
ghost use Rattle.pp_tokens.specs.Scan.{first_byte, closing, IsKnown, quoted_length, quoted_kind, is_prefix_letter, is_prefix, prefixed_length, word_token, quote_or, punct_or, punctuator_length, scanned, header_by};

use crate::chars::Chars;
use crate::classes::{is_blank, is_digit, is_letter, is_quote};
use crate::measures::{closing, line_rest, number_rest, up_to, up_to_close, word_length};
use crate::piece::PieceKind;
use crate::punctuators::punctuator_length;
use crate::quote_scan::QuoteScan;
use crate::token::Kind;

/// The length of the constant or literal whose opening quote is before these bytes. It may be known that none is.
fn quoted_length(quote: u8, behind: &Chars<'_>, known: bool) -> Option<usize>
    requires { IsTrue known → closing quote (bytes_of behind.now) ≡ None }
    ensures value { result ≡ quoted_length quote (bytes_of behind.now) }
    ensures bound { IfSome result (λ n. n ≤ length behind.now + 1) }
{
    if known || quote == b'\'' && behind.is_at(b'\'') {
        return None;
    }
    match closing(quote, behind) {
        Some(closed) => Some(closed + 1),
        None => None,
    }
}

fn quoted_kind(quote: u8) -> Kind
    ensures { result ≡ quoted_kind quote }
{
    if quote == b'\'' {
        Kind::Char
    } else {
        Kind::Str
    }
}

/// Whether the byte is `L`, `u` or `U`.
fn is_prefix_letter(byte: u8) -> bool
    ensures { result ≡ is_prefix_letter byte }
{
    byte == b'L' || byte == b'u' || byte == b'U'
}

/// Whether the word in front, of this length, is a prefix of this quote.
fn is_prefix(quote: u8, word: usize, chars: &Chars<'_>) -> bool
    ensures { result ≡ is_prefix quote word (bytes_of chars.now) }
{
    match chars.peek() {
        Some(first) if word == 1 => is_prefix_letter(first),
        Some(b'u') if word == 2 && quote == b'"' => {
            let mut ahead = chars.fork();
            ahead.advance();
            ahead.is_at(b'8')
        }
        _ => false,
    }
}

/// The length of what a quote opens after this word, if the word is a prefix of it.
fn prefixed_length(
    quote: u8,
    word: usize,
    chars: &Chars<'_>,
    behind: &Chars<'_>,
    known: bool,
) -> Option<usize>
    requires { IsTrue known → closing quote (bytes_of behind.now) ≡ None }
    ensures value { result ≡ prefixed_length quote word (bytes_of chars.now) (bytes_of behind.now) }
    ensures bound { IfSome result (λ n. n ≤ length behind.now + 1) }
{
    if is_quote(quote) && is_prefix(quote, word, chars) {
        quoted_length(quote, behind, known)
    } else {
        None
    }
}

/// An identifier, or a constant or literal with a prefix.
fn word_token(chars: &Chars<'_>, quotes: QuoteScan) -> (Kind, usize)
    requires { IsKnown quotes.single quotes.double (bytes_of chars.now) }
    ensures { result ≡ word_token (bytes_of chars.now) }
{
    let word = word_length(chars);
    let mut behind = chars.fork();
    behind.skip(word);
    let Some(quote) = behind.peek() else {
        return (Kind::Identifier, word);
    };
    behind.advance();
    let known = word < quotes.count(quote);
    match prefixed_length(quote, word, chars, &behind, known) {
        Some(quoted) => (quoted_kind(quote), word + quoted),
        None => (Kind::Identifier, word),
    }
}

/// A constant or literal without a prefix, or a quote alone.
fn quote_token(quote: u8, behind: &Chars<'_>, known: bool) -> (Kind, usize)
    requires { IsTrue known → closing quote (bytes_of behind.now) ≡ None }
    ensures { result ≡ quote_or quote (quoted_length quote (bytes_of behind.now)) }
{
    match quoted_length(quote, behind, known) {
        Some(quoted) => (quoted_kind(quote), quoted),
        None => (Kind::LoneQuote, 1),
    }
}

/// A punctuator, or another byte.
fn punct_token(chars: &Chars<'_>) -> (Kind, usize)
    ensures { result ≡ punct_or (punctuator_length (bytes_of chars.now)) }
{
    match punctuator_length(chars) {
        Some(length) => (Kind::Punct, length),
        None => (Kind::Other, 1),
    }
}

/// Whether a number begins with this byte.
fn begins_number(first: u8, behind: &Chars<'_>) -> bool
    ensures { result ≡ begins_number first (bytes_of behind.now) }
{
    match behind.peek() {
        Some(second) => is_digit(first) || first == b'.' && is_digit(second),
        None => is_digit(first),
    }
}

/// The token in front of a text that begins with no white space.
pub fn token(first: u8, chars: &Chars<'_>, quotes: QuoteScan) -> (Kind, usize)
    requires known { IsKnown quotes.single quotes.double (bytes_of chars.now) }
    requires first { Some first ≡ first_byte chars.now }
    ensures { result ≡ scanned (bytes_of chars.now) }
{
    let mut behind = chars.fork();
    behind.advance();
    if is_letter(first) {
        return word_token(chars, quotes);
    }
    if begins_number(first, &behind) {
        return (Kind::Number, number_rest(first, &behind) + 1);
    }
    if is_quote(first) {
        let known = quotes.count(first) > 0;
        return quote_token(first, &behind, known);
    }
    punct_token(chars)
}

/// The length of the header name in front.
fn header_name(first: u8, behind: &Chars<'_>) -> Option<usize>
    ensures { result ≡ header_by first (bytes_of behind.now) }
{
    let last = match first {
        b'<' => b'>',
        b'"' => b'"',
        _ => return None,
    };
    match up_to(last, behind) {
        Some(length) => Some(length + 1),
        None => None,
    }
}

/// The length of the header name in front, where one may be.
fn allowed_header(header: bool, first: u8, behind: &Chars<'_>) -> Option<usize>
    ensures { result ≡ (if header then header_by first (bytes_of behind.now) else None) }
{
    if header {
        header_name(first, behind)
    } else {
        None
    }
}

/// The token in front: the header name where one may be and there is one, else the longest.
fn token_piece(
    header: bool,
    first: u8,
    chars: &Chars<'_>,
    quotes: QuoteScan,
) -> Option<(PieceKind, usize)>
    requires known { IsKnown quotes.single quotes.double (bytes_of chars.now) }
    requires first { Some first ≡ first_byte chars.now }
    requires not_line_feed { (first == 10) ≡ false }
    requires not_blank { is_blank first ≡ false }
    ensures { result ≡ token_at header (bytes_of chars.now) }
{
    let mut behind = chars.fork();
    behind.advance();
    match allowed_header(header, first, &behind) {
        Some(length) => Some((PieceKind::Word(Kind::Header), length)),
        None => {
            let (kind, length) = token(first, chars, quotes);
            Some((PieceKind::Word(kind), length))
        }
    }
}

/// Whether `/` and this byte are in front.
fn is_comment(first: u8, behind: &Chars<'_>, second: u8) -> bool
    ensures { result ≡ begins (47 ∷ second ∷ []) (first ∷ bytes_of behind.now) }
{
    match behind.peek() {
        Some(found) => first == b'/' && found == second,
        None => false,
    }
}

/// The comment whose `/*` is in front, where it is closed.
fn block_comment(star: &Chars<'_>) -> Option<(PieceKind, usize)>
    ensures { result ≡ option_map (λ n. (Comment, 2 + n)) (up_to_close (drop 1 (bytes_of star.now))) }
{
    let mut inside = star.fork();
    inside.advance();
    match up_to_close(&inside) {
        Some(length) => Some((PieceKind::Comment, length + 2)),
        None => None,
    }
}

/// The piece in front and its length. None at the end, and where a comment is not closed.
pub fn piece(
    lines: bool,
    header: bool,
    chars: &Chars<'_>,
    quotes: QuoteScan,
) -> Option<(PieceKind, usize)>
    requires { IsKnown quotes.single quotes.double (bytes_of chars.now) }
    ensures { result ≡ piece_at lines header (bytes_of chars.now) }
{
    let Some(first) = chars.peek() else {
        return None;
    };
    if first == b'\n' {
        return Some((
            if lines {
                PieceKind::LineEnd
            } else {
                PieceKind::Blank
            },
            1,
        ));
    }
    if is_blank(first) {
        return Some((PieceKind::Blank, 1));
    }
    let mut behind = chars.fork();
    behind.advance();
    if is_comment(first, &behind, b'/') {
        return Some((PieceKind::Comment, line_rest(&behind) + 1));
    }
    if is_comment(first, &behind, b'*') {
        return block_comment(&behind);
    }
    token_piece(header, first, chars, quotes)
}
