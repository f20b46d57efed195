ghost use Rattle.std.specs.Prelude.{◌≡◌, ◌≢◌, ◌≤◌, ◌++◌, [], take, drop, IfOk, OnOk};
ghost use Rattle.pp_tokens.specs.Cleaning.{bytes_of};
ghost use Rattle.pp_tokens.specs.Cut.{put};
ghost use Rattle.pp_tokens.specs.Scan.{IsKnown, Steps, Scans};

use crate::chars::Chars;
use crate::fault::LexFault;
use crate::front::piece;
use crate::line_builder::LineBuilder;
use crate::piece::PieceKind;
use crate::quote_scan::QuoteScan;
use crate::token::Kind;
use mac_base::{Bytes, NoMemory};
use std::alloc::Global;

/// Puts the byte in front at the end of a text, and goes past it.
fn take_byte(text: &mut Bytes, chars: &mut Chars<'_>) -> Result<(), NoMemory>
    ensures text { OnOk result (text.new ≡ text.old ++ bytes_of (take 1 chars.old)) }
    ensures left { OnOk result (chars.new ≡ drop 1 chars.old) }
{
    if let Some(byte) = chars.peek() {
        text.push(byte)?;
    }
    chars.advance();
    Ok(())
}

/// The next bytes, which are passed over.
fn take_text(alloc: Global, count: usize, chars: &mut Chars<'_>) -> Result<Bytes, NoMemory>
    ensures text { IfOk result (λ text. text ≡ bytes_of (take count chars.old)) }
    ensures left { OnOk result (chars.new ≡ drop count chars.old) }
{
    if let Some(bytes) = chars.plain_text(count) {
        let text = Bytes::from_slice(alloc, bytes)?;
        chars.skip(count);
        return Ok(text);
    }
    let mut text = Bytes::new(alloc);
    for _ in 0..count {
        take_byte(&mut text, chars)?;
    }
    Ok(text)
}

/// Puts the piece in front, of this length, on the page.
fn put_piece(
    alloc: Global,
    what: PieceKind,
    count: usize,
    chars: &mut Chars<'_>,
    builder: &mut LineBuilder,
) -> Result<(), NoMemory>
    requires some { 1 ≤ count }
    requires left { chars.old ≢ [] }
    ensures builder { OnOk result (builder.new ≡ put builder.old what (take count chars.old)) }
    ensures left { OnOk result (chars.new ≡ drop count chars.old) }
{
    match what {
        PieceKind::Blank | PieceKind::Comment => {
            builder.blank();
            chars.skip(count);
        }
        PieceKind::LineEnd => {
            builder.end_line(alloc)?;
            chars.skip(count);
        }
        PieceKind::Word(kind) => {
            let line = chars.line();
            let text = take_text(alloc, count, chars)?;
            builder.word(kind, text, line)?;
        }
    }
    chars.look_ahead();
    Ok(())
}

/// Reads the piece in front.
fn step(
    alloc: Global,
    lines: bool,
    chars: &mut Chars<'_>,
    builder: &mut LineBuilder,
    quotes: &mut QuoteScan,
) -> Result<(), LexFault>
    requires left { chars.old ≢ [] }
    requires known { IsKnown quotes.old.single quotes.old.double (bytes_of chars.old) }
    ensures step { Steps lines builder.old chars.old builder.new chars.new result }
    ensures known { OnOk result (IsKnown quotes.new.single quotes.new.double (bytes_of chars.new)) }
{
    let first = chars.peek();
    let Some((what, count)) = piece(lines, builder.header_may_stand(), chars, *quotes) else {
        return Err(LexFault::OpenComment { line: chars.line() });
    };
    match put_piece(alloc, what, count, chars, builder) {
        Ok(()) => {
            *quotes = known_after(quotes.after(count), first, what, chars);
            Ok(())
        }
        Err(_) => Err(LexFault::NoMemory),
    }
}

/// What is known of the quotes after a piece that began with this byte.
fn known_after(
    quotes: QuoteScan,
    first: Option<u8>,
    what: PieceKind,
    chars: &Chars<'_>,
) -> QuoteScan
    requires { IsKnown quotes.single quotes.double (bytes_of chars.now) }
    ensures { IsKnown result.single result.double (bytes_of chars.now) }
{
    match (what, first) {
        (PieceKind::Word(Kind::LoneQuote), Some(quote)) => quotes.learned(quote, chars),
        _ => quotes,
    }
}

/// Reads all pieces.
pub fn scan(
    alloc: Global,
    lines: bool,
    chars: &mut Chars<'_>,
    builder: &mut LineBuilder,
) -> Result<(), LexFault>
    ensures { Scans lines builder.old chars.old builder.new result }
{
    let mut quotes = QuoteScan::unknown();
    'pieces: while chars.peek().is_some() {
        step(alloc, lines, chars, builder, &mut quotes)?;
    }
    Ok(())
}
