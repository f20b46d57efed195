ghost use Rattle.std.specs.Prelude.{◌≡◌, ◌≤◌, length};
ghost use Rattle.pp_tokens.specs.Cleaning.{on_line_one, numbered, first_nul};
ghost use Rattle.pp_tokens.specs.Cut.{LexesFile, LexesText};
ghost use Rattle.pp_tokens.specs.Scan.{line_feeds};

use crate::chars::Chars;
use crate::fault::LexFault;
use crate::line::Lines;
use crate::line_builder::LineBuilder;
use crate::scanning::scan;
use crate::token::Tokens;
use memchr::memchr;
use std::alloc::Global;

/// Line 1, where a byte of a text is 0.
fn nul_of_text(bytes: &[u8]) -> Option<u64>
    ensures { result ≡ first_nul (on_line_one bytes.now) }
{
    match memchr(0, bytes) {
        Some(_) => Some(1),
        None => None,
    }
}

/// How many line feeds the bytes have.
fn line_feeds(bytes: &[u8]) -> u64
    ensures count { result ≡ line_feeds bytes.now }
    ensures bound { result ≤ length bytes.now }
{
    let mut count = 0;
    for byte in bytes {
        if *byte == b'\n' {
            count += 1;
        }
    }
    count
}

/// The physical line of the first byte 0 of a file.
fn nul_of_file(bytes: &[u8]) -> Option<u64>
    ensures { result ≡ first_nul (numbered 1 bytes.now) }
{
    match memchr(0, bytes) {
        Some(at) => Some(line_feeds(&bytes[..at]) + 1),
        None => None,
    }
}

/// The lines of tokens of a file by phases 1 to 3 (C17 5.1.1.2). A line has the physical number of its first token, and
/// lines without tokens are dropped.
pub fn lex_file(alloc: Global, bytes: &[u8]) -> Result<Lines, LexFault>
    ensures { LexesFile bytes.now result }
{
    if let Some(line) = nul_of_file(bytes) {
        return Err(LexFault::NulByte { line });
    }
    let mut chars = Chars::of_file(bytes);
    let mut builder = LineBuilder::new(alloc);
    match scan(alloc, true, &mut chars, &mut builder) {
        Ok(()) => match builder.into_lines(alloc) {
            Ok(lines) => Ok(lines),
            Err(_) => Err(LexFault::NoMemory),
        },
        Err(fault) => Err(fault),
    }
}

/// The tokens of one text by phase 3 alone (C17 5.1.1.2): a line feed is white space, which ends a `//` comment and
/// which no token crosses. The whole text counts as one line, number 1.
pub fn lex_text(alloc: Global, bytes: &[u8]) -> Result<Tokens, LexFault>
    ensures { LexesText bytes.now result }
{
    if let Some(line) = nul_of_text(bytes) {
        return Err(LexFault::NulByte { line });
    }
    let mut chars = Chars::of_text(bytes);
    let mut builder = LineBuilder::new(alloc);
    match scan(alloc, false, &mut chars, &mut builder) {
        Ok(()) => Ok(builder.into_tokens()),
        Err(fault) => Err(fault),
    }
}
