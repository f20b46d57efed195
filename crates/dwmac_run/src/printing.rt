// What is printed, written without taking memory.
ghost use Rattle.std.specs.Prelude.{◌≡◌, ◌≤◌, ◌<◌, ◌++◌, length, codes, decimal};
ghost use Rattle.std.specs.List.{flat_map};
ghost use Rattle.mac_io.specs.Causes.{HasCause};
ghost use Rattle.mac_io.specs.Calls.{Writes};
ghost use Rattle.dwmac_run.specs.Pieces.{line_text, line_pieces, written, spaced, at_line};
ghost use Rattle.mac_base.specs.ReportText.{hex};

use crate::line::{FaultLine, Piece};
use itoa::Buffer;
use mac_base::hex_digits;
use mac_io::{Sink, Wrote};
use memchr::memchr;

/// Writes a text with one write for each of its lines.
pub fn write_lines<O: Sink>(out: &mut O, text: &[u8]) -> Wrote
    ensures answer { Writes (O.text out.old) (O.text out.new) text.now result }
    ensures cause { HasCause (O.count out.old) (O.count out.new) (result ≡ Wrote.Failed) }
{
    let mut rest = text;
    while !rest.is_empty() {
        let (line, after) = rest.split_at(line_len(rest));
        match out.write(line) {
            Wrote::Done => rest = after,
            Wrote::Failed => return Wrote::Failed,
        }
    }
    Wrote::Done
}

/// How many bytes the first line has, with its line feed.
fn line_len(text: &[u8]) -> usize
    requires { 0 < length text.now }
    ensures some { 0 < result }
    ensures within { result ≤ length text.now }
{
    match memchr(b'\n', text) {
        Some(end) => end + 1,
        None => text.len(),
    }
}

/// Writes a line on a fault, piece by piece.
pub fn write_line<E: Sink>(err: &mut E, line: &FaultLine<'_>) -> Wrote
    ensures answer { Writes (E.text err.old) (E.text err.new) (line_text (line_pieces line.now)) result }
    ensures cause { HasCause (E.count err.old) (E.count err.new) (result ≡ Wrote.Failed) }
{
    match write_start(err, line.place) {
        Wrote::Done => write_rest(err, &line.words),
        Wrote::Failed => Wrote::Failed,
    }
}

/// Writes the start of a line, up to where the fault is.
fn write_start<E: Sink>(err: &mut E, place: Piece<'_>) -> Wrote
    ensures answer { Writes (E.text err.old) (E.text err.new) (codes "dwmac:" ++ written place.entry) result }
    ensures cause { HasCause (E.count err.old) (E.count err.new) (result ≡ Wrote.Failed) }
{
    match err.write(b"dwmac:") {
        Wrote::Done => write_piece(err, place),
        Wrote::Failed => Wrote::Failed,
    }
}

/// Writes the pieces that tell the fault, and the end of the line.
fn write_rest<E: Sink>(err: &mut E, words: &[Piece<'_>]) -> Wrote
    ensures answer { Writes (E.text err.old) (E.text err.new) (flat_map written words.now ++ codes "\n") result }
    ensures cause { HasCause (E.count err.old) (E.count err.new) (result ≡ Wrote.Failed) }
{
    for word in words {
        match write_piece(err, *word) {
            Wrote::Done => (),
            Wrote::Failed => return Wrote::Failed,
        }
    }
    err.write(b"\n")
}

/// Writes a piece after a space.
fn write_piece<E: Sink>(err: &mut E, piece: Piece<'_>) -> Wrote
    ensures answer { Writes (E.text err.old) (E.text err.new) (written piece.entry) result }
    ensures cause { HasCause (E.count err.old) (E.count err.new) (result ≡ Wrote.Failed) }
{
    match piece {
        Piece::Nothing => Wrote::Done,
        Piece::Text(text) => write_two(err, b" ", text),
        Piece::Decimal(number) => write_decimal(err, number),
        Piece::Hex(number) => write_hex(err, number),
        Piece::File(path) => write_three(err, b" ", path, b":"),
        Piece::Line(path, line) => write_place(err, path, line),
    }
}

/// Writes a number in decimal after a space.
fn write_decimal<E: Sink>(err: &mut E, number: u64) -> Wrote
    ensures answer { Writes (E.text err.old) (E.text err.new) (spaced (decimal number)) result }
    ensures cause { HasCause (E.count err.old) (E.count err.new) (result ≡ Wrote.Failed) }
{
    let mut room = Buffer::new();
    write_two(err, b" ", room.format(number).as_bytes())
}

/// Writes a number in hexadecimal after a space.
fn write_hex<E: Sink>(err: &mut E, number: u64) -> Wrote
    ensures answer { Writes (E.text err.old) (E.text err.new) (spaced (hex number)) result }
    ensures cause { HasCause (E.count err.old) (E.count err.new) (result ≡ Wrote.Failed) }
{
    let mut room = [0; 64];
    let start = hex_digits(number, &mut room);
    write_two(err, b" 0x", &room[start..])
}

/// Writes the path of a file and a line in it, after a space.
fn write_place<E: Sink>(err: &mut E, path: &[u8], line: u64) -> Wrote
    ensures answer { Writes (E.text err.old) (E.text err.new) (spaced (at_line path.now line)) result }
    ensures cause { HasCause (E.count err.old) (E.count err.new) (result ≡ Wrote.Failed) }
{
    match write_three(err, b" ", path, b":") {
        Wrote::Done => write_line_number(err, line),
        Wrote::Failed => Wrote::Failed,
    }
}

/// Writes the number of a line and a colon.
fn write_line_number<E: Sink>(err: &mut E, line: u64) -> Wrote
    ensures answer { Writes (E.text err.old) (E.text err.new) (decimal line ++ codes ":") result }
    ensures cause { HasCause (E.count err.old) (E.count err.new) (result ≡ Wrote.Failed) }
{
    let mut room = Buffer::new();
    write_two(err, room.format(line).as_bytes(), b":")
}

/// Writes three texts, one after another.
fn write_three<E: Sink>(err: &mut E, first: &[u8], second: &[u8], third: &[u8]) -> Wrote
    ensures answer { Writes (E.text err.old) (E.text err.new) (first.now ++ (second.now ++ third.now)) result }
    ensures cause { HasCause (E.count err.old) (E.count err.new) (result ≡ Wrote.Failed) }
{
    match err.write(first) {
        Wrote::Done => write_two(err, second, third),
        Wrote::Failed => Wrote::Failed,
    }
}

fn write_two<E: Sink>(err: &mut E, first: &[u8], second: &[u8]) -> Wrote
    ensures answer { Writes (E.text err.old) (E.text err.new) (first.now ++ second.now) result }
    ensures cause { HasCause (E.count err.old) (E.count err.new) (result ≡ Wrote.Failed) }
{
    match err.write(first) {
        Wrote::Done => err.write(second),
        Wrote::Failed => Wrote::Failed,
    }
}
