// The operands of a command.
ghost use Rattle.std.specs.Prelude.{◌≡◌, IfOk};
ghost use Rattle.position_table.specs.Positions.{position_of};
ghost use Rattle.dwmac_run.specs.Operands as spec;

use crate::commands::Operand;
use crate::offset::offset_of;
use crate::words::{is_file_word, is_name_word};
use mac_base::{Bytes, NoMemory};
use position_table::{Position, PositionText, parse_position};
use std::alloc::Global;

/// The operands that were read: the file or the source, the offset, the position, and the name or the text.
#[derive(Drop)]
pub struct Operands {
    pub file: Option<Bytes>,
    pub offset: Option<u64>,
    pub position: Option<Position>,
    pub text: Option<Bytes>,
}

/// The operands that words are, one word for each; none where one doesn't fit or their numbers differ.
pub fn read_operands(
    alloc: Global,
    operands: &[Operand],
    words: &[Bytes],
) -> Result<Option<Operands>, NoMemory>
    ensures { IfOk result (λ read. read ≡ spec.read_operands operands.now spec.no_operands words.now) }
{
    let mut read = Operands {
        file: None,
        offset: None,
        position: None,
        text: None,
    };
    let mut left = operands;
    for word in words {
        let Some((operand, rest)) = left.split_first() else {
            return Ok(None);
        };
        let Some(next) = read_operand(alloc, *operand, read, word)? else {
            return Ok(None);
        };
        read = next;
        left = rest;
    }
    match left {
        [] => Ok(Some(read)),
        [_, ..] => Ok(None),
    }
}

/// The operands with one more, which is this word; none where it doesn't fit.
fn read_operand(
    alloc: Global,
    operand: Operand,
    read: Operands,
    word: &Bytes,
) -> Result<Option<Operands>, NoMemory>
    ensures { IfOk result (λ next. next ≡ spec.read_operand operand read word.now) }
{
    match operand {
        Operand::File => with_file(read, word),
        Operand::Source => with_file(read, word),
        Operand::Offset => Ok(with_offset(read, word.as_slice())),
        Operand::Position => with_position(alloc, read, word.as_slice()),
        Operand::Name => with_name(read, word),
        Operand::Text => with_text(read, word),
    }
}

fn with_file(mut read: Operands, word: &Bytes) -> Result<Option<Operands>, NoMemory>
    ensures { IfOk result (λ next. next ≡ spec.with_file read word.now) }
{
    if !is_file_word(word.as_slice()) {
        return Ok(None);
    }
    read.file = Some(word.copy()?);
    Ok(Some(read))
}

fn with_offset(mut read: Operands, word: &[u8]) -> Option<Operands>
    ensures { result ≡ spec.with_offset read word.now }
{
    if !is_file_word(word) {
        return None;
    }
    read.offset = Some(offset_of(word)?);
    Some(read)
}

fn with_position(
    alloc: Global,
    mut read: Operands,
    word: &[u8],
) -> Result<Option<Operands>, NoMemory>
    ensures { IfOk result (λ next. next ≡ spec.with_position read word.now) }
{
    if !is_file_word(word) {
        return Ok(None);
    }
    match chain_of(alloc, word)? {
        Some(position) => {
            read.position = Some(position);
            Ok(Some(read))
        }
        None => Ok(None),
    }
}

fn with_name(read: Operands, word: &Bytes) -> Result<Option<Operands>, NoMemory>
    ensures { IfOk result (λ next. next ≡ spec.with_name read word.now) }
{
    if !is_name_word(word.as_slice()) {
        return Ok(None);
    }
    with_text(read, word)
}

fn with_text(mut read: Operands, word: &Bytes) -> Result<Option<Operands>, NoMemory>
    ensures { IfOk result (λ next. next ≡ spec.with_text read word.now) }
{
    read.text = Some(word.copy()?);
    Ok(Some(read))
}

/// The position that a word is, where it is a chain of lines: the only kind that commands take.
fn chain_of(alloc: Global, word: &[u8]) -> Result<Option<Position>, NoMemory>
    ensures { IfOk result (λ position. position ≡ spec.chain_of (position_of word.now)) }
{
    match parse_position(alloc, word) {
        Ok(Position::Chain { unit, lines, line }) => Ok(Some(Position::Chain {
            unit,
            lines,
            line,
        })),
        Ok(Position::Named { .. }) => Ok(None),
        Err(PositionText::Bad) => Ok(None),
        Err(PositionText::NoMemory) => Err(NoMemory),
    }
}
