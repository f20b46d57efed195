ghost use Rattle.std.specs.Prelude.{◌≡◌, not, IfOk, option_and_then};
ghost use Rattle.std.specs.Option.{option_map};
ghost use Rattle.std.specs.List.{slice_split, suffix_len};
ghost use Rattle.position_table.specs.Positions.{is_colon, numbers_of, chain_of, named_by, named_of};
ghost use Rattle.position_table.specs.Answers.{IsPositionOf};

use crate::fault::PositionText;
use crate::line_numbers::LineNumbers;
use crate::number::number;
use crate::position::Position;
use mac_base::{Bytes, NoMemory};
use std::alloc::Global;

/// The position that a text is. `u:l1:..:lk:l`, at least two numbers, is line `l` of the file that the inclusions in the
/// lines `l1` to `lk` lead to, from the primary file of root `u` on. Any other text is `PATH:LINE`, with the last colon
/// between the two, where the path is not empty. A number is decimal, at most 4,294,967,295, without needless zeros.
pub fn parse_position(alloc: Global, text: &[u8]) -> Result<Position, PositionText>
    ensures { IsPositionOf text.now result }
{
    if let Some(position) = chain_position(alloc, text)? {
        return Ok(position);
    }
    match named_position(alloc, text)? {
        Some(position) => Ok(position),
        None => Err(PositionText::Bad),
    }
}

/// The position that a text is as a chain of numbers, if it is one.
fn chain_position(alloc: Global, text: &[u8]) -> Result<Option<Position>, NoMemory>
    ensures { IfOk result (λ position. position ≡ option_and_then chain_of (numbers_of (slice_split is_colon text.now))) }
{
    match numbers(alloc, text)? {
        Some(numbers) => chain(alloc, numbers.as_slice()),
        None => Ok(None),
    }
}

/// The position that a text is as a path and a line, if it has the two.
fn named_position(alloc: Global, text: &[u8]) -> Result<Option<Position>, NoMemory>
    ensures { IfOk result (λ position. position ≡ named_of text.now) }
{
    let behind = text.len() - behind_last_colon(text);
    named(alloc, &text[..behind.saturating_sub(1)], &text[behind..])
}

/// The numbers between the colons, if all fields are numbers.
fn numbers(alloc: Global, text: &[u8]) -> Result<Option<Vec<u32>>, NoMemory>
    ensures { IfOk result (λ numbers. option_map (λ v. v.items) numbers ≡ numbers_of (slice_split is_colon text.now)) }
{
    let mut numbers = Vec::new(alloc);
    for field in text.split(|byte| *byte == b':') {
        let Some(number) = number(field) else {
            return Ok(None);
        };
        numbers.push(number)?;
    }
    Ok(Some(numbers))
}

/// The position of some numbers, if they are two at least.
fn chain(alloc: Global, numbers: &[u32]) -> Result<Option<Position>, NoMemory>
    ensures { IfOk result (λ position. position ≡ chain_of numbers.now) }
{
    if numbers.len() < 2 {
        return Ok(None);
    }
    let last = numbers.len() - 1;
    let lines = LineNumbers::from_vec(Vec::from_slice(alloc, &numbers[1..last])?);
    Ok(Some(Position::Chain {
        unit: numbers[0],
        lines,
        line: numbers[last],
    }))
}

/// How many bytes stand behind the last colon.
fn behind_last_colon(text: &[u8]) -> usize
    ensures { result ≡ suffix_len (λ byte. not (is_colon byte)) text.now }
{
    text.iter().rev().take_while(|byte| **byte != b':').count()
}

/// The position of a path and a field, if there is a path and the field is a number.
fn named(alloc: Global, path: &[u8], field: &[u8]) -> Result<Option<Position>, NoMemory>
    ensures { IfOk result (λ position. position ≡ named_by path.now field.now) }
{
    if path.is_empty() {
        return Ok(None);
    }
    let Some(line) = number(field) else {
        return Ok(None);
    };
    let path = Bytes::from_slice(alloc, path)?;
    Ok(Some(Position::Named { path, line }))
}
