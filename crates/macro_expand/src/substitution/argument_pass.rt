// The first pass over a replacement list: arguments and strings go in (C17 6.10.3.1 and 6.10.3.2).
ghost use Rattle.std.specs.Prelude.{◌≡◌, ◌++◌, OnOk, map, length, Some};
ghost use Rattle.std.specs.Option.{option_map, option_copied};
ghost use Rattle.macro_expand.specs.declared.before.Before.TheVariants.{Else as NoOperator};
ghost use Rattle.macro_expand.specs.Calls.{makes_string, paste_follows};
ghost use Rattle.macro_expand.specs.Substituted.{find_argument, in_place, word_of, token_put, put_in, front};
ghost use Rattle.macro_expand.specs.States.{Answers, marked, argument_of, piece_of, onto};

use crate::before::Before;
use crate::fault::ExpandFault;
use crate::hide_set::hidden_token::{HiddenToken, copy_hidden, fresh_copy, put_mark};
use crate::substitution::strings::string_of;
use crate::token::{is_hash, is_named, is_paste};
use mac_base::{Bytes, NoMemory};
use pp_tokens::Token;
use smallvec::SmallVec;
use std::alloc::Global;
use std::default::MadeWith;

/// An argument of a call: its parameter, its tokens as written, and what they expand to.
#[derive(Drop)]
pub struct Argument {
    pub name: Bytes,
    pub plain: Vec<HiddenToken>,
    pub expanded: Vec<HiddenToken>,
}

/// The arguments of a call. Two of them take no memory of their own.
pub type Arguments = SmallVec<Argument, 2>;

impl MadeWith<Global> for Argument {
    /// What is in a place of a list that has no argument.
    fn made_with(alloc: Global) -> Argument {
        Argument {
            name: Bytes::new(alloc),
            plain: Vec::new(alloc),
            expanded: Vec::new(alloc),
        }
    }
}

/// A piece of a replacement list with the arguments in it.
#[derive(Drop)]
pub enum Cell {
    /// A token.
    Word(HiddenToken),
    /// A placemarker, with the mark of its parameter.
    Placemarker(bool),
    /// A `##` of the replacement list itself.
    Joins(Token),
}

/// The argument of the parameter that the token is.
fn find_argument<'a>(args: &'a [Argument], token: &Token) -> Option<&'a Argument>
    ensures { option_map argument_of (option_copied result) ≡ find_argument (map argument_of args.now) token.now }
{
    for argument in args {
        if is_named(argument.name.as_slice(), token) {
            return Some(argument);
        }
    }
    None
}

/// Puts an argument's tokens in the place of its parameter.
fn put_in_place(space: bool, tokens: &[HiddenToken], cells: &mut Vec<Cell>) -> Result<(), NoMemory>
    ensures { OnOk result (map piece_of cells.new.items ≡ map piece_of cells.old.items ++ in_place space (map marked tokens.now)) }
{
    let Some((first, rest)) = tokens.split_first() else {
        cells.push(Cell::Placemarker(space))?;
        return Ok(());
    };
    cells.push(Cell::Word(put_mark(space, copy_hidden(first)?)))?;
    for hidden in rest {
        cells.push(Cell::Word(copy_hidden(hidden)?))?;
    }
    Ok(())
}

/// Puts an argument in the place of its parameter: after `#` its string, beside `##` its tokens as written, elsewhere
/// its expansion.
fn put_argument(
    alloc: Global,
    name: &[u8],
    before: Before,
    next: bool,
    argument: &Argument,
    token: &Token,
    cells: &mut Vec<Cell>,
) -> Result<(), ExpandFault>
    ensures { Answers (λ _. map piece_of cells.new.items) result
        (front (map piece_of cells.old.items) (word_of name.now before next (Some (argument_of argument.now)) token.now)) }
{
    match before {
        Before::Hash(space) => {
            let string = string_of(alloc, name, space, argument.plain.as_slice())?;
            cells.push(Cell::Word(string))?;
            Ok(())
        }
        Before::Paste => {
            put_in_place(token.space, argument.plain.as_slice(), cells)?;
            Ok(())
        }
        Before::Else => {
            if next {
                put_in_place(token.space, argument.plain.as_slice(), cells)?;
                return Ok(());
            }
            put_in_place(token.space, argument.expanded.as_slice(), cells)?;
            Ok(())
        }
    }
}

/// Puts in a token that is no operator.
fn put_word(
    alloc: Global,
    name: &[u8],
    args: &[Argument],
    before: Before,
    next: bool,
    token: &Token,
    cells: &mut Vec<Cell>,
) -> Result<(), ExpandFault>
    ensures { Answers (λ _. map piece_of cells.new.items) result
        (front (map piece_of cells.old.items) (word_of name.now before next (find_argument (map argument_of args.now) token.now) token.now)) }
{
    let Some(argument) = find_argument(args, token) else {
        cells.push(Cell::Word(fresh_copy(token)?))?;
        return Ok(());
    };
    put_argument(alloc, name, before, next, argument, token, cells)?;
    Ok(())
}

/// Whether the token is the operator `#`.
fn makes_string(calls: bool, token: &Token) -> bool
    ensures { result ≡ makes_string calls token.now }
{
    calls && is_hash(token)
}

/// Puts in one token of the replacement list. It answers what is before the next.
fn put_token(
    alloc: Global,
    name: &[u8],
    calls: bool,
    args: &[Argument],
    before: Before,
    next: bool,
    token: &Token,
    cells: &mut Vec<Cell>,
) -> Result<Before, ExpandFault>
    ensures { Answers (λ behind. (map piece_of cells.new.items, behind)) result
        (onto (map piece_of cells.old.items) (token_put name.now calls (map argument_of args.now) before next token.now)) }
{
    if is_paste(token) {
        cells.push(Cell::Joins(token.copy()?))?;
        return Ok(Before::Paste);
    }
    if makes_string(calls, token) {
        return Ok(Before::Hash(token.space));
    }
    put_word(alloc, name, args, before, next, token, cells)?;
    Ok(Before::Else)
}

/// Whether `##` is the next token.
pub fn paste_follows(tokens: &[Token]) -> bool
    ensures { result ≡ paste_follows tokens.now }
{
    match tokens.first() {
        None => false,
        Some(token) => is_paste(token),
    }
}

/// The pieces of a replacement list.
#[inline(never)]
pub fn put_tokens(
    alloc: Global,
    name: &[u8],
    calls: bool,
    args: &[Argument],
    body: &[Token],
) -> Result<Vec<Cell>, ExpandFault>
    ensures { Answers (λ cells. map piece_of cells.items) result (put_in name.now calls (map argument_of args.now) NoOperator body.now) }
{
    let mut cells = Vec::new(alloc);
    let mut before = Before::Else;
    let mut left = body;
    while let Some((token, rest)) = left.split_first() {
        let next = paste_follows(rest);
        before = put_token(alloc, name, calls, args, before, next, token, &mut cells)?;
        left = rest;
    }
    Ok(cells)
}
