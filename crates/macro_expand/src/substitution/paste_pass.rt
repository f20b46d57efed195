// The second and the third pass over a replacement list (C17 6.10.3.3).
ghost use Rattle.std.specs.Prelude.{◌≡◌, ◌++◌, IfOk, OnOk, map};
ghost use Rattle.macro_expand.specs.Marked.{hiding};
ghost use Rattle.macro_expand.specs.Substituted.{pasted, as_words, words, first_spaced, is_joins, joined, join};
ghost use Rattle.macro_expand.specs.States.{Answers, backwards, marked, hidden_names, piece_of};

use crate::fault::ExpandFault;
use crate::hide_set::hidden_token::{HiddenToken, fresh_hidden, hide_more, mark_first, put_mark};
use crate::hide_set::set::{HideSet, intersection};
use crate::substitution::argument_pass::Cell;
use crate::substitution::one_token::one_kind;
use mac_base::Bytes;
use pp_tokens::Token;
use std::alloc::{AllocError, Global};

/// One text after the other.
fn both_texts(alloc: Global, left: &[u8], right: &[u8]) -> Result<Bytes, AllocError>
    ensures { IfOk result (λ text. text ≡ left.now ++ right.now) }
{
    let mut text = Vec::from_slice(alloc, left)?;
    text.extend_from_slice(right)?;
    Ok(Bytes::from_vec(text))
}

/// Joins two tokens.
fn join_words(alloc: Global, left: HiddenToken, right: HiddenToken) -> Result<Cell, ExpandFault>
    ensures { Answers piece_of result (joined (marked left) (marked right)) }
{
    let text = both_texts(
        alloc,
        left.token.text.as_slice(),
        right.token.text.as_slice(),
    )?;
    let Some(kind) = one_kind(alloc, text.as_slice())? else {
        return Err(ExpandFault::BadPaste {
            left: left.token.text,
            right: right.token.text,
        });
    };
    let hides = intersection(alloc, &left.hides, &right.hides)?;
    let token = Token {
        kind,
        text,
        space: left.token.space,
    };
    Ok(Cell::Word(HiddenToken { token, hides }))
}

/// Joins two pieces.
fn join_cells(alloc: Global, left: Cell, right: Cell) -> Result<Cell, ExpandFault>
    ensures { Answers piece_of result (join (piece_of left) (piece_of right)) }
{
    match left {
        Cell::Word(a) => match right {
            Cell::Word(b) => join_words(alloc, a, b),
            Cell::Joins(t) => join_words(alloc, a, fresh_hidden(t)),
            Cell::Placemarker(_) => Ok(Cell::Word(a)),
        },
        Cell::Placemarker(space) => match right {
            Cell::Word(b) => Ok(Cell::Word(put_mark(space, b))),
            Cell::Joins(t) => Ok(Cell::Word(put_mark(space, fresh_hidden(t)))),
            Cell::Placemarker(_) => Ok(Cell::Placemarker(space)),
        },
        Cell::Joins(t) => match right {
            Cell::Word(b) => join_words(alloc, fresh_hidden(t), b),
            Cell::Joins(u) => join_words(alloc, fresh_hidden(t), fresh_hidden(u)),
            Cell::Placemarker(_) => Ok(Cell::Word(fresh_hidden(t))),
        },
    }
}

/// Whether the piece is a `##`.
fn is_joins(cell: &Cell) -> bool
    ensures { result ≡ is_joins (piece_of cell.now) }
{
    matches!(cell, Cell::Joins(_))
}

/// The pieces with each `##` done, from left to right. They come in reverse order.
#[inline(never)]
pub fn paste_cells(alloc: Global, mut rest: Vec<Cell>) -> Result<Vec<Cell>, ExpandFault>
    ensures { Answers (λ cells. map piece_of cells.items) result (pasted (backwards piece_of rest.items)) }
{
    let mut done = Vec::new(alloc);
    let Some(mut last) = rest.pop() else {
        return Ok(done);
    };
    while let Some(cell) = rest.pop() {
        if is_joins(&cell) {
            let Some(right) = rest.pop() else {
                done.push(last)?;
                done.push(cell)?;
                return Ok(done);
            };
            last = join_cells(alloc, last, right)?;
        } else {
            done.push(last)?;
            last = cell;
        }
    }
    done.push(last)?;
    Ok(done)
}

/// Appends the token of a piece. A placemarker has none.
fn push_word(list: &mut Vec<HiddenToken>, cell: Cell) -> Result<(), AllocError>
    ensures { OnOk result (map marked list.new.items ≡ map marked list.old.items ++ as_words (piece_of cell)) }
{
    match cell {
        Cell::Word(hidden) => list.push(hidden)?,
        Cell::Joins(token) => list.push(fresh_hidden(token))?,
        Cell::Placemarker(_) => {}
    }
    Ok(())
}

/// The tokens of the pieces. Placemarkers go.
fn words_of(alloc: Global, cells: Vec<Cell>) -> Result<Vec<HiddenToken>, AllocError>
    ensures { IfOk result (λ list. map marked list.items ≡ words (map piece_of cells.items)) }
{
    let mut list = Vec::new(alloc);
    for cell in cells {
        push_word(&mut list, cell)?;
    }
    Ok(list)
}

/// The tokens with these names hidden too, the first with this mark.
fn hide_all(
    alloc: Global,
    space: bool,
    hides: &HideSet,
    tokens: Vec<HiddenToken>,
) -> Result<Vec<HiddenToken>, AllocError>
    ensures { IfOk result (λ list. map marked list.items ≡ map (hiding (hidden_names hides.now)) (first_spaced space (map marked tokens.items))) }
{
    let mut list = Vec::new(alloc);
    let mut first = true;
    for hidden in tokens {
        let hidden = mark_first(first, space, hidden);
        list.push(hide_more(alloc, hides, hidden)?)?;
        first = false;
    }
    Ok(list)
}

/// The tokens of the pieces, with these names hidden, the first with this mark.
#[inline(never)]
pub fn finish_cells(
    alloc: Global,
    space: bool,
    hides: &HideSet,
    cells: Vec<Cell>,
) -> Result<Vec<HiddenToken>, AllocError>
    ensures { IfOk result (λ list. map marked list.items ≡ map (hiding (hidden_names hides.now)) (first_spaced space (words (map piece_of cells.items)))) }
{
    let tokens = words_of(alloc, cells)?;
    let list = hide_all(alloc, space, hides, tokens)?;
    Ok(list)
}
