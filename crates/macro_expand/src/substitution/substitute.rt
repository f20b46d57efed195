// The list that replaces a name (C17 6.10.3.1 to 6.10.3.3).
ghost use Rattle.std.specs.Prelude.{◌≡◌, map};
ghost use Rattle.macro_expand.specs.Substituted.{substituted};
ghost use Rattle.macro_expand.specs.States.{Answers, marked, hidden_names, argument_of};

use crate::fault::ExpandFault;
use crate::hide_set::hidden_token::HiddenToken;
use crate::hide_set::set::HideSet;
use crate::substitution::argument_pass::{Argument, put_tokens};
use crate::substitution::paste_pass::{finish_cells, paste_cells};
use crate::substitution::plain::{goes_in, hidden_copies};
use macro_table::Def;
use std::alloc::Global;

/// The list that replaces a name: by its definition, its text and mark, the names that the list hides, and the arguments.
pub fn substitute(
    alloc: Global,
    def: &Def,
    name: &[u8],
    space: bool,
    hides: &HideSet,
    args: &[Argument],
) -> Result<Vec<HiddenToken>, ExpandFault>
    ensures { Answers (λ list. map marked list.items) result (substituted def.now name.now space (hidden_names hides.now) (map argument_of args.now)) }
{
    let calls = def.params.is_some();
    let body = def.body.as_slice();
    if goes_in(calls, args, body) {
        let list = hidden_copies(alloc, space, hides, body)?;
        return Ok(list);
    }
    let mut cells = put_tokens(alloc, name, calls, args, body)?;
    cells.reverse();
    let joined = paste_cells(alloc, cells)?;
    let list = finish_cells(alloc, space, hides, joined)?;
    Ok(list)
}
