ghost use Rattle.std.specs.Prelude.{◌≡◌, IfOk, Ok};
ghost use Rattle.macro_table.specs.Texts.{tokens_of};
ghost use Rattle.macro_expand.specs.Macros.{macros_of};
ghost use Rattle.macro_expand.specs.Rules.{ExpandsTo, ExpandsOnceTo};
ghost use Rattle.macro_query.specs.Limits.{Answers};
ghost use Rattle.macro_query.specs.Scopes.{path_of_file};
ghost use Rattle.macro_query.specs.Expansions.{ByTokens, PrintsLine};
ghost use Rattle.macro_query.specs.Queries.{ExpandSays, OnceSays};

use crate::fault::QueryFault;
use crate::finished::finished;
use crate::position::{Found, find, path_of_file};
use mac_base::{Bytes, NoMemory, ReportBuilder};
use macro_expand::{Here, expand, expand_once};
use macro_table::Table;
use position_table::Position;
use pp_tokens::{Tokens, lex_text, print_tokens};
use std::alloc::Global;

/// What a text expands to at a position of an ELF file, printed as one line (C17 6.10.3). `__LINE__` is the position's
/// line, `__FILE__` the path of its innermost file. Faults come in this order: those of `info`, a text that has no tokens,
/// a text that has no expansion.
pub fn expand_at(
    alloc: Global,
    file: &[u8],
    position: &Position,
    text: &[u8],
) -> Result<Bytes, QueryFault>
    ensures { Answers result (ExpandSays position.now text.now file.now) }
{
    let found = find(alloc, file, position)?;
    let here = here_of(alloc, &found)?;
    expand_text(alloc, &found.table, &here, text)
}

/// The same for a single level: arguments go in as written, and what replaces a name is not looked at again.
pub fn once_at(
    alloc: Global,
    file: &[u8],
    position: &Position,
    text: &[u8],
) -> Result<Bytes, QueryFault>
    ensures { Answers result (OnceSays position.now text.now file.now) }
{
    let found = find(alloc, file, position)?;
    let here = here_of(alloc, &found)?;
    once_text(alloc, &found.table, &here, text)
}

/// The line and the innermost file of a position.
fn here_of(alloc: Global, found: &Found<'_>) -> Result<Here, NoMemory>
    ensures { IfOk result (λ here. (here.line ≡ found.now.line) × (here.file ≡ path_of_file found.now.graph.paths found.now.file)) }
{
    Ok(Here {
        line: u64::from(found.line),
        file: Bytes::from_slice(alloc, path_of_file(&found.graph, found.file))?,
    })
}

/// What a text expands to under a table.
fn expand_text(alloc: Global, table: &Table, here: &Here, text: &[u8]) -> Result<Bytes, QueryFault>
    ensures { Answers result (ByTokens (ExpandsTo (macros_of table.now) here.now) (tokens_of text.now)) }
{
    let tokens = lex_text(alloc, text)?;
    let expanded = expand(alloc, table, here, &tokens)?;
    line_of(alloc, &expanded)
}

/// The same for a single level.
fn once_text(alloc: Global, table: &Table, here: &Here, text: &[u8]) -> Result<Bytes, QueryFault>
    ensures { Answers result (ByTokens (ExpandsOnceTo (macros_of table.now) here.now) (tokens_of text.now)) }
{
    let tokens = lex_text(alloc, text)?;
    let expanded = expand_once(alloc, table, here, &tokens)?;
    line_of(alloc, &expanded)
}

/// Tokens as one line.
fn line_of(alloc: Global, tokens: &Tokens) -> Result<Bytes, QueryFault>
    ensures { Answers result (PrintsLine (Ok tokens.now)) }
{
    let mut report = ReportBuilder::new(alloc);
    report.text = print_tokens(alloc, tokens)?.into_vec()?;
    report.text.push(b'\n')?;
    report.settle();
    finished(report)
}
