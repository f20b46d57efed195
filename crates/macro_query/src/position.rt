ghost use Rattle.std.specs.Prelude.{◌≡◌, ◌⊎◌, List, ℕ, slice_get, IfOk, IfErr, Ok, Err, Some, None};
ghost use Rattle.std.specs.Option.{option_copied};
ghost use Rattle.mac_base.specs.SectionBytes.{bytes_of};
ghost use Rattle.macro_query.specs.declared.fault.QueryFault.TheVariants.{NoMemory as RanOut};
ghost use Rattle.macro_query.specs.Roots.{RootsSay};
ghost use Rattle.macro_query.specs.Scopes.{path_of_file, IsScope, ChainLeads, NamedLeads, PositionLeads};
ghost use Rattle.position_table.specs.Scopes.{Scope};
ghost use Rattle.macro_query.specs.Queries.{LeadsTo};

use crate::fault::QueryFault;
use crate::roots::{graph_of, path_of, roots_of};
use crate::sections::sections_of;
use import_graph::Graph;
use info_roots::Root;
use mac_base::Sections;
use macro_table::Table;
use position_table::{FileScope, PosFault, Position, Spot, locate_chain, locate_path, scope_at};
use std::alloc::Global;

/// What holds at a position in a file: the macro information of its root, the number of the path of the innermost file,
/// the line, and the definitions.
#[derive(Drop)]
pub struct Found<'a> {
    pub graph: Graph<'a>,
    pub file: Option<u32>,
    pub line: u32,
    pub table: Table,
}

/// What a position in an ELF file leads to, or the first fault: of the file's headers and sections, of `.debug_info`,
/// that there is no such root, of the root's macro information, of the position.
pub fn find<'a>(alloc: Global, file: &'a [u8], position: &Position) -> Result<Found<'a>, QueryFault>
    ensures ok { IfOk result (λ found. (scope : Scope) × IsScope found.graph found.file found.line found.table scope × LeadsTo position.now file.now (Ok scope)) }
    ensures err { IfErr result (λ fault. (fault ≡ RanOut) ⊎ LeadsTo position.now file.now (Err fault)) }
{
    let s = sections_of(file)?;
    find_in(alloc, &s, position)
}

/// The same of these sections.
fn find_in<'a>(
    alloc: Global,
    s: &Sections<'a>,
    position: &Position,
) -> Result<Found<'a>, QueryFault>
    ensures ok { IfOk result (λ found. (scope : Scope) × IsScope found.graph found.file found.line found.table scope × RootsSay (PositionLeads position.now) (bytes_of s.now) (Ok scope)) }
    ensures err { IfErr result (λ fault. (fault ≡ RanOut) ⊎ RootsSay (PositionLeads position.now) (bytes_of s.now) (Err fault)) }
{
    let roots = roots_of(alloc, s)?;
    find_among(alloc, s, roots.as_slice(), position)
}

/// The same among these roots.
fn find_among<'a>(
    alloc: Global,
    s: &Sections<'a>,
    roots: &[Root],
    position: &Position,
) -> Result<Found<'a>, QueryFault>
    ensures ok { IfOk result (λ found. (scope : Scope) × IsScope found.graph found.file found.line found.table scope × PositionLeads position.now (bytes_of s.now) roots.now (Ok scope)) }
    ensures err { IfErr result (λ fault. (fault ≡ RanOut) ⊎ PositionLeads position.now (bytes_of s.now) roots.now (Err fault)) }
{
    match position {
        Position::Chain { unit, lines, line } => match root_at(roots, *unit) {
            Some(root) => find_chain(alloc, s, root, lines.as_slice(), *line),
            None => Err(QueryFault::NoSuchUnit),
        },
        Position::Named { path, line } => find_named(alloc, s, roots, path.as_slice(), *line),
    }
}

/// The root of a number.
fn root_at(roots: &[Root], number: u32) -> Option<&Root>
    ensures { option_copied result ≡ slice_get roots.now number }
{
    roots.get(number as usize)
}

/// What a chain of lines in a root leads to.
fn find_chain<'a>(
    alloc: Global,
    s: &Sections<'a>,
    root: &Root,
    lines: &[u32],
    line: u32,
) -> Result<Found<'a>, QueryFault>
    ensures ok { IfOk result (λ found. (scope : Scope) × IsScope found.graph found.file found.line found.table scope × ChainLeads (Some root.now) lines.now line (bytes_of s.now) (Ok scope)) }
    ensures err { IfErr result (λ fault. (fault ≡ RanOut) ⊎ ChainLeads (Some root.now) lines.now line (bytes_of s.now) (Err fault)) }
{
    let graph = graph_of(alloc, s, root)?;
    let spot = locate_chain(&graph, lines, line)?;
    let FileScope { file, table } = scope_at(alloc, &graph, &spot)?;
    Ok(Found {
        graph,
        file,
        line,
        table,
    })
}

/// What a line of the first file with this path that begins in any of these roots leads to.
fn find_named<'a>(
    alloc: Global,
    s: &Sections<'a>,
    roots: &[Root],
    path: &[u8],
    line: u32,
) -> Result<Found<'a>, QueryFault>
    ensures ok { IfOk result (λ found. (scope : Scope) × IsScope found.graph found.file found.line found.table scope × NamedLeads path.now line (bytes_of s.now) roots.now (Ok scope)) }
    ensures err { IfErr result (λ fault. (fault ≡ RanOut) ⊎ NamedLeads path.now line (bytes_of s.now) roots.now (Err fault)) }
{
    let mut left = roots;
    while let Some((root, behind)) = left.split_first() {
        let graph = graph_of(alloc, s, root)?;
        if let Some(start) = locate_path(&graph, path)? {
            let spot = Spot { start, line };
            let FileScope { file, table } = scope_at(alloc, &graph, &spot)?;
            return Ok(Found {
                graph,
                file,
                line,
                table,
            });
        }
        left = behind;
    }
    Err(QueryFault::Position(PosFault::NoSuchPosition { depth: 0 }))
}

/// The path of a file by its number, which is empty where there is none.
pub fn path_of_file<'g>(graph: &'g Graph<'_>, file: Option<u32>) -> &'g [u8]
    ensures { result.now ≡ path_of_file graph.now.paths file }
{
    match file {
        Some(file) => path_of(graph, file),
        None => &[],
    }
}
