ghost use Rattle.std.specs.Prelude.{◌≡◌, ◌+◌, ◌≤◌, ◌==◌, ◌&&◌, take, drop, length, slice_get, unwrap_or, IfOk, OnOk, Some};
ghost use Rattle.mac_base.specs.Items.{ends_or_reaches, first_inside};
ghost use Rattle.macro_table.specs.FileTable.{prefix, table_of};
ghost use Rattle.import_graph.specs.Numbers.{item_of};
ghost use Rattle.import_graph.specs.Graph.{most_items};
ghost use Rattle.position_table.specs.Scopes.{begun_file};
ghost use Rattle.position_table.specs.Standing.{behind_all};

use crate::draft::Draft;
use crate::locate::depth_behind;
use crate::spot::Spot;
use import_graph::{Entries, Graph, Spliced};
use mac_base::NoMemory;
use macro_table::Table;
use std::alloc::Global;

/// What holds at a line of an instance of a file.
#[derive(Drop)]
pub struct FileScope {
    /// The number of the file's path; none where the spot names no entry that begins a file.
    pub file: Option<u32>,
    pub table: Table,
}

/// The definitions that hold in this line: those after all entries before the first one that is directly in this
/// instance of the file, in this line or a later one, or before the instance ends.
pub fn table_at(alloc: Global, graph: &Graph<'_>, spot: &Spot) -> Result<Table, NoMemory>
    ensures { IfOk result (λ table. table ≡ table_of (prefix graph.now.items spot.now.start spot.now.line)) }
{
    let FileScope { table, .. } = scope_at(alloc, graph, spot)?;
    Ok(table)
}

/// The same definitions, with the file that the instance is of, in one pass over the entries.
pub fn scope_at(alloc: Global, graph: &Graph<'_>, spot: &Spot) -> Result<FileScope, NoMemory>
    ensures file { IfOk result (λ scope. scope.file ≡ begun_file (slice_get graph.now.items spot.now.start)) }
    ensures table { IfOk result (λ scope. scope.table ≡ table_of (prefix graph.now.items spot.now.start spot.now.line)) }
{
    // There are so few entries that their numbers fit.
    let _count = graph.count();
    let mut draft = Draft::new(alloc);
    let mut entries = graph.entries()?;
    let file = pass_start(&mut draft, &mut entries, spot.start)?;
    pass_lines(&mut draft, &mut entries, u64::from(spot.line))?;
    let table = draft.into_table(alloc)?;
    Ok(FileScope { file, table })
}

/// Passes the entries up to the one of this number, from the next one on, and gives the file that begins with it.
fn pass_start<'g>(
    draft: &mut Draft<'g>,
    entries: &mut Entries<'g>,
    start: u64,
) -> Result<Option<u32>, NoMemory>
    ensures file { IfOk result (λ file. file ≡ begun_file (slice_get entries.old start)) }
    ensures passed { OnOk result (draft.new ≡ behind_all draft.old (take (start + 1) entries.old)) }
    ensures left { OnOk result (entries.new ≡ drop (start + 1) entries.old) }
{
    let mut before = start;
    while let Some(entry) = entries.next() {
        let passed = entry?;
        draft.pass(passed)?;
        if before == 0 {
            return Ok(file_of(passed));
        }
        before -= 1;
    }
    Ok(None)
}

/// The file that begins with an entry.
fn file_of(entry: Spliced<'_>) -> Option<u32>
    ensures { result ≡ begun_file (Some (item_of entry.entry)) }
{
    match entry {
        Spliced::Start { file, .. } => Some(file),
        _ => None,
    }
}

/// Passes all entries before the first one that is directly in this file, in this line or a later one, or that ends it.
fn pass_lines<'g>(
    draft: &mut Draft<'g>,
    entries: &mut Entries<'g>,
    line: u64,
) -> Result<(), NoMemory>
    requires { length entries.old ≤ most_items }
    ensures { OnOk result (draft.new ≡ behind_all draft.old (take (unwrap_or (first_inside (ends_or_reaches line) entries.old 0) (length entries.old)) entries.old)) }
{
    let mut depth = 0;
    while let Some(entry) = entries.next() {
        let entry = entry?;
        if is_over(entry, line, depth) {
            return Ok(());
        }
        draft.pass(entry)?;
        let Some(inner) = depth_behind(entry, depth) else {
            return Ok(());
        };
        depth = inner;
    }
    Ok(())
}

/// Whether an entry is directly in this file, and in this line or a later one, or ends the file.
fn is_over(entry: Spliced<'_>, line: u64, depth: u64) -> bool
    ensures { result ≡ (depth == 0 && ends_or_reaches line (item_of entry.entry)) }
{
    match entry {
        Spliced::Define { line: at, .. }
        | Spliced::Undef { line: at, .. }
        | Spliced::Start { line: at, .. } => depth == 0 && line <= at,
        Spliced::End => depth == 0,
    }
}
