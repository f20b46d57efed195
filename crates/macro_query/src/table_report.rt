ghost use Rattle.std.specs.Prelude.{◌≡◌, ◌⊎◌, ◌++◌, List, ℕ, codes, decimal, map, OnOk, Err};
ghost use Rattle.std.specs.Option.{option_map, option_copied};
ghost use Rattle.std.specs.FinMap as finite;
ghost use Rattle.macro_table.specs.Tables.{entry_value, renamed_value};
ghost use Rattle.mac_base.specs.ItemLines.{path_in};
ghost use Rattle.macro_query.specs.declared.fault.QueryFault.TheVariants.{NoMemory as RanOut};
ghost use Rattle.macro_query.specs.Limits.{Answers, limited};
ghost use Rattle.mac_base.specs.ReportText.{Tells};
ghost use Rattle.macro_query.specs.Tables.{info_by, list_line, list_text, define_line, innermost, inclusions, named_frame, found_text};
ghost use Rattle.macro_query.specs.Queries.{InfoSays, ListSays};

use crate::fault::QueryFault;
use crate::finished::finished;
use crate::position::find;
use crate::roots::path_of;
use import_graph::Graph;
use mac_base::{Bytes, Frame, NoMemory, ReportBuilder, push_bytes, push_decimal};
use macro_table::{Entry, Table};
use position_table::Position;
use std::alloc::Global;

/// The definition of a name that holds at a position of an ELF file: where it is, the inclusions that lead there from
/// the innermost outwards, and its text; or that the name has none. Faults come in this order: the file's headers and
/// sections, `.debug_info`, `NoSuchUnit`, the root's macro information, the position (DWARF 5, 6.3).
pub fn info(
    alloc: Global,
    file: &[u8],
    position: &Position,
    name: &[u8],
) -> Result<Bytes, QueryFault>
    ensures { Answers result (InfoSays position.now name.now file.now) }
{
    let found = find(alloc, file, position)?;
    info_of(alloc, &found.graph, &found.table, name)
}

/// What is told of a name by this table.
fn info_of(
    alloc: Global,
    graph: &Graph<'_>,
    table: &Table,
    name: &[u8],
) -> Result<Bytes, QueryFault>
    ensures { (result ≡ Err RanOut) ⊎ (result ≡ limited (info_by name.now (option_map (renamed_value (path_in graph.now.paths)) (finite.get table.now name.now)))) }
{
    let mut report = ReportBuilder::new(alloc);
    push_info(&mut report.text, graph, name, table.get(name))?;
    report.settle();
    finished(report)
}

/// All definitions that hold at a position of an ELF file, in the order of the bytes of their names, or the first fault in
/// the order of `info`.
pub fn list(alloc: Global, file: &[u8], position: &Position) -> Result<Bytes, QueryFault>
    ensures { Answers result (ListSays position.now file.now) }
{
    let found = find(alloc, file, position)?;
    list_of(alloc, &found.table)
}

/// The definitions of a table.
fn list_of(alloc: Global, table: &Table) -> Result<Bytes, QueryFault>
    ensures { (result ≡ Err RanOut) ⊎ (result ≡ limited (list_text table.now)) }
{
    let mut report = ReportBuilder::new(alloc);
    let names = table.names()?;
    let mut left = names.as_slice();
    while let Some((name, behind)) = left.split_first() {
        add_definition(&mut report, table.get(name.as_slice()))?;
        left = behind;
    }
    finished(report)
}

/// Adds the line of a definition, if there is one.
fn add_definition(report: &mut ReportBuilder, entry: Option<&Entry>) -> Result<(), NoMemory>
    ensures { OnOk result ((whole : List ℕ) → Tells report.old.is_long report.old.text.items whole → Tells report.new.is_long report.new.text.items (whole ++ list_line (option_map entry_value (option_copied entry.entry)))) }
{
    let Some(entry) = entry else {
        return Ok(());
    };
    if report.is_long {
        return Ok(());
    }
    push_definition(&mut report.text, entry.text.as_slice())?;
    report.settle();
    Ok(())
}

/// Appends the line of a definition.
fn push_definition(text: &mut Vec<u8>, words: &[u8]) -> Result<(), NoMemory>
    ensures { OnOk result (text.new.items ≡ text.old.items ++ define_line words.now) }
{
    push_bytes(text, b"#define ")?;
    push_bytes(text, words)?;
    text.push(b'\n')?;
    Ok(())
}

/// Appends what is told of a name.
fn push_info(
    text: &mut Vec<u8>,
    graph: &Graph<'_>,
    name: &[u8],
    entry: Option<&Entry>,
) -> Result<(), NoMemory>
    ensures { OnOk result (text.new.items ≡ text.old.items ++ info_by name.now (option_map (renamed_value (path_in graph.now.paths)) (option_map entry_value (option_copied entry.entry)))) }
{
    match entry {
        Some(entry) => {
            push_found(text, graph, entry)?;
            Ok(())
        }
        None => {
            push_bytes(text, name)?;
            push_bytes(text, b" is not defined\n")
        }
    }
}

/// Appends where a definition is, and its text.
fn push_found(text: &mut Vec<u8>, graph: &Graph<'_>, entry: &Entry) -> Result<(), NoMemory>
    ensures { OnOk result (text.new.items ≡ text.old.items ++ found_text graph.now.paths entry.now) }
{
    let frames = entry.place.frames.as_slice();
    push_place(text, innermost(graph, frames), entry.place.line)?;
    push_inclusions(text, graph, frames)?;
    push_definition(text, entry.text.as_slice())?;
    Ok(())
}

/// Appends a file and a line.
fn push_place(text: &mut Vec<u8>, path: &[u8], line: u64) -> Result<(), NoMemory>
    ensures { OnOk result (text.new.items ≡ text.old.items ++ (codes "Defined at " ++ path.now ++ codes ":" ++ decimal line ++ codes "\n")) }
{
    push_bytes(text, b"Defined at ")?;
    push_bytes(text, path)?;
    push_bytes(text, b":")?;
    push_decimal(text, line)?;
    push_bytes(text, b"\n")
}

/// The path of the innermost file.
fn innermost<'g>(graph: &'g Graph<'_>, frames: &[Frame]) -> &'g [u8]
    ensures { result.now ≡ innermost (map (named_frame graph.now.paths) frames.now) }
{
    match frames.split_last() {
        Some((frame, _)) => path_of(graph, frame.path),
        None => b"<start>",
    }
}

/// Appends where each file but the outermost is included, the innermost first.
fn push_inclusions(text: &mut Vec<u8>, graph: &Graph<'_>, frames: &[Frame]) -> Result<(), NoMemory>
    ensures { OnOk result (text.new.items ≡ text.old.items ++ inclusions (map (named_frame graph.now.paths) frames.now)) }
{
    let Some((mut file, mut outer)) = frames.split_last() else {
        return Ok(());
    };
    while let Some((around, further)) = outer.split_last() {
        push_inclusion(text, path_of(graph, around.path), file.line)?;
        file = around;
        outer = further;
    }
    Ok(())
}

/// Appends where a file is included.
fn push_inclusion(text: &mut Vec<u8>, path: &[u8], line: u64) -> Result<(), NoMemory>
    ensures { OnOk result (text.new.items ≡ text.old.items ++ (codes "  included at " ++ path.now ++ codes ":" ++ decimal line ++ codes "\n")) }
{
    push_bytes(text, b"  included at ")?;
    push_bytes(text, path)?;
    push_bytes(text, b":")?;
    push_decimal(text, line)?;
    push_bytes(text, b"\n")
}
