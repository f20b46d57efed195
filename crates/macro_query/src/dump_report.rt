ghost use Rattle.std.specs.Prelude.{◌≡◌, ◌⊎◌, ◌++◌, List, ℕ, codes, decimal, IfErr, OnOk, Ok, Err};
ghost use Rattle.mac_base.specs.SectionBytes.{bytes_of};
ghost use Rattle.mac_base.specs.Items.{Item};
ghost use Rattle.import_graph.specs.declared.fault.FileFault.{FileFault};
ghost use Rattle.import_graph.specs.Numbers.{named_item};
ghost use Rattle.import_graph.specs.Graph.{named};
ghost use Rattle.macro_query.specs.declared.fault.QueryFault.TheVariants.{NoMemory as RanOut};
ghost use Rattle.macro_query.specs.Limits.{Answers};
ghost use Rattle.mac_base.specs.ReportText.{Tells};
ghost use Rattle.macro_query.specs.Roots.{file_fault, RootSays, RootsSay, DumpOf, root_line, root_lines};
ghost use Rattle.mac_base.specs.ItemLines.{item_line, item_lines};
ghost use Rattle.macro_query.specs.Queries.{DumpSays};

use crate::fault::QueryFault;
use crate::finished::finished;
use crate::roots::{graph_of, path_of, roots_of};
use crate::sections::sections_of;
use import_graph::{Graph, Spliced};
use info_roots::Root;
use mac_base::{
    Bytes, NoMemory, ReportBuilder, Sections, push_bytes, push_item, push_number, push_text,
};
use std::alloc::Global;

/// All roots of an ELF file in their order, each with its entries, where imported units are in their places, or the
/// first fault: of the file's headers or sections, of `.debug_info`, or of the first root that has one (DWARF 5, 6.3).
pub fn dump(alloc: Global, file: &[u8]) -> Result<Bytes, QueryFault>
    ensures { Answers result (DumpSays file.now) }
{
    let s = sections_of(file)?;
    dump_sections(alloc, &s)
}

/// The same of these sections.
fn dump_sections(alloc: Global, s: &Sections<'_>) -> Result<Bytes, QueryFault>
    ensures { Answers result (RootsSay (λ view. DumpOf view 0) (bytes_of s.now)) }
{
    let roots = roots_of(alloc, s)?;
    dump_roots(alloc, s, roots.as_slice())
}

/// The same of these roots.
fn dump_roots(alloc: Global, s: &Sections<'_>, roots: &[Root]) -> Result<Bytes, QueryFault>
    ensures { Answers result (DumpOf (bytes_of s.now) 0 roots.now) }
{
    let mut report = ReportBuilder::new(alloc);
    let mut left = roots;
    let mut number = 0;
    while let Some((root, behind)) = left.split_first() {
        add_root(alloc, &mut report, s, number, root)?;
        left = behind;
        number += 1;
    }
    finished(report)
}

/// Adds the lines of a root.
fn add_root(
    alloc: Global,
    report: &mut ReportBuilder,
    s: &Sections<'_>,
    number: u64,
    root: &Root,
) -> Result<(), QueryFault>
    ensures ok { OnOk result ((items : List (Item (List ℕ))) × RootSays (bytes_of s.now) root.now (Ok items)
        × ((whole : List ℕ) → Tells report.old.is_long report.old.text.items whole → Tells report.new.is_long report.new.text.items (whole ++ root_lines number root.now items))) }
    ensures err { IfErr result (λ fault. (fault ≡ RanOut) ⊎ ((file : FileFault) × (fault ≡ file_fault file) × RootSays (bytes_of s.now) root.now (Err file))) }
{
    let graph = graph_of(alloc, s, root)?;
    add_head(report, number, root.name.as_slice())?;
    add_entries(report, &graph)?;
    Ok(())
}

/// Adds the line of a root.
fn add_head(report: &mut ReportBuilder, number: u64, name: &[u8]) -> Result<(), NoMemory>
    ensures { OnOk result ((whole : List ℕ) → Tells report.old.is_long report.old.text.items whole → Tells report.new.is_long report.new.text.items (whole ++ root_line number name.now)) }
{
    if report.is_long {
        return Ok(());
    }
    push_head(&mut report.text, number, name)?;
    report.settle();
    Ok(())
}

/// Appends the line of a root.
fn push_head(text: &mut Vec<u8>, number: u64, name: &[u8]) -> Result<(), NoMemory>
    ensures { OnOk result (text.new.items ≡ text.old.items ++ root_line number name.now) }
{
    push_bytes(text, b"root")?;
    push_number(text, number)?;
    push_text(text, name)?;
    text.push(b'\n')?;
    Ok(())
}

/// Adds the lines of all entries.
fn add_entries(report: &mut ReportBuilder, graph: &Graph<'_>) -> Result<(), NoMemory>
    ensures { OnOk result ((whole : List ℕ) → Tells report.old.is_long report.old.text.items whole
        → Tells report.new.is_long report.new.text.items (whole ++ item_lines (named graph.now.paths graph.now.items))) }
{
    let mut entries = graph.entries()?;
    while let Some(entry) = entries.next() {
        add_entry(report, graph, entry?)?;
    }
    Ok(())
}

/// Adds the line of an entry.
fn add_entry(
    report: &mut ReportBuilder,
    graph: &Graph<'_>,
    entry: Spliced<'_>,
) -> Result<(), NoMemory>
    ensures { OnOk result ((whole : List ℕ) → Tells report.old.is_long report.old.text.items whole
        → Tells report.new.is_long report.new.text.items (whole ++ item_line (named_item graph.now.paths entry.entry))) }
{
    if report.is_long {
        return Ok(());
    }
    push_entry(&mut report.text, graph, entry)?;
    report.settle();
    Ok(())
}

/// Appends the line of an entry.
fn push_entry(text: &mut Vec<u8>, graph: &Graph<'_>, entry: Spliced<'_>) -> Result<(), NoMemory>
    ensures { OnOk result (text.new.items ≡ text.old.items ++ item_line (named_item graph.now.paths entry.entry)) }
{
    match entry {
        Spliced::Define { line, text: words } => push_item(text, b"define", line, words),
        Spliced::Undef { line, name } => push_item(text, b"undef", line, name),
        Spliced::Start { line, file } => push_item(text, b"start", line, path_of(graph, file)),
        Spliced::End => push_bytes(text, b"end\n"),
    }
}
