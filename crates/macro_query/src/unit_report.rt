ghost use Rattle.std.specs.Prelude.{◌≡◌, ◌⊎◌, ◌++◌, ◌≤◌, ◌<◌, List, ℕ, length, IfErr, OnOk, Err, Ok};
ghost use Rattle.std.specs.Option.{option_map};
ghost use Rattle.mac_base.specs.SectionBytes.{bytes_of};
ghost use Rattle.macro_opcodes.specs.Entry.{Entry, entry_of};
ghost use Rattle.unit_header.specs.declared.fault.UnitFault.{UnitFault};
ghost use Rattle.macro_query.specs.declared.fault.QueryFault.TheVariants.{Unit as BadUnit, NoMemory as RanOut};
ghost use Rattle.macro_query.specs.UnitLines.{line_of};
ghost use Rattle.macro_query.specs.Unit.{shown};
ghost use Rattle.macro_query.specs.Limits.{Answers};
ghost use Rattle.mac_base.specs.ReportText.{Tells};
ghost use Rattle.macro_query.specs.Queries.{UnitSays, SectionSays, RawSays, UnitAtSays};

use crate::fault::QueryFault;
use crate::finished::finished;
use crate::sections::sections_of;
use crate::strings::{StringSection, show, test};
use crate::unit_lines::push_line;
use mac_base::{Bytes, Cursor, ReportBuilder, Sections, Steps};
use macro_opcodes::{RawEntry, read_entry};
use std::alloc::Global;
use std::marker::Brand;
use std::sync::ledger::{Blank, Ledger};
use unit_header::{UnitFault, UnitKind, read_header};

/// The report on the macro unit at the start of these bytes, or its first fault (DWARF 5, 6.3.1).
pub fn raw(alloc: Global, bytes: &[u8]) -> Result<Bytes, QueryFault>
    ensures { Answers result (RawSays bytes.now) }
{
    report(alloc, None, bytes, 0)
}

/// The report on the macro unit at an offset of an ELF file's `.debug_macro`, with the strings that it names in
/// `.debug_str`, or the first fault of the file's headers or of the unit. An offset that is not inside the section is
/// `ImportRange`, with that offset.
pub fn unit(alloc: Global, file: &[u8], at: u64) -> Result<Bytes, QueryFault>
    ensures { Answers result (UnitAtSays at file.now) }
{
    let s = sections_of(file)?;
    unit_in(alloc, &s, at)
}

/// The same of these sections.
fn unit_in(alloc: Global, s: &Sections<'_>, at: u64) -> Result<Bytes, QueryFault>
    ensures { Answers result (SectionSays at (bytes_of s.now)) }
{
    if at >= s.macros.len() as u64 {
        let what = UnitKind::ImportRange;
        return Err(QueryFault::Unit(UnitFault { at, what }));
    }
    let strs = StringSection::new(s.strs);
    report(alloc, Some(&strs), s.macros, at as usize)
}

/// The report on the unit at the offset of a section, with its strings where there is a string section to look them up
/// in.
fn report(
    alloc: Global,
    strs: Option<&StringSection<'_>>,
    section: &[u8],
    offset: usize,
) -> Result<Bytes, QueryFault>
    requires { offset ≤ length section.now }
    ensures { Answers result (UnitSays (option_map (λ s. s.now.bytes.now) strs.entry) section.now offset) }
{
    report_of::<Brand>(alloc, strs, section, offset, Blank::new(1))
}

/// The same, where a step is taken for each entry.
fn report_of<L: Ledger>(
    alloc: Global,
    strs: Option<&StringSection<'_>>,
    section: &[u8],
    offset: usize,
    blank: Blank,
) -> Result<Bytes, QueryFault>
    requires name { blank.name ≡ L.name }
    requires parts { blank.parts ≡ L.parts }
    requires some { 0 < L.parts }
    requires inside { offset ≤ length section.now }
    ensures { Answers result (UnitSays (option_map (λ s. s.now.bytes.now) strs.entry) section.now offset) }
{
    let mut steps = Steps::<L>::new(blank);
    let mut cursor = Cursor::new(section, offset);
    let header = read_header(&mut cursor)?;
    let mut report = ReportBuilder::new(alloc);
    while let Some(entry) = read_entry(&mut cursor, &header, &mut steps)? {
        add(&mut report, strs, entry)?;
    }
    finished(report)
}

/// Adds the line of an entry, with its string where strings are looked up. Where the report is too long the entry is only
/// tested.
fn add<'a>(
    report: &mut ReportBuilder,
    strs: Option<&StringSection<'a>>,
    entry: RawEntry<'a>,
) -> Result<(), QueryFault>
    ensures told { OnOk result ((line : Entry) × (shown (option_map (λ s. s.now.bytes.now) strs.entry) (entry_of entry.entry) ≡ Ok line)
        × ((whole : List ℕ) → Tells report.old.is_long report.old.text.items whole → Tells report.new.is_long report.new.text.items (whole ++ line_of line))) }
    ensures stop { IfErr result (λ stop. (stop ≡ RanOut) ⊎ ((fault : UnitFault) × (stop ≡ BadUnit fault) × (shown (option_map (λ s. s.now.bytes.now) strs.entry) (entry_of entry.entry) ≡ Err fault))) }
{
    if report.is_long {
        test(strs, entry)?;
        return Ok(());
    }
    let line = show(strs, entry)?;
    push_line(&mut report.text, &line)?;
    report.settle();
    Ok(())
}
