ghost use Rattle.std.specs.Prelude.{◌≡◌, ◌+◌, ◌≤◌, Err, true, min, length, IfOk};
ghost use Rattle.std.specs.List.{list_any};
ghost use Rattle.mac_base.specs.Answers.{AnswersAs};
ghost use Rattle.info_roots.specs.Written.{info_bytes, unit_bytes, optional_bytes};
ghost use Rattle.object_writer.specs.Elf.{section_limit, is_too_large, ran_out};
ghost use Rattle.object_writer.specs.Linked.{linked, linked_sections, IsLinkable};

use crate::elf::{FileType, write_file};
use crate::fault::WriteFault;
use crate::section::{LIMIT, Section, SectionName};
use crate::tables::{contents_section, strings_section};
use crate::unit::width_of;
use info_roots::{Root, RootList, write_roots};
use mac_base::Bytes;
use std::alloc::Global;

/// What a linked file is made of.
#[derive(Debug, Drop)]
pub struct LinkedParts {
    /// The contents of `.debug_macro`.
    pub macros: Bytes,
    /// The contents of `.debug_str`.
    pub strs: Bytes,
    /// The contents of `.debug_str_offsets`.
    pub str_offsets: Bytes,
    /// The contents of `.debug_line`.
    pub lines: Bytes,
    /// The compilation units of `.debug_info`, in order.
    pub roots: RootList,
    /// How many macro units of groups there are.
    pub pieces: u64,
    /// How many different strings there are.
    pub strings: u64,
}

/// A linked file with macro information. `TooLarge` exactly where one of its sections would have more than
/// 1,073,741,824 bytes.
pub fn write_linked(alloc: Global, parts: &LinkedParts) -> Result<Bytes, WriteFault>
    requires { IsLinkable parts.now }
    ensures { AnswersAs ran_out (λ file. file) result (linked parts.now) }
{
    let sections = linked_sections(alloc, parts)?;
    write_file(alloc, FileType::Executable, sections)
}

/// The sections of a linked file from section 1 on, but for `.shstrtab`.
fn linked_sections(alloc: Global, parts: &LinkedParts) -> Result<Vec<Section>, WriteFault>
    requires { IsLinkable parts.now }
    ensures sections { IfOk result (λ sections. sections.items ≡ linked_sections parts.now) }
    ensures large { result ≡ Err WriteFault.TooLarge → list_any is_too_large (linked_sections parts.now) ≡ true }
{
    if roots_size(parts.roots.as_slice()) > LIMIT {
        return Err(WriteFault::TooLarge);
    }
    let (info, abbrevs) = write_roots(alloc, parts.roots.as_slice())?;
    let mut sections = Vec::with_capacity(alloc, 7)?;
    sections.push(contents_section(SectionName::Macro, 0, parts.macros.copy()?))?;
    sections.push(strings_section(parts.strs.copy()?))?;
    sections.push(contents_section(SectionName::StrOffsets, 0, parts.str_offsets.copy()?))?;
    sections.push(contents_section(SectionName::Line, 0, parts.lines.copy()?))?;
    sections.push(contents_section(SectionName::Info, 0, info))?;
    sections.push(contents_section(SectionName::Abbrev, 0, abbrevs))?;
    Ok(sections)
}

/// How many bytes the units of roots have, or the limit and a byte where they have more.
fn roots_size(roots: &[Root]) -> usize
    ensures { result ≡ min (length (info_bytes roots.now)) (section_limit + 1) }
{
    let mut size = 0;
    for root in roots {
        size = (size + unit_size(root)).min(LIMIT + 1);
    }
    size
}

/// How many bytes the unit of a root has, or the limit and a byte where it has more.
#[tactic(auto, using(crate::proofs::LinkedLemmas::unit_long))]
fn unit_size(root: &Root) -> usize
    ensures { result ≡ min (length (unit_bytes root.now)) (section_limit + 1) }
{
    let start = if root.wide { 12 } else { 4 };
    let width = width_of(root.wide) as usize;
    let offsets = width
        + width
        + optional_size(root.wide, root.line)
        + optional_size(root.wide, root.str_base);
    let texts = root.name.len().min(LIMIT + 1) + root.dir.len().min(LIMIT + 1);
    (start + 7 + offsets + texts).min(LIMIT + 1)
}

/// How many bytes an offset has that an entry may lack.
#[tactic(auto, using(crate::proofs::LinkedLemmas::optional_long))]
fn optional_size(wide: bool, offset: Option<u64>) -> usize
    ensures size { result ≡ length (optional_bytes wide offset) }
    ensures small { result ≤ 8 }
{
    match offset {
        None => 0,
        Some(_) => width_of(wide) as usize,
    }
}
