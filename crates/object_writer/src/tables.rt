ghost use Rattle.std.specs.Prelude.{◌≡◌, ◌+◌, ◌≤◌, ◌<◌, ◌^◌, ◌++◌, [], ◌∷◌, Some, Err, true, length, OnOk, IfOk};
ghost use Rattle.std.specs.List.{list_any};
ghost use Rattle.string_sections.specs.Contributions.{header_size};
ghost use Rattle.object_writer.specs.Elf.{is_too_large};
ghost use Rattle.object_writer.specs.Relocations.{table_of};
ghost use Rattle.object_writer.specs.Object.{contents_section, relocation_section, strings_section, offsets_sections, offset_relocations, string_sections};

use crate::fault::WriteFault;
use crate::gabi::{SHF_INFO_LINK, SHF_MERGE, SHF_STRINGS};
use crate::layout::Layout;
use crate::relocation::{Relocation, Target, push_relocation};
use crate::section::{Section, SectionName, SectionType};
use crate::strings::Strings;
use crate::unit::{Relocated, width_of};
use mac_base::{Bytes, NoMemory};
use std::alloc::Global;
use string_sections::write_offsets;

/// A section whose contents its name explains.
pub fn contents_section(name: SectionName, flags: u64, contents: Bytes) -> Section
    ensures { result ≡ contents_section name flags contents }
{
    Section {
        name,
        kind: SectionType::Contents,
        flags,
        link: 0,
        info: 0,
        entry_size: 0,
        contents,
    }
}

/// The relocations of the section of a number.
pub fn relocation_section(
    layout: Layout,
    name: SectionName,
    flags: u64,
    number: u32,
    contents: Vec<u8>,
) -> Section
    requires { layout.pieces ≤ 16384 }
    ensures { result ≡ relocation_section layout name flags number contents.items }
{
    Section {
        name,
        kind: SectionType::Relocations,
        flags,
        link: layout.symbols(),
        info: number,
        entry_size: 24,
        contents: Bytes::from_vec(contents),
    }
}

/// Appends a macro unit, which is the section of this number, and its relocations. Both have these flags.
pub fn push_unit(
    sections: &mut Vec<Section>,
    layout: Layout,
    number: u32,
    flags: u64,
    unit: Relocated,
) -> Result<(), NoMemory>
    requires few { layout.pieces ≤ 16384 }
    requires flags { flags ≤ 0x200 }
    ensures { OnOk result (sections.new.items ≡ sections.old.items ++ contents_section SectionName.Macro flags unit.contents.items ∷ relocation_section layout SectionName.RelaMacro (SHF_INFO_LINK + flags) number unit.relocations.items ∷ []) }
{
    let Relocated {
        contents,
        relocations,
    } = unit;
    let contents = Bytes::from_vec(contents);
    sections.push(contents_section(SectionName::Macro, flags, contents))?;
    sections.push(relocation_section(
        layout,
        SectionName::RelaMacro,
        SHF_INFO_LINK + flags,
        number,
        relocations,
    ))?;
    Ok(())
}

/// Appends `.debug_str`, and `.debug_str_offsets` with its relocations where offsets are kept.
pub fn push_strings(
    sections: &mut Vec<Section>,
    layout: Layout,
    wide: bool,
    strings: Strings,
) -> Result<(), WriteFault>
    requires { layout.pieces ≤ 16384 }
    ensures ok { OnOk result (sections.new.items ≡ sections.old.items ++ string_sections layout wide strings) }
    ensures large { result ≡ Err WriteFault.TooLarge → list_any is_too_large (string_sections layout wide strings) ≡ true }
{
    let Strings { pool, offsets } = strings;
    sections.push(strings_section(pool.into_bytes()))?;
    match &offsets {
        None => Ok(()),
        Some(offsets) => push_offsets(sections, layout, wide, offsets.as_slice()),
    }
}

/// The section `.debug_str` with these contents.
pub fn strings_section(contents: Bytes) -> Section
    ensures { result ≡ strings_section contents }
{
    Section {
        name: SectionName::Str,
        kind: SectionType::Contents,
        flags: SHF_MERGE + SHF_STRINGS,
        link: 0,
        info: 0,
        entry_size: 1,
        contents,
    }
}

/// The most entries of a written `.debug_str_offsets`: with more, the section would be too large.
const MOST_OFFSETS: usize = 268_435_454;

/// Appends `.debug_str_offsets` with these offsets, and its relocations.
fn push_offsets(
    sections: &mut Vec<Section>,
    layout: Layout,
    wide: bool,
    offsets: &[u32],
) -> Result<(), WriteFault>
    requires { layout.pieces ≤ 16384 }
    ensures ok { OnOk result (sections.new.items ≡ sections.old.items ++ offsets_sections layout wide (Some offsets.now)) }
    ensures large { result ≡ Err WriteFault.TooLarge → list_any is_too_large (offsets_sections layout wide (Some offsets.now)) ≡ true }
{
    if offsets.len() > MOST_OFFSETS {
        return Err(WriteFault::TooLarge);
    }
    let alloc = *sections.allocator();
    let mut contents = Vec::new(alloc);
    write_offsets(&mut contents, offsets.len() as u32, wide)?;
    let relocations = relocations_of(alloc, layout, wide, offsets)?;
    let contents = Bytes::from_vec(contents);
    sections.push(contents_section(SectionName::StrOffsets, 0, contents))?;
    sections.push(relocation_section(
        layout,
        SectionName::RelaStrOffsets,
        0,
        layout.offsets(),
        relocations,
    ))?;
    Ok(())
}

/// The relocations of string offsets.
fn relocations_of(
    alloc: Global,
    layout: Layout,
    wide: bool,
    offsets: &[u32],
) -> Result<Vec<u8>, NoMemory>
    requires few { layout.pieces ≤ 16384 }
    requires count { length offsets.now ≤ 268_435_454 }
    ensures { IfOk result (λ relocations. relocations.items ≡ table_of wide (offset_relocations layout wide (header_size wide) offsets.now)) }
{
    let symbol = layout.strs();
    let mut relocations = Vec::with_capacity(alloc, 24 * offsets.len())?;
    let mut place = if wide { 16 } else { 8 };
    for offset in offsets {
        let target = Target {
            symbol,
            addend: *offset,
        };
        push_relocation(&mut relocations, wide, Relocation { place, target })?;
        place += width_of(wide);
    }
    Ok(relocations)
}
