ghost use Rattle.std.specs.Prelude.{◌≡◌, ◌+◌, ◌≤◌, ◌<◌, ◌++◌, [], ◌∷◌, Err, true, nat_lt, length, OnOk, IfOk};
ghost use Rattle.std.specs.List.{list_any};
ghost use Rattle.info_roots.specs.Written.{info_bytes};
ghost use Rattle.object_writer.specs.Elf.{section_limit, is_too_large};
ghost use Rattle.object_writer.specs.Relocations.{relocation_bytes, table_of};
ghost use Rattle.object_writer.specs.Object.{info_sections, object_root, info_relocations, abbrev_place, macros_place};

use crate::fault::WriteFault;
use crate::layout::Layout;
use crate::object::UnitInfo;
use crate::relocation::{Relocation, Target, push_relocation};
use crate::section::{LIMIT, Section, SectionName};
use crate::tables::{contents_section, relocation_section};
use crate::unit::width_of;
use info_roots::{Root, write_roots};
use mac_base::NoMemory;
use std::alloc::Global;

/// Appends `.debug_info`, its relocations, and `.debug_abbrev`.
pub fn push_info(
    sections: &mut Vec<Section>,
    layout: Layout,
    wide: bool,
    unit: &UnitInfo,
) -> Result<(), WriteFault>
    requires { layout.pieces ≤ 16384 }
    ensures ok { OnOk result (sections.new.items ≡ sections.old.items ++ info_sections layout wide unit.now) }
    ensures large { result ≡ Err WriteFault.TooLarge → list_any is_too_large (info_sections layout wide unit.now) ≡ true }
{
    let alloc = *sections.allocator();
    if is_too_large(layout, wide, unit) {
        return Err(WriteFault::TooLarge);
    }
    let (info, abbrevs) = write_roots(alloc, &[object_root(layout, wide, unit)?])?;
    let relocations = relocations_of(alloc, layout, wide, unit)?;
    sections.push(contents_section(SectionName::Info, 0, info))?;
    sections.push(relocation_section(
        layout,
        SectionName::RelaInfo,
        0,
        layout.info(),
        relocations,
    ))?;
    sections.push(contents_section(SectionName::Abbrev, 0, abbrevs))?;
    Ok(())
}

/// The compilation unit, whose offsets are zero bytes.
fn object_root(layout: Layout, wide: bool, unit: &UnitInfo) -> Result<Root, NoMemory>
    ensures { IfOk result (λ root. root ≡ object_root layout wide unit.now) }
{
    Ok(Root {
        name: unit.name.copy()?,
        dir: unit.dir.copy()?,
        macros: 0,
        line: Some(0),
        str_base: if layout.indexed { Some(0) } else { None },
        wide,
    })
}

/// Whether the compilation unit has more bytes than a section may have.
#[tactic(auto, using(crate::proofs::InfoLemmas::info_long))]
fn is_too_large(layout: Layout, wide: bool, unit: &UnitInfo) -> bool
    ensures { result ≡ nat_lt section_limit (length (info_bytes (object_root layout wide unit.now ∷ []))) }
{
    if unit.name.len() > LIMIT || unit.dir.len() > LIMIT {
        return true;
    }
    info_size(layout, wide, unit) > LIMIT as u64
}

/// How many bytes the compilation unit has.
#[tactic(auto, using(crate::proofs::InfoLemmas::info_long))]
fn info_size(layout: Layout, wide: bool, unit: &UnitInfo) -> u64
    requires name { length unit.now.name ≤ section_limit }
    requires dir { length unit.now.dir ≤ section_limit }
    ensures { result ≡ length (info_bytes (object_root layout wide unit.now ∷ [])) }
{
    let base = if layout.indexed { width_of(wide) } else { 0 };
    macros_place(wide, unit) + width_of(wide) + width_of(wide) + base
}

/// Where the offset of the abbreviations is.
fn abbrev_place(wide: bool) -> u64
    ensures { result ≡ abbrev_place wide }
{
    if wide { 16 } else { 8 }
}

/// Where the offset of the root's macro unit is.
fn macros_place(wide: bool, unit: &UnitInfo) -> u64
    requires name { length unit.now.name ≤ section_limit }
    requires dir { length unit.now.dir ≤ section_limit }
    ensures place { result ≡ macros_place wide unit.now }
    ensures small { result ≤ 0x1_0000_0000 }
{
    abbrev_place(wide)
        + width_of(wide)
        + 1
        + (unit.name.len() as u64 + 1)
        + (unit.dir.len() as u64 + 1)
}

/// The relocations of the compilation unit.
fn relocations_of(
    alloc: Global,
    layout: Layout,
    wide: bool,
    unit: &UnitInfo,
) -> Result<Vec<u8>, NoMemory>
    requires few { layout.pieces ≤ 16384 }
    requires name { length unit.now.name ≤ section_limit }
    requires dir { length unit.now.dir ≤ section_limit }
    ensures { IfOk result (λ relocations. relocations.items ≡ table_of wide (info_relocations layout wide unit.now)) }
{
    let macros = macros_place(wide, unit);
    let line = macros + width_of(wide);
    let mut relocations = Vec::with_capacity(alloc, 4 * 24)?;
    push_reference(
        &mut relocations,
        wide,
        abbrev_place(wide),
        layout.abbrevs(),
        0,
    )?;
    push_reference(&mut relocations, wide, macros, layout.macros(), 0)?;
    push_reference(&mut relocations, wide, line, layout.lines(), 0)?;
    if layout.indexed {
        let header = if wide { 16 } else { 8 };
        push_reference(
            &mut relocations,
            wide,
            line + width_of(wide),
            layout.offsets(),
            header,
        )?;
    }
    Ok(relocations)
}

/// Appends the relocation of a field that refers to a place of a section.
fn push_reference(
    into: &mut Vec<u8>,
    wide: bool,
    place: u64,
    symbol: u32,
    addend: u32,
) -> Result<(), NoMemory>
    ensures { OnOk result (into.new.items ≡ into.old.items ++ relocation_bytes wide (record { place = place; target = record { symbol = symbol; addend = addend } })) }
{
    let target = Target { symbol, addend };
    push_relocation(into, wide, Relocation { place, target })
}
