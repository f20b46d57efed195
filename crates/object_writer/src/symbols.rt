ghost use Rattle.std.specs.Prelude.{◌≡◌, ◌+◌, ◌≤◌, ◌<◌, ◌++◌, [], ◌∷◌, Err, true, length, map, OnOk, IfOk};
ghost use Rattle.std.specs.List.{list_any, flat_map, range_with_len};
ghost use Rattle.object_writer.specs.Elf.{section_limit, is_too_large, name_table};
ghost use Rattle.object_writer.specs.Layouts.{abbrev_number};
ghost use Rattle.object_writer.specs.Object.{group_section, symtab_section, strtab_section, symbol_bytes, piece_symbols, symbol_table, piece_names, symbol_sections};

use crate::fault::WriteFault;
use crate::gabi::{GRP_COMDAT, STT_NOTYPE, STT_SECTION};
use crate::layout::{Layout, group_of};
use crate::numbers::{push_half, push_word, push_xword, push_zeros};
use crate::section::{LIMIT, Section, SectionName, SectionType};
use mac_base::{Bytes, NoMemory};
use std::alloc::Global;
use unit_splitter::{Piece, piece_name};

/// The size of an entry of `.symtab`.
const SYMBOL_SIZE: usize = 24;

/// The section group of piece `k`.
pub fn group(alloc: Global, layout: Layout, k: u32) -> Result<Section, NoMemory>
    requires few { layout.pieces ≤ 16384 }
    requires within { k < layout.pieces }
    ensures { IfOk result (λ section. section ≡ group_section layout k) }
{
    let mut members = Vec::with_capacity(alloc, 12)?;
    push_word(&mut members, GRP_COMDAT)?;
    push_word(&mut members, group_of(k) + 1)?;
    push_word(&mut members, group_of(k) + 2)?;
    Ok(Section {
        name: SectionName::Group,
        kind: SectionType::Members,
        flags: 0,
        link: layout.symbols(),
        info: layout.piece_symbol(k),
        entry_size: 4,
        contents: Bytes::from_vec(members),
    })
}

/// Appends `.symtab` and `.strtab`.
pub fn push_symbols(
    sections: &mut Vec<Section>,
    layout: Layout,
    wide: bool,
    pieces: &[Piece],
) -> Result<(), WriteFault>
    requires few { layout.pieces ≤ 16384 }
    requires count { layout.pieces ≡ length pieces.now }
    ensures ok { OnOk result (sections.new.items ≡ sections.old.items ++ symbol_sections layout (piece_names wide pieces.now)) }
    ensures large { result ≡ Err WriteFault.TooLarge → list_any is_too_large (symbol_sections layout (piece_names wide pieces.now)) ≡ true }
{
    let (symbols, names) = symbols_of(*sections.allocator(), layout, wide, pieces)?;
    sections.push(symtab_section(layout, Bytes::from_vec(symbols)))?;
    sections.push(strtab_section(Bytes::from_vec(names)))?;
    Ok(())
}

/// The section `.symtab` with these contents.
fn symtab_section(layout: Layout, contents: Bytes) -> Section
    requires { layout.pieces ≤ 16384 }
    ensures { result ≡ symtab_section layout contents }
{
    Section {
        name: SectionName::Symtab,
        kind: SectionType::Symbols,
        flags: 0,
        link: layout.symbols() + 1,
        info: layout.piece_symbol(layout.pieces),
        entry_size: SYMBOL_SIZE as u64,
        contents,
    }
}

/// The section `.strtab` with these contents.
fn strtab_section(contents: Bytes) -> Section
    ensures { result ≡ strtab_section contents }
{
    Section {
        name: SectionName::Strtab,
        kind: SectionType::Strings,
        flags: 0,
        link: 0,
        info: 0,
        entry_size: 0,
        contents,
    }
}

/// The contents of `.symtab` and `.strtab`.
#[tactic(auto, unfolding(crate::specs::Object::symbol_table))]
fn symbols_of(
    alloc: Global,
    layout: Layout,
    wide: bool,
    pieces: &[Piece],
) -> Result<(Vec<u8>, Vec<u8>), WriteFault>
    requires few { layout.pieces ≤ 16384 }
    requires count { layout.pieces ≡ length pieces.now }
    ensures symbols { IfOk result (λ tables. tables.0.items ≡ symbol_table layout (piece_names wide pieces.now)) }
    ensures names { IfOk result (λ tables. tables.1.items ≡ name_table (piece_names wide pieces.now)) }
    ensures large { result ≡ Err WriteFault.TooLarge → section_limit < length (name_table (piece_names wide pieces.now)) }
{
    let count = layout.piece_symbol(layout.pieces) as usize;
    let mut symbols = Vec::with_capacity(alloc, count * SYMBOL_SIZE)?;
    let mut names = Vec::new(alloc);
    names.push(0)?;
    push_zeros(&mut symbols, SYMBOL_SIZE)?;
    push_section_symbols(&mut symbols, layout)?;
    push_piece_symbols(&mut symbols, &mut names, wide, pieces)?;
    Ok((symbols, names))
}

/// Appends the symbols of sections.
fn push_section_symbols(symbols: &mut Vec<u8>, layout: Layout) -> Result<(), NoMemory>
    requires { layout.pieces ≤ 16384 }
    ensures { OnOk result (symbols.new.items ≡ symbols.old.items ++ flat_map (symbol_bytes 0 STT_SECTION) (range_with_len 1 (abbrev_number layout))) }
{
    let end = layout.abbrevs() as u16 + 1;
    for number in 1..end {
        push_symbol(symbols, 0, STT_SECTION, number)?;
    }
    Ok(())
}

/// Appends the symbols of pieces to `.symtab`, and their names to `.strtab`.
fn push_piece_symbols(
    symbols: &mut Vec<u8>,
    names: &mut Vec<u8>,
    wide: bool,
    pieces: &[Piece],
) -> Result<(), WriteFault>
    requires few { length pieces.now ≤ 16384 }
    requires start { names.old.items ≡ 0 ∷ [] }
    ensures symbols { OnOk result (symbols.new.items ≡ symbols.old.items ++ piece_symbols 0 1 (piece_names wide pieces.now)) }
    ensures names { OnOk result (names.new.items ≡ name_table (piece_names wide pieces.now)) }
    ensures large { result ≡ Err WriteFault.TooLarge → section_limit < length (name_table (piece_names wide pieces.now)) }
{
    let mut k = 0;
    for piece in pieces {
        if names.len() > LIMIT {
            return Err(WriteFault::TooLarge);
        }
        push_symbol(symbols, names.len() as u32, STT_NOTYPE, group_of(k) as u16)?;
        let name = piece_name(*symbols.allocator(), piece, wide)?;
        names.extend_from_slice(name.as_slice())?;
        names.push(0)?;
        k += 1;
    }
    Ok(())
}

/// Appends a symbol: where its name is in `.strtab`, its type, and its section.
#[tactic(auto, unfolding(crate::specs::Object::symbol_bytes))]
fn push_symbol(symbols: &mut Vec<u8>, name: u32, kind: u8, section: u16) -> Result<(), NoMemory>
    ensures { OnOk result (symbols.new.items ≡ symbols.old.items ++ symbol_bytes name kind section) }
{
    push_word(symbols, name)?;
    symbols.extend_from_slice(&[kind, 0])?;
    push_half(symbols, section)?;
    push_xword(symbols, 0)?;
    push_xword(symbols, 0)?;
    Ok(())
}
