ghost use Rattle.std.specs.Prelude.{◌≡◌, ◌+◌, ◌≤◌, ◌<◌, ◌++◌, [], ◌∷◌, ℕ, List, Some, Err, true, length, All, OnOk, IfOk};
ghost use Rattle.std.specs.List.{list_any};
ghost use Rattle.mac_base.specs.Answers.{AnswersAs};
ghost use Rattle.string_sections.specs.Pool.{pool_bytes};
ghost use Rattle.unit_splitter.specs.Laws.{IsThere};
ghost use Rattle.object_writer.specs.Elf.{section_limit, is_too_large, ran_out};
ghost use Rattle.object_writer.specs.Strings.{texts_of, piece_texts, root_texts, note_all, strings_of};
ghost use Rattle.object_writer.specs.Object.{IsWritable, piece_sections, pieces_sections, root_sections, sections_with, made};

use crate::elf::{FileType, write_file};
use crate::fault::WriteFault;
use crate::gabi::SHF_GROUP;
use crate::info::push_info;
use crate::layout::{Layout, piece_macro};
use crate::lines::push_lines;
use crate::section::Section;
use crate::strings::Strings;
use crate::symbols::{group, push_symbols};
use crate::tables::{push_strings, push_unit};
use crate::unit::{piece_unit, root_unit};
use mac_base::{Bytes, Paths};
use std::alloc::Global;
use unit_splitter::{Piece, RootEntry, Split};

/// What an object says of its compilation unit.
#[derive(Debug, Drop)]
pub struct UnitInfo {
    /// The primary source (`DW_AT_name`).
    pub name: Bytes,
    /// The folder in which it was compiled (`DW_AT_comp_dir`).
    pub dir: Bytes,
    /// The files of the line table, by their indexes from 0 on.
    pub files: Paths,
}

/// The forms that an object is written in.
#[derive(Clone, Copy, Debug)]
pub struct Forms {
    /// Whether the root's definitions have their strings by index (`DW_FORM_strx`).
    pub strx: bool,
    /// Whether offsets have 8 bytes (the 64-bit format; DWARF 5, 7.4).
    pub wide: bool,
}

/// An object, and what is told of it.
#[derive(Debug, Drop)]
pub struct Written {
    pub bytes: Bytes,
    /// How many different strings its macro units have.
    pub strings: u64,
}

/// A relocatable object with the macro information of a translation unit. `TooLarge` exactly where one of its sections
/// would have more than 1,073,741,824 bytes.
pub fn write_object(
    alloc: Global,
    split: &Split,
    unit: &UnitInfo,
    forms: Forms,
) -> Result<Bytes, WriteFault>
    requires { IsWritable split.now }
    ensures { AnswersAs ran_out (λ file. file) result (made split.now unit.now forms) }
{
    let Written { bytes, .. } = written_object(alloc, split, unit, forms)?;
    Ok(bytes)
}

/// The same, with the number of its strings.
#[tactic(auto, unfolding(crate::specs::Object::sections_of))]
pub fn written_object(
    alloc: Global,
    split: &Split,
    unit: &UnitInfo,
    forms: Forms,
) -> Result<Written, WriteFault>
    requires { IsWritable split.now }
    ensures bytes { AnswersAs ran_out (λ written. written.bytes) result (made split.now unit.now forms) }
    ensures strings { IfOk result (λ written. written.strings ≡ length (strings_of forms.strx split.now).pool) }
{
    let layout = Layout {
        pieces: split.pieces.len() as u32,
        indexed: forms.strx,
    };
    let (sections, strings) = object_sections(alloc, layout, forms.wide, split, unit)?;
    let bytes = write_file(alloc, FileType::Relocatable, sections)?;
    Ok(Written { bytes, strings })
}

/// The sections of an object from section 1 on, but for `.shstrtab`, and the number of its strings.
fn object_sections(
    alloc: Global,
    layout: Layout,
    wide: bool,
    split: &Split,
    unit: &UnitInfo,
) -> Result<(Vec<Section>, u64), WriteFault>
    requires writable { IsWritable split.now }
    requires count { layout.pieces ≡ length split.now.pieces }
    ensures strings { IfOk result (λ made. made.1 ≡ length (strings_of layout.indexed split.now).pool) }
    ensures sections { IfOk result (λ made. made.0.items ≡ sections_with layout wide (strings_of layout.indexed split.now) split.now unit.now) }
    ensures large { result ≡ Err WriteFault.TooLarge → list_any is_too_large (sections_with layout wide (strings_of layout.indexed split.now) split.now unit.now) ≡ true }
{
    let mut strings = Strings::new(alloc);
    let mut sections = Vec::with_capacity(alloc, 3 * layout.pieces as usize + 14)?;
    push_pieces(
        &mut sections,
        layout,
        wide,
        split.pieces.as_slice(),
        &mut strings,
    )?;
    strings.keep_offsets(alloc, layout.indexed);
    push_root(
        &mut sections,
        layout,
        wide,
        split.root.as_slice(),
        &mut strings,
    )?;
    let count = strings.pool.count();
    push_strings(&mut sections, layout, wide, strings)?;
    push_lines(&mut sections, wide, &unit.files)?;
    push_info(&mut sections, layout, wide, unit)?;
    push_symbols(&mut sections, layout, wide, split.pieces.as_slice())?;
    Ok((sections, count))
}

/// Appends the sections of pieces.
fn push_pieces(
    sections: &mut Vec<Section>,
    layout: Layout,
    wide: bool,
    pieces: &[Piece],
    strings: &mut Strings,
) -> Result<(), WriteFault>
    requires few { layout.pieces ≤ 16384 }
    requires count { layout.pieces ≡ length pieces.now }
    ensures noted { OnOk result (strings.new ≡ note_all strings.old (piece_texts pieces.now)) }
    ensures sections { (later : List (List ℕ)) → OnOk result (sections.new.items ≡ sections.old.items ++ pieces_sections layout wide (note_all strings.new later) 0 pieces.now) }
    ensures large { result ≡ Err WriteFault.TooLarge → section_limit < length (pool_bytes (note_all strings.old (piece_texts pieces.now)).pool) }
{
    let mut k = 0;
    for piece in pieces {
        push_piece(sections, layout, wide, k, piece, strings)?;
        k += 1;
    }
    Ok(())
}

/// Appends the sections of piece `k`.
fn push_piece(
    sections: &mut Vec<Section>,
    layout: Layout,
    wide: bool,
    k: u32,
    piece: &Piece,
    strings: &mut Strings,
) -> Result<(), WriteFault>
    requires few { layout.pieces ≤ 16384 }
    requires within { k < layout.pieces }
    ensures noted { OnOk result (strings.new ≡ note_all strings.old (texts_of piece.now)) }
    ensures sections { (later : List (List ℕ)) → OnOk result (sections.new.items ≡ sections.old.items ++ piece_sections layout wide (note_all strings.new later) k piece.now) }
    ensures large { result ≡ Err WriteFault.TooLarge → section_limit < length (pool_bytes (note_all strings.old (texts_of piece.now)).pool) }
{
    let alloc = *sections.allocator();
    let unit = piece_unit(
        alloc,
        wide,
        layout.strs(),
        piece.entries.as_slice(),
        strings,
    )?;
    sections.push(group(alloc, layout, k)?)?;
    push_unit(sections, layout, piece_macro(k), SHF_GROUP, unit)?;
    Ok(())
}

/// Appends the macro unit of the root, and its relocations.
fn push_root(
    sections: &mut Vec<Section>,
    layout: Layout,
    wide: bool,
    entries: &[RootEntry],
    strings: &mut Strings,
) -> Result<(), WriteFault>
    requires few { layout.pieces ≤ 16384 }
    requires fit { All (IsThere layout.pieces) entries.now }
    ensures noted { OnOk result (strings.new ≡ note_all strings.old (root_texts entries.now)) }
    ensures sections { OnOk result (sections.new.items ≡ sections.old.items ++ root_sections layout wide strings.new entries.now) }
    ensures large { result ≡ Err WriteFault.TooLarge → section_limit < length (pool_bytes (note_all strings.old (root_texts entries.now)).pool) }
{
    let unit = root_unit(*sections.allocator(), wide, layout, entries, strings)?;
    push_unit(sections, layout, layout.macros(), 0, unit)?;
    Ok(())
}
