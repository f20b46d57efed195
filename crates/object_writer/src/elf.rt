ghost use Rattle.std.specs.Prelude.{◌≡◌, ◌+◌, ◌*◌, ◌<◌, ◌≤◌, ◌^◌, ◌++◌, [], ◌∷◌, length, map, All, IfOk, OnOk};
ghost use Rattle.std.specs.List.{list_any};
ghost use Rattle.mac_base.specs.Answers.{AnswersAs};
ghost use Rattle.object_writer.specs.Elf.{name_of, file_type_of, names_section, with_names, names_of, contents_of, contents_end, padding, table_place, identification, places, sizes, file_header, header_start, header_rest, section_header, headers_from, elf_file, section_limit, is_too_large, written, ran_out};

use crate::fault::WriteFault;
use crate::gabi::{EM_X86_64, ET_EXEC, ET_REL, EV_CURRENT, IDENT};
use crate::names::{different_names, offset_of, table_of};
use crate::numbers::{push_half, push_word, push_xword, push_zeros};
use crate::section::{Section, SectionName, SectionType};
use mac_base::{Bytes, NoMemory};
use std::alloc::Global;

/// The size of an ELF header and of a section header.
const HEADER_SIZE: usize = 64;

/// What a file is for.
#[derive(Clone, Copy, Debug)]
pub enum FileType {
    /// A file to be linked (`ET_REL`).
    Relocatable,
    /// A file that is linked (`ET_EXEC`).
    Executable,
}

impl FileType {
    /// The value of `e_type`.
    fn code(self) -> u16
        ensures { result ≡ file_type_of self }
    {
        match self {
            FileType::Relocatable => ET_REL,
            FileType::Executable => ET_EXEC,
        }
    }
}

/// The file with these sections from section 1 on, and `.shstrtab` after them (gABI, "ELF Header" and "Sections").
pub fn write_file(
    alloc: Global,
    kind: FileType,
    sections: Vec<Section>,
) -> Result<Bytes, WriteFault>
    requires { length sections.items ≤ 65000 }
    ensures { AnswersAs ran_out (λ file. file) result (written kind sections.items) }
{
    let mut sections = sections;
    let names = different_names(alloc, sections.as_slice())?;
    sections.push(names_section(table_of(alloc, names.as_slice())?))?;
    if has_too_large(sections.as_slice()) {
        return Err(WriteFault::TooLarge);
    }
    let file = file_of(alloc, kind, names.as_slice(), sections.as_slice())?;
    Ok(Bytes::from_vec(file))
}

/// The section `.shstrtab` with these contents.
fn names_section(contents: Bytes) -> Section
    ensures { result ≡ record { name = SectionName.Shstrtab; kind = SectionType.Strings; flags = 0; link = 0; info = 0; entry_size = 0; contents = contents } }
{
    Section {
        name: SectionName::Shstrtab,
        kind: SectionType::Strings,
        flags: 0,
        link: 0,
        info: 0,
        entry_size: 0,
        contents,
    }
}

/// Whether one of the sections has more bytes than a section may have.
fn has_too_large(sections: &[Section]) -> bool
    ensures { result ≡ list_any is_too_large sections.now }
{
    sections.iter().any(|section| section.is_too_large())
}

/// The file with these sections from section 1 on, of which the last is `.shstrtab` with these names.
#[tactic(auto, unfolding(crate::specs::Elf::elf_file))]
fn file_of(
    alloc: Global,
    kind: FileType,
    names: &[SectionName],
    sections: &[Section],
) -> Result<Vec<u8>, NoMemory>
    requires count { length sections.now ≤ 65001 }
    requires names { map name_of names.now ≡ names_of sections.now }
    requires few { length names.now < 65536 }
    requires sizes { All (λ s. length s.contents ≤ section_limit) sections.now }
    ensures { IfOk result (λ file. file.items ≡ elf_file kind sections.now) }
{
    let end = HEADER_SIZE + contents_size(sections);
    let zeros = missing_to_8(end);
    let table = end + zeros;
    let count = 1 + sections.len();
    let mut file = Vec::with_capacity(alloc, table + count * HEADER_SIZE)?;
    push_file_header(&mut file, kind, table as u64, count as u16)?;
    push_contents(&mut file, sections)?;
    push_zeros(&mut file, zeros)?;
    push_zeros(&mut file, HEADER_SIZE)?;
    push_section_headers(&mut file, names, sections)?;
    Ok(file)
}

/// How many bytes the contents have together.
fn contents_size(sections: &[Section]) -> usize
    requires count { length sections.now ≤ 65001 }
    requires sizes { All (λ s. length s.contents ≤ section_limit) sections.now }
    ensures size { result ≡ length (contents_of sections.now) }
    ensures bound { result ≤ 65001 * section_limit }
{
    let mut size = 0;
    for section in sections {
        size += section.contents.len();
    }
    size
}

/// How many bytes are missing to a multiple of 8.
fn missing_to_8(n: usize) -> usize
    requires { n < 2 ^ 63 }
    ensures missing { result ≡ padding n }
    ensures few { result < 8 }
{
    n.next_multiple_of(8) - n
}

/// Appends the ELF header: the place of the section header table, and the number of its entries.
#[tactic(auto, unfolding(crate::specs::Elf::file_header))]
fn push_file_header(
    into: &mut Vec<u8>,
    kind: FileType,
    table: u64,
    count: u16,
) -> Result<(), NoMemory>
    requires { 0 < count }
    ensures { OnOk result (into.new.items ≡ into.old.items ++ file_header kind table count) }
{
    push_identification(into, kind)?;
    push_places(into, table)?;
    push_sizes(into, count)?;
    Ok(())
}

/// Appends `e_ident`, `e_type`, `e_machine` and `e_version`.
#[tactic(auto, unfolding(crate::specs::Elf::identification))]
fn push_identification(into: &mut Vec<u8>, kind: FileType) -> Result<(), NoMemory>
    ensures { OnOk result (into.new.items ≡ into.old.items ++ identification kind) }
{
    into.extend_from_slice(&IDENT)?;
    push_half(into, kind.code())?;
    push_half(into, EM_X86_64)?;
    push_word(into, EV_CURRENT)?;
    Ok(())
}

/// Appends `e_entry`, `e_phoff`, `e_shoff` and `e_flags`.
#[tactic(auto, unfolding(crate::specs::Elf::places))]
fn push_places(into: &mut Vec<u8>, table: u64) -> Result<(), NoMemory>
    ensures { OnOk result (into.new.items ≡ into.old.items ++ places table) }
{
    push_xword(into, 0)?;
    push_xword(into, 0)?;
    push_xword(into, table)?;
    push_word(into, 0)?;
    Ok(())
}

/// Appends the sizes and numbers of headers, and the number of the section of names.
#[tactic(auto, unfolding(crate::specs::Elf::sizes))]
fn push_sizes(into: &mut Vec<u8>, count: u16) -> Result<(), NoMemory>
    requires { 0 < count }
    ensures { OnOk result (into.new.items ≡ into.old.items ++ sizes count) }
{
    push_half(into, HEADER_SIZE as u16)?;
    // e_phentsize, e_phnum
    push_half(into, 0)?;
    push_half(into, 0)?;
    push_half(into, HEADER_SIZE as u16)?;
    push_half(into, count)?;
    push_half(into, count - 1)?;
    Ok(())
}

/// Appends the contents of sections, one after another.
fn push_contents(into: &mut Vec<u8>, sections: &[Section]) -> Result<(), NoMemory>
    ensures { OnOk result (into.new.items ≡ into.old.items ++ contents_of sections.now) }
{
    for section in sections {
        into.extend_from_slice(section.contents.as_slice())?;
    }
    Ok(())
}

/// Appends the headers of sections whose contents follow each other after the ELF header.
fn push_section_headers(
    into: &mut Vec<u8>,
    names: &[SectionName],
    sections: &[Section],
) -> Result<(), NoMemory>
    requires count { length sections.now ≤ 65001 }
    requires few { length names.now < 65536 }
    requires sizes { All (λ s. length s.contents ≤ section_limit) sections.now }
    ensures { OnOk result (into.new.items ≡ into.old.items ++ headers_from (map name_of names.now) 64 sections.now) }
{
    let mut at = HEADER_SIZE as u64;
    for section in sections {
        push_section_header(into, names, at, section)?;
        at += section.contents.len() as u64;
    }
    Ok(())
}

/// Appends the header of a section whose contents are at a place.
#[tactic(auto, unfolding(crate::specs::Elf::section_header))]
fn push_section_header(
    into: &mut Vec<u8>,
    names: &[SectionName],
    at: u64,
    section: &Section,
) -> Result<(), NoMemory>
    requires few { length names.now < 65536 }
    ensures { OnOk result (into.new.items ≡ into.old.items ++ section_header (map name_of names.now) at section.now) }
{
    push_header_start(into, names, section)?;
    push_header_rest(into, at, section)?;
    Ok(())
}

/// Appends `sh_name`, `sh_type`, `sh_flags` and `sh_addr`.
#[tactic(auto, unfolding(crate::specs::Elf::header_start))]
fn push_header_start(
    into: &mut Vec<u8>,
    names: &[SectionName],
    section: &Section,
) -> Result<(), NoMemory>
    requires few { length names.now < 65536 }
    ensures { OnOk result (into.new.items ≡ into.old.items ++ header_start (map name_of names.now) section.now) }
{
    push_word(into, 1 + offset_of(names, section.name))?;
    push_word(into, section.kind.code())?;
    push_xword(into, section.flags)?;
    push_xword(into, 0)?;
    Ok(())
}

/// Appends `sh_offset`, `sh_size`, `sh_link`, `sh_info`, `sh_addralign` and `sh_entsize`.
#[tactic(auto, unfolding(crate::specs::Elf::header_rest))]
fn push_header_rest(into: &mut Vec<u8>, at: u64, section: &Section) -> Result<(), NoMemory>
    ensures { OnOk result (into.new.items ≡ into.old.items ++ header_rest at section.now) }
{
    push_xword(into, at)?;
    push_xword(into, section.contents.len() as u64)?;
    push_word(into, section.link)?;
    push_word(into, section.info)?;
    push_xword(into, 1)?;
    push_xword(into, section.entry_size)?;
    Ok(())
}
