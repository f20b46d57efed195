ghost use Rattle.std.specs.Prelude.{◌≡◌, ◌≤◌, length};
ghost use Rattle.object_writer.specs.Elf.{name_of, type_of, is_too_large};

use crate::gabi::{SHT_GROUP, SHT_PROGBITS, SHT_RELA, SHT_STRTAB, SHT_SYMTAB};
use mac_base::Bytes;

/// The most bytes of a section.
pub const LIMIT: usize = 1_073_741_824;

/// A section of a file, apart from section 0.
#[derive(Debug, Drop)]
pub struct Section {
    pub name: SectionName,
    /// `sh_type`.
    pub kind: SectionType,
    /// `sh_flags`.
    pub flags: u64,
    /// `sh_link`: the number of a section.
    pub link: u32,
    /// `sh_info`: the number of a section, or of a symbol or of symbols.
    pub info: u32,
    /// `sh_entsize`: the size of an entry, 0 where the section is no table.
    pub entry_size: u64,
    pub contents: Bytes,
}

/// The name of a section.
#[derive(Clone, Copy, Debug)]
pub enum SectionName {
    /// `.group`
    Group,
    /// `.debug_macro`
    Macro,
    /// `.rela.debug_macro`
    RelaMacro,
    /// `.debug_str`
    Str,
    /// `.debug_str_offsets`
    StrOffsets,
    /// `.rela.debug_str_offsets`
    RelaStrOffsets,
    /// `.debug_line`
    Line,
    /// `.debug_info`
    Info,
    /// `.rela.debug_info`
    RelaInfo,
    /// `.debug_abbrev`
    Abbrev,
    /// `.symtab`
    Symtab,
    /// `.strtab`
    Strtab,
    /// `.shstrtab`
    Shstrtab,
}

/// The type of a section.
#[derive(Clone, Copy, Debug)]
pub enum SectionType {
    /// What the section's name says (`SHT_PROGBITS`).
    Contents,
    /// The symbol table (`SHT_SYMTAB`).
    Symbols,
    /// A string table (`SHT_STRTAB`).
    Strings,
    /// Relocations with addends (`SHT_RELA`).
    Relocations,
    /// A group (`SHT_GROUP`).
    Members,
}

impl Section {
    /// Whether there are more bytes than a section may have.
    pub fn is_too_large(&self) -> bool
        ensures { result ≡ is_too_large self.now }
    {
        self.contents.len() > LIMIT
    }
}

impl SectionName {
    /// The name's bytes.
    #[tactic(auto, unfolding(crate::specs::Elf::name_of))]
    pub fn text(self) -> &'static [u8]
        ensures text { result.now ≡ name_of self }
        ensures short { length result.now ≤ 23 }
    {
        match self {
            SectionName::Group => b".group",
            SectionName::Macro => b".debug_macro",
            SectionName::RelaMacro => b".rela.debug_macro",
            SectionName::Str => b".debug_str",
            SectionName::StrOffsets => b".debug_str_offsets",
            SectionName::RelaStrOffsets => b".rela.debug_str_offsets",
            SectionName::Line => b".debug_line",
            SectionName::Info => b".debug_info",
            SectionName::RelaInfo => b".rela.debug_info",
            SectionName::Abbrev => b".debug_abbrev",
            SectionName::Symtab => b".symtab",
            SectionName::Strtab => b".strtab",
            SectionName::Shstrtab => b".shstrtab",
        }
    }
}

impl SectionType {
    /// The value of `sh_type`.
    pub fn code(self) -> u32
        ensures { result ≡ type_of self }
    {
        match self {
            SectionType::Contents => SHT_PROGBITS,
            SectionType::Symbols => SHT_SYMTAB,
            SectionType::Strings => SHT_STRTAB,
            SectionType::Relocations => SHT_RELA,
            SectionType::Members => SHT_GROUP,
        }
    }
}
