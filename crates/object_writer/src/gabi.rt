//! The constants of ELF that are written, by the names of the gABI ("ELF Header", "Sections", "Symbol Table") and of the
//! processor supplement for x86-64 ("Relocation").

/// `e_ident`: 64 bits, the lowest byte first, `EV_CURRENT`, and zeros.
pub const IDENT: [u8; 16] = *b"\x7fELF\x02\x01\x01\0\0\0\0\0\0\0\0\0";

/// `e_version`.
pub const EV_CURRENT: u32 = 1;

/// `e_machine` of x86-64.
pub const EM_X86_64: u16 = 62;

// Values of `e_type`.
pub const ET_REL: u16 = 1;

pub const ET_EXEC: u16 = 2;

// Values of `sh_type`.
pub const SHT_PROGBITS: u32 = 1;

pub const SHT_SYMTAB: u32 = 2;

pub const SHT_STRTAB: u32 = 3;

pub const SHT_RELA: u32 = 4;

pub const SHT_GROUP: u32 = 17;

// Flags of `sh_flags`.
pub const SHF_MERGE: u64 = 0x10;

pub const SHF_STRINGS: u64 = 0x20;

pub const SHF_INFO_LINK: u64 = 0x40;

pub const SHF_GROUP: u64 = 0x200;

/// The first word of a group whose members are kept once.
pub const GRP_COMDAT: u32 = 1;

// Values of `st_info` of local symbols: without a type, and of a section.
pub const STT_NOTYPE: u8 = 0;

pub const STT_SECTION: u8 = 3;

// Types of relocations: a field of 8 bytes, and one of 4.
pub const R_X86_64_64: u64 = 1;

pub const R_X86_64_32: u64 = 10;
