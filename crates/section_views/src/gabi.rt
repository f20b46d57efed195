//! The constants of ELF that are read, by the gABI's names ("ELF Header" and "Sections").

/// `e_ident[EI_MAG0]` to `e_ident[EI_MAG3]`.
pub const ELFMAG: [u8; 4] = *b"\x7fELF";

// Where fields of the ELF header of a 64-bit file are.
pub const EI_CLASS: usize = 4;

pub const EI_DATA: usize = 5;

pub const E_TYPE: usize = 16;

pub const E_SHOFF: usize = 40;

pub const E_SHENTSIZE: usize = 58;

pub const E_SHNUM: usize = 60;

pub const E_SHSTRNDX: usize = 62;

/// `e_ident[EI_CLASS]` of a 64-bit file.
pub const ELFCLASS64: u8 = 2;

/// `e_ident[EI_DATA]` of a file whose numbers have the lowest byte first.
pub const ELFDATA2LSB: u8 = 1;

/// `e_type` of an executable.
pub const ET_EXEC: u16 = 2;

/// `e_type` of a shared object.
pub const ET_DYN: u16 = 3;

/// `e_shstrndx` where the header can't hold the number.
pub const SHN_XINDEX: u16 = 0xffff;

// Values of `sh_type`.
pub const SHT_NULL: u32 = 0;

pub const SHT_STRTAB: u32 = 3;

pub const SHT_NOBITS: u32 = 8;

// Flags of `sh_flags`.
pub const SHF_GROUP: u64 = 0x200;

pub const SHF_COMPRESSED: u64 = 0x800;
