//! The constants of DWARF that the first entry of a compilation unit is read by (DWARF 5, tables 7.2 to 7.6).

/// The type of a full compilation unit (table 7.2).
pub const DW_UT_COMPILE: u8 = 0x01;

/// The tag of its first entry (table 7.3).
pub const DW_TAG_COMPILE_UNIT: u64 = 0x11;

// The attributes that are read (table 7.5).
pub const DW_AT_NAME: u64 = 0x03;

pub const DW_AT_STMT_LIST: u64 = 0x10;

pub const DW_AT_COMP_DIR: u64 = 0x1b;

pub const DW_AT_STR_OFFSETS_BASE: u64 = 0x72;

pub const DW_AT_MACROS: u64 = 0x79;

/// The form whose value begins with its own form (table 7.6).
pub const DW_FORM_INDIRECT: u64 = 0x16;

/// The form whose value is in the abbreviation.
pub const DW_FORM_IMPLICIT_CONST: u64 = 0x21;
