ghost use Rattle.std.specs.Prelude.{◌≡◌};
ghost use Rattle.unit_header.specs.Faults.{unit_fault};

use mac_base::CursorFault;
use thiserror::Error;

/// What is wrong with a macro unit, or with what it refers to.
#[derive(Clone, Copy, Debug, PartialEq, Eq, Error)]
pub enum UnitKind {
    /// The version is not 5.
    #[error("Version")]
    Version,
    /// Another flag than the three of DWARF 5 is set.
    #[error("Flags")]
    Flags,
    /// The bytes end in the midst of a field.
    #[error("Cut")]
    Cut,
    /// A LEB128 number doesn't fit 64 bits.
    #[error("Leb")]
    Leb,
    /// No NUL ends a string.
    #[error("NoNul")]
    NoNul,
    /// The operand table lists the opcode 0, an opcode twice, or a standard opcode with other forms.
    #[error("OperandTable")]
    OperandTable,
    /// The operand table names a form that no macro entry has.
    #[error("Form")]
    Form,
    /// The opcode is neither standard nor listed in the operand table.
    #[error("Opcode")]
    Opcode,
    /// An offset of a string names none.
    #[error("StrRange")]
    StrRange,
    /// The offset of a macro unit is not inside the section.
    #[error("ImportRange")]
    ImportRange,
    /// The offset of a macro unit's line table is not inside `.debug_line`.
    #[error("LineRange")]
    LineRange,
    /// A string is named by an index, and the root has no base of string offsets.
    #[error("NoStrBase")]
    NoStrBase,
    /// The index of a string is outside `.debug_str_offsets`.
    #[error("StrxRange")]
    StrxRange,
    /// A file begins, and neither the macro unit nor the root has a line table.
    #[error("NoLineTable")]
    NoLineTable,
    /// The index of a file is not below the number of the line table's files.
    #[error("FileIndex")]
    FileIndex,
    /// A macro unit imports one that it is imported by, or itself.
    #[error("ImportCycle")]
    ImportCycle,
    /// A file ends, and none is open in the macro unit.
    #[error("EndWithoutStart")]
    EndWithoutStart,
    /// A macro unit ends, and a file is open in it.
    #[error("StartWithoutEnd")]
    StartWithoutEnd,
    /// An entry refers to a supplementary file.
    #[error("Supplementary")]
    Supplementary,
    /// With imported macro units in their places there are more than 16,777,216 entries.
    #[error("TooManyEntries")]
    TooManyEntries,
}

/// A fault of a macro unit, and the byte that it names, counted from the section's first.
#[derive(Clone, Copy, Debug, PartialEq, Eq, Error)]
#[error("{what} at {at:#x}")]
pub struct UnitFault {
    pub at: u64,
    pub what: UnitKind,
}

impl From<CursorFault> for UnitFault {
    ghost from_gives = { λ fault found. found ≡ unit_fault fault };

    fn from(fault: CursorFault) -> UnitFault {
        match fault {
            CursorFault::Cut { at } => UnitFault {
                at,
                what: UnitKind::Cut,
            },
            CursorFault::Leb { at } => UnitFault {
                at,
                what: UnitKind::Leb,
            },
            CursorFault::NoNul { at } => UnitFault {
                at,
                what: UnitKind::NoNul,
            },
        }
    }
}
