ghost use Rattle.std.specs.Prelude.{◌≡◌};
ghost use Rattle.line_names.specs.Faults.{line_fault, extent_fault, ran_out};

use mac_base::{CursorFault, ExtentFault, NoMemory};
use std::alloc::AllocFailed;
use thiserror::Error;

/// What is wrong with a line table.
#[derive(Clone, Copy, Debug, PartialEq, Eq, Error)]
pub enum LineKind {
    /// A field is cut off by the unit's end, or the unit by the section's.
    #[error("Cut")]
    Cut,
    /// A LEB128 number doesn't fit 64 bits.
    #[error("Leb")]
    Leb,
    /// No NUL ends a string.
    #[error("NoNul")]
    NoNul,
    /// The length is one of the reserved ones (7.2.2).
    #[error("Length")]
    Length,
    /// The version is not 5.
    #[error("Version")]
    Version,
    /// `opcode_base` is 0.
    #[error("OpcodeBase")]
    OpcodeBase,
    /// There are entries, and their format has no path. The place is that of their count.
    #[error("NoPath")]
    NoPath,
    /// A form that its content can't have.
    #[error("Form")]
    Form,
    /// The offset of a path names no string.
    #[error("StrRange")]
    StrRange,
    /// A file's directory is not among the directories.
    #[error("DirIndex")]
    DirIndex,
    /// Memory ran out. The place is 0.
    #[error("NoMemory")]
    NoMemory,
}

/// The first fault of a line table, and the field that it names.
#[derive(Clone, Copy, Debug, PartialEq, Eq, Error)]
#[error("{what} at {at:#x}")]
pub struct LineFault {
    /// The field's first byte, in bytes from the first of `.debug_line`.
    pub at: u64,
    pub what: LineKind,
}

impl LineFault {
    /// A fault of a kind at a place.
    pub(crate) fn new(at: u64, what: LineKind) -> LineFault
        ensures { result ≡ record { at = at; what = what } }
    {
        LineFault { at, what }
    }
}

impl From<CursorFault> for LineFault {
    ghost from_gives = { λ fault found. found ≡ line_fault fault };

    fn from(fault: CursorFault) -> LineFault {
        match fault {
            CursorFault::Cut { at } => LineFault::new(at, LineKind::Cut),
            CursorFault::Leb { at } => LineFault::new(at, LineKind::Leb),
            CursorFault::NoNul { at } => LineFault::new(at, LineKind::NoNul),
        }
    }
}

impl From<ExtentFault> for LineFault {
    ghost from_gives = { λ fault found. found ≡ extent_fault fault };

    fn from(fault: ExtentFault) -> LineFault {
        match fault {
            ExtentFault::Cut { at } => LineFault::new(at, LineKind::Cut),
            ExtentFault::Length { at } => LineFault::new(at, LineKind::Length),
        }
    }
}

impl From<NoMemory> for LineFault {
    ghost from_gives = { λ _ found. found ≡ ran_out };

    fn from(_error: NoMemory) -> LineFault {
        LineFault::new(0, LineKind::NoMemory)
    }
}

impl<T: Drop> From<AllocFailed<T>> for LineFault {
    ghost from_gives = { λ _ found. found ≡ ran_out };

    fn from(_error: AllocFailed<T>) -> LineFault {
        LineFault::new(0, LineKind::NoMemory)
    }
}
