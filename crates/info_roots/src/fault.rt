ghost use Rattle.std.specs.Prelude.{◌≡◌};
ghost use Rattle.info_roots.specs.Faults.{info_fault, extent_fault, ran_out};

use mac_base::{CursorFault, ExtentFault, NoMemory};
use std::alloc::AllocFailed;
use thiserror::Error;

/// What is wrong with a unit of `.debug_info`.
#[derive(Clone, Copy, Debug, PartialEq, Eq, Error)]
pub enum InfoKind {
    /// A field is cut off by the unit's end, or the unit by the section's.
    #[error("Cut")]
    Cut,
    /// A LEB128 number doesn't fit 64 bits.
    #[error("Leb")]
    Leb,
    /// No NUL ends a string.
    #[error("NoNul")]
    NoNul,
    /// The length is one of the reserved ones (7.2.2).
    #[error("Length")]
    Length,
    /// The version is not 2 to 5.
    #[error("Version")]
    Version,
    /// The table of abbreviations is outside `.debug_abbrev`.
    #[error("AbbrevRange")]
    AbbrevRange,
    /// The table has no such abbreviation, or can't be read up to it. The place is that of the entry's code.
    #[error("Abbrev")]
    Abbrev,
    /// A form that is unknown, or that the attribute can't have.
    #[error("Form")]
    Form,
    /// The offset of a string names none. The place is the unit's, as in the next three.
    #[error("StrRange")]
    StrRange,
    /// A string is named by an index, and the unit has no base of string offsets.
    #[error("NoStrBase")]
    NoStrBase,
    /// The index of a string is outside `.debug_str_offsets`.
    #[error("StrxRange")]
    StrxRange,
    /// There are more than 65,536 roots.
    #[error("TooManyRoots")]
    TooManyRoots,
    /// Memory ran out. The place is 0.
    #[error("NoMemory")]
    NoMemory,
}

/// The first fault of `.debug_info`, and the byte that it names.
#[derive(Clone, Copy, Debug, PartialEq, Eq, Error)]
#[error("{what} at {at:#x}")]
pub struct InfoFault {
    /// In bytes from the first of `.debug_info`.
    pub at: u64,
    pub what: InfoKind,
}

impl InfoFault {
    /// A fault of a kind at a place.
    pub(crate) fn new(at: u64, what: InfoKind) -> InfoFault
        ensures { result ≡ record { at = at; what = what } }
    {
        InfoFault { at, what }
    }
}

impl From<CursorFault> for InfoFault {
    ghost from_gives = { λ fault found. found ≡ info_fault fault };

    fn from(fault: CursorFault) -> InfoFault {
        match fault {
            CursorFault::Cut { at } => InfoFault::new(at, InfoKind::Cut),
            CursorFault::Leb { at } => InfoFault::new(at, InfoKind::Leb),
            CursorFault::NoNul { at } => InfoFault::new(at, InfoKind::NoNul),
        }
    }
}

impl From<ExtentFault> for InfoFault {
    ghost from_gives = { λ fault found. found ≡ extent_fault fault };

    fn from(fault: ExtentFault) -> InfoFault {
        match fault {
            ExtentFault::Cut { at } => InfoFault::new(at, InfoKind::Cut),
            ExtentFault::Length { at } => InfoFault::new(at, InfoKind::Length),
        }
    }
}

impl From<NoMemory> for InfoFault {
    ghost from_gives = { λ _ found. found ≡ ran_out };

    fn from(_error: NoMemory) -> InfoFault {
        InfoFault::new(0, InfoKind::NoMemory)
    }
}

impl<T: Drop> From<AllocFailed<T>> for InfoFault {
    ghost from_gives = { λ _ found. found ≡ ran_out };

    fn from(_error: AllocFailed<T>) -> InfoFault {
        InfoFault::new(0, InfoKind::NoMemory)
    }
}
