ghost use Rattle.std.specs.Prelude.{◌≡◌};
ghost use Rattle.position_table.specs.declared.fault.PositionText.TheVariants.{NoMemory as NoMemoryForText};
ghost use Rattle.position_table.specs.declared.fault.PosFault.TheVariants.{NoMemory as RanOut};

use mac_base::NoMemory;
use std::alloc::{AllocError, AllocFailed};
use thiserror::Error;

/// Why a text has no position.
#[derive(Clone, Copy, Debug, PartialEq, Eq, Error)]
pub enum PositionText {
    /// It is neither a chain of numbers nor a path with a line.
    #[error("Bad")]
    Bad,
    /// Memory ran out.
    #[error("NoMemory")]
    NoMemory,
}

impl From<NoMemory> for PositionText {
    ghost from_gives = { λ _ found. found ≡ NoMemoryForText };

    fn from(_error: NoMemory) -> PositionText {
        PositionText::NoMemory
    }
}

/// Why a position is not found in a root.
#[derive(Clone, Copy, Debug, PartialEq, Eq, Error)]
pub enum PosFault {
    /// A file of the chain is missing.
    #[error("NoSuchPosition depth {depth}")]
    NoSuchPosition {
        /// How many files of the chain there are.
        depth: u32,
    },
    /// Memory ran out.
    #[error("NoMemory")]
    NoMemory,
}

impl From<NoMemory> for PosFault {
    ghost from_gives = { λ _ found. found ≡ RanOut };

    fn from(_error: NoMemory) -> PosFault {
        PosFault::NoMemory
    }
}
