ghost use Rattle.std.specs.Prelude.{◌≡◌};
ghost use Rattle.object_writer.specs.Elf.{ran_out, pool_fault};

use mac_base::NoMemory;
use std::alloc::{AllocError, AllocFailed};
use string_sections::PoolFault;
use thiserror::Error;

/// Why a file can't be written.
#[derive(Clone, Copy, Debug, PartialEq, Eq, Error)]
pub enum WriteFault {
    /// A section would have more than 1,073,741,824 bytes.
    #[error("a section would be too large")]
    TooLarge,
    /// Memory ran out.
    #[error("out of memory")]
    NoMemory,
}

impl From<NoMemory> for WriteFault {
    ghost from_gives = { λ _ found. found ≡ ran_out };

    fn from(_error: NoMemory) -> WriteFault {
        WriteFault::NoMemory
    }
}

impl From<AllocError> for WriteFault {
    ghost from_gives = { λ _ found. found ≡ ran_out };

    fn from(_error: AllocError) -> WriteFault {
        WriteFault::NoMemory
    }
}

impl<T: Drop> From<AllocFailed<T>> for WriteFault {
    ghost from_gives = { λ _ found. found ≡ ran_out };

    fn from(_error: AllocFailed<T>) -> WriteFault {
        WriteFault::NoMemory
    }
}

impl From<PoolFault> for WriteFault {
    ghost from_gives = { λ fault found. found ≡ pool_fault fault };

    fn from(fault: PoolFault) -> WriteFault {
        match fault {
            PoolFault::TooLarge => WriteFault::TooLarge,
            PoolFault::NoMemory => WriteFault::NoMemory,
        }
    }
}
