ghost use Rattle.std.specs.Prelude.{◌≡◌};
ghost use Rattle.macro_expand.specs.declared.fault.ExpandFault.TheVariants.{NoMemory as OutOfMemory};

use mac_base::{Bytes, NoMemory};
use std::alloc::{AllocError, AllocFailed};
use thiserror::Error;

/// Why a text has no expansion.
#[derive(Debug, Drop, Error)]
pub enum ExpandFault {
    /// The arguments of a call of this macro are not closed (C17 6.10.3 p4).
    #[error("OpenCall {name}")]
    OpenCall { name: Bytes },
    /// A call of this macro has so many arguments, which do not fit its parameters (6.10.3 p4).
    #[error("ArgCount {name} {got}")]
    ArgCount { name: Bytes, got: u64 },
    /// These two tokens are not one token together (6.10.3.3 p3).
    #[error("BadPaste {left} {right}")]
    BadPaste { left: Bytes, right: Bytes },
    /// An argument of this macro does not make one string (6.10.3.2 p2).
    #[error("BadString {name}")]
    BadString { name: Bytes },
    /// The text that the table has for this name is no definition.
    #[error("BadDefinition {name}")]
    BadDefinition { name: Bytes },
    /// The text has a quote that nothing closes.
    #[error("LoneQuote")]
    LoneQuote,
    /// More than 4,194,304 tokens were put in.
    #[error("TooLong")]
    TooLong,
    #[error("NoMemory")]
    NoMemory,
}

impl From<NoMemory> for ExpandFault {
    ghost from_gives = { λ _ fault. fault ≡ OutOfMemory };

    fn from(_fault: NoMemory) -> ExpandFault {
        ExpandFault::NoMemory
    }
}

impl From<AllocError> for ExpandFault {
    ghost from_gives = { λ _ fault. fault ≡ OutOfMemory };

    fn from(_fault: AllocError) -> ExpandFault {
        ExpandFault::NoMemory
    }
}

impl<T: Drop> From<AllocFailed<T>> for ExpandFault {
    ghost from_gives = { λ _ fault. fault ≡ OutOfMemory };

    fn from(_fault: AllocFailed<T>) -> ExpandFault {
        ExpandFault::NoMemory
    }
}
