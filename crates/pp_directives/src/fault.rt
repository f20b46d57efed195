ghost use Rattle.std.specs.Prelude.{◌≡◌};
ghost use Rattle.pp_directives.specs.declared.fault.ExprFault.TheVariants.{NoMemory as RanOut};
ghost use Rattle.pp_directives.specs.declared.fault.StructFault.TheVariants.{NoMemory as StructRanOut};

use mac_base::NoMemory;
use std::alloc::AllocFailed;
use thiserror::Error;

/// Why a condition has no value (C17 6.10.1, 6.6).
#[derive(Clone, Copy, Debug, PartialEq, Eq, Error)]
pub enum ExprFault {
    /// It is no conditional expression, or `defined` has no name.
    #[error("Syntax")]
    Syntax,
    /// A signed result is outside 64 bits.
    #[error("Overflow")]
    Overflow,
    /// A division by zero.
    #[error("ZeroDivisor")]
    ZeroDivisor,
    /// A shift by less than 0 or more than 63.
    #[error("BadShift")]
    BadShift,
    /// A number that is no integer constant, or too large.
    #[error("BadNumber")]
    BadNumber,
    /// A character constant without a value.
    #[error("BadChar")]
    BadChar,
    /// A `defined` that comes from a replacement.
    #[error("DefinedFromMacro")]
    DefinedFromMacro,
    /// Memory ran out.
    #[error("NoMemory")]
    NoMemory,
}

impl From<NoMemory> for ExprFault {
    ghost from_gives = { λ _ found. found ≡ RanOut };

    fn from(_error: NoMemory) -> ExprFault {
        ExprFault::NoMemory
    }
}

impl<T: Drop> From<AllocFailed<T>> for ExprFault {
    ghost from_gives = { λ _ found. found ≡ RanOut };

    fn from(_error: AllocFailed<T>) -> ExprFault {
        ExprFault::NoMemory
    }
}

/// How a line breaks the structure of groups (C17 6.10).
#[derive(Clone, Copy, Debug, PartialEq, Eq, Error)]
pub enum StructFault {
    /// `#else` where no condition is open.
    #[error("StrayElse")]
    StrayElse,
    /// `#elif` where no condition is open.
    #[error("StrayElif")]
    StrayElif,
    /// `#endif` where no condition is open.
    #[error("StrayEndif")]
    StrayEndif,
    /// A second `#else`.
    #[error("ElseAfterElse")]
    ElseAfterElse,
    /// `#elif` after `#else`.
    #[error("ElifAfterElse")]
    ElifAfterElse,
    /// A condition that no `#endif` closes.
    #[error("OpenIf")]
    OpenIf,
    /// Memory ran out.
    #[error("NoMemory")]
    NoMemory,
}

impl From<NoMemory> for StructFault {
    ghost from_gives = { λ _ found. found ≡ StructRanOut };

    fn from(_error: NoMemory) -> StructFault {
        StructFault::NoMemory
    }
}

impl<T: Drop> From<AllocFailed<T>> for StructFault {
    ghost from_gives = { λ _ found. found ≡ StructRanOut };

    fn from(_error: AllocFailed<T>) -> StructFault {
        StructFault::NoMemory
    }
}
