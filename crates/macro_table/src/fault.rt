ghost use Rattle.std.specs.Prelude.{◌≡◌};
ghost use Rattle.macro_table.specs.declared.fault.DefFault.TheVariants.{NoMemory as RanOut};
ghost use Rattle.macro_table.specs.Faults.{lex_fault, def_fault};

use mac_base::NoMemory;
use pp_tokens::LexFault;
use std::alloc::AllocFailed;
use thiserror::Error;

/// Why tokens after `#define` define no macro (C17 6.10.3).
#[derive(Clone, Copy, Debug, PartialEq, Eq, Error)]
pub enum DefFault {
    /// The first token is no identifier, or there is none.
    #[error("NoName")]
    NoName,
    /// The name is `defined` (6.10.8 p2) or `__VA_ARGS__` (6.10.3 p5).
    #[error("Reserved")]
    Reserved,
    /// What is in the parameter list is no parameter list, or it is not closed.
    #[error("ParamSyntax")]
    ParamSyntax,
    /// Two parameters have one name (6.10.3 p6).
    #[error("RepeatedParam")]
    RepeatedParam,
    /// `__VA_ARGS__` is a parameter, or is in the replacement list of a macro without `...` (6.10.3 p5).
    #[error("VaArgs")]
    VaArgs,
    /// A quote that nothing closes is in the replacement list (this project's rule: 6.4 p3 leaves it undefined).
    #[error("LoneQuote")]
    LoneQuote,
    /// `##` is first or last in the replacement list (6.10.3.3 p1).
    #[error("EdgePaste")]
    EdgePaste,
    /// In a function-like macro no parameter follows a `#` (6.10.3.2 p1).
    #[error("LoneHash")]
    LoneHash,
    /// Memory ran out.
    #[error("NoMemory")]
    NoMemory,
}

impl From<NoMemory> for DefFault {
    ghost from_gives = { λ _ found. found ≡ RanOut };

    fn from(_error: NoMemory) -> DefFault {
        DefFault::NoMemory
    }
}

impl<T: Drop> From<AllocFailed<T>> for DefFault {
    ghost from_gives = { λ _ found. found ≡ RanOut };

    fn from(_error: AllocFailed<T>) -> DefFault {
        DefFault::NoMemory
    }
}

/// Why a text is no macro definition. Neither of the faults that it holds is want of memory.
#[derive(Clone, Copy, Debug, PartialEq, Eq, Error)]
pub enum TextFault {
    /// The text has no tokens.
    #[error("Lex {0}")]
    Lex(LexFault),
    /// Its tokens define no macro.
    #[error("Def {0}")]
    Def(DefFault),
    /// Memory ran out.
    #[error("NoMemory")]
    NoMemory,
}

impl From<LexFault> for TextFault {
    ghost from_gives = { λ fault found. found ≡ lex_fault fault };

    fn from(fault: LexFault) -> TextFault {
        match fault {
            LexFault::NoMemory => TextFault::NoMemory,
            LexFault::NulByte { line: _ } => TextFault::Lex(fault),
            LexFault::OpenComment { line: _ } => TextFault::Lex(fault),
        }
    }
}

impl From<DefFault> for TextFault {
    ghost from_gives = { λ fault found. found ≡ def_fault fault };

    fn from(fault: DefFault) -> TextFault {
        match fault {
            DefFault::NoMemory => TextFault::NoMemory,
            _ => TextFault::Def(fault),
        }
    }
}
