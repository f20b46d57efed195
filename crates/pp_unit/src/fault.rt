ghost use Rattle.std.specs.Prelude.{◌≡◌};
ghost use Rattle.pp_unit.specs.declared.fault.PpKind.TheVariants.{NoMemory as RanOut};
ghost use Rattle.pp_unit.specs.Kinds.{lex_kind, def_kind, text_kind, expand_kind, expr_kind, struct_kind};

use mac_base::{Bytes, NoMemory, Place};
use macro_expand::ExpandFault;
use macro_table::{DefFault, TextFault};
use pp_directives::{ExprFault, StructFault};
use pp_tokens::LexFault;
use std::alloc::{AllocError, AllocFailed};
use thiserror::Error;

/// How a directive is none of C17's (6.10 p1).
#[derive(Clone, Copy, Debug, PartialEq, Eq, Error)]
pub enum DirectiveFault {
    /// No identifier follows `#ifdef`, `#ifndef` or `#undef`.
    #[error("NoName")]
    NoName,
    /// The name is no directive's.
    #[error("UnknownName")]
    UnknownName,
}

/// Why a translation unit has no events. None of the faults that it holds is want of memory.
#[derive(Debug, Drop, Error)]
pub enum PpKind {
    /// A file or a word has no tokens.
    #[error("Lex {0}")]
    Lex(LexFault),
    /// A macro definition is none.
    #[error("Def {0}")]
    Def(DefFault),
    /// The name is predefined or built in (C17 6.10.8 p2).
    #[error("Predefined {name}")]
    Predefined { name: Bytes },
    /// The name has another definition (6.10.3 p2).
    #[error("Redefined {name}")]
    Redefined { name: Bytes },
    /// A directive is none of C17's.
    #[error("Directive {0}")]
    Directive(DirectiveFault),
    /// A condition has no value.
    #[error("Expr {0}")]
    Expr(ExprFault),
    /// Tokens have no expansion.
    #[error("Expand {0}")]
    Expand(ExpandFault),
    /// The groups of a file are not nested.
    #[error("Struct {0}")]
    Struct(StructFault),
    /// A file of this name is not found.
    #[error("NoSuchFile {name}")]
    NoSuchFile { name: Bytes },
    /// An `#include` names no header (6.10.2).
    #[error("BadInclude")]
    BadInclude,
    /// 200 files are open.
    #[error("IncludeDepth")]
    IncludeDepth,
    /// A `#error` was reached.
    #[error("ErrorDirective")]
    ErrorDirective,
    /// A `#line` has no line number (6.10.4).
    #[error("BadLine")]
    BadLine,
    /// A source file of this name has more than 16,777,216 bytes.
    #[error("SourceTooLong {name}")]
    SourceTooLong { name: Bytes },
    /// There would be more than 4,194,304 events.
    #[error("TooManyEvents")]
    TooManyEvents,
    /// The texts and names would have more than 268,435,456 bytes together.
    #[error("TooMuchText")]
    TooMuchText,
    /// A store failed.
    #[error("StoreFault")]
    StoreFault,
    #[error("NoMemory")]
    NoMemory,
}

/// The first fault of a translation unit, and its place.
#[derive(Debug, Drop)]
pub struct PpFault {
    /// The open files, and the line in the innermost one; no file and line 0 for a word of the command.
    pub place: Place,
    /// The path of the innermost file.
    pub path: Bytes,
    pub what: PpKind,
}

impl From<NoMemory> for PpKind {
    ghost from_gives = { λ _ found. found ≡ RanOut };

    fn from(_error: NoMemory) -> PpKind {
        PpKind::NoMemory
    }
}

impl From<AllocError> for PpKind {
    ghost from_gives = { λ _ found. found ≡ RanOut };

    fn from(_error: AllocError) -> PpKind {
        PpKind::NoMemory
    }
}

impl<T: Drop> From<AllocFailed<T>> for PpKind {
    ghost from_gives = { λ _ found. found ≡ RanOut };

    fn from(_error: AllocFailed<T>) -> PpKind {
        PpKind::NoMemory
    }
}

impl From<LexFault> for PpKind {
    ghost from_gives = { λ fault found. found ≡ lex_kind fault };

    fn from(fault: LexFault) -> PpKind {
        match fault {
            LexFault::NoMemory => PpKind::NoMemory,
            _ => PpKind::Lex(fault),
        }
    }
}

impl From<DefFault> for PpKind {
    ghost from_gives = { λ fault found. found ≡ def_kind fault };

    fn from(fault: DefFault) -> PpKind {
        match fault {
            DefFault::NoMemory => PpKind::NoMemory,
            _ => PpKind::Def(fault),
        }
    }
}

impl From<TextFault> for PpKind {
    ghost from_gives = { λ fault found. found ≡ text_kind fault };

    fn from(fault: TextFault) -> PpKind {
        match fault {
            TextFault::Lex(fault) => PpKind::from(fault),
            TextFault::Def(fault) => PpKind::from(fault),
            TextFault::NoMemory => PpKind::NoMemory,
        }
    }
}

impl From<ExpandFault> for PpKind {
    ghost from_gives = { λ fault found. found ≡ expand_kind fault };

    fn from(fault: ExpandFault) -> PpKind {
        match fault {
            ExpandFault::NoMemory => PpKind::NoMemory,
            fault => PpKind::Expand(fault),
        }
    }
}

impl From<ExprFault> for PpKind {
    ghost from_gives = { λ fault found. found ≡ expr_kind fault };

    fn from(fault: ExprFault) -> PpKind {
        match fault {
            ExprFault::NoMemory => PpKind::NoMemory,
            _ => PpKind::Expr(fault),
        }
    }
}

impl From<StructFault> for PpKind {
    ghost from_gives = { λ fault found. found ≡ struct_kind fault };

    fn from(fault: StructFault) -> PpKind {
        match fault {
            StructFault::NoMemory => PpKind::NoMemory,
            _ => PpKind::Struct(fault),
        }
    }
}
