ghost use Rattle.std.specs.Prelude.{◌≡◌};
ghost use Rattle.macro_query.specs.Roots.{file_fault};
ghost use Rattle.macro_query.specs.Faults.{info_fault, pos_fault, text_fault, expand_fault};
ghost use Rattle.macro_query.specs.declared.fault.QueryFault.TheVariants.{Elf as BadElf, Unit as BadUnit, NoMemory as RanOut};

use import_graph::FileFault;
use info_roots::{InfoFault, InfoKind};
use line_names::LineFault;
use mac_base::NoMemory;
use macro_expand::ExpandFault;
use position_table::PosFault;
use pp_tokens::LexFault;
use section_views::ElfFault;
use std::alloc::AllocFailed;
use thiserror::Error;
use unit_header::UnitFault;

/// Why a query about a file has no report.
#[derive(Debug, Drop, Error)]
pub enum QueryFault {
    /// The first fault of the file's headers or sections.
    #[error("Elf {0}")]
    Elf(ElfFault),
    /// The first fault of `.debug_info`.
    #[error("Info {0}")]
    Info(InfoFault),
    /// The first fault of a line table.
    #[error("Line {0}")]
    Line(LineFault),
    /// The first fault of a macro unit.
    #[error("Unit {0}")]
    Unit(UnitFault),
    /// The file has no root with this number.
    #[error("NoSuchUnit")]
    NoSuchUnit,
    /// The root has no such position.
    #[error("{0}")]
    Position(PosFault),
    /// The text that is to be expanded has no tokens.
    #[error("Text {0}")]
    Text(LexFault),
    /// The text has no expansion.
    #[error("Expand {0}")]
    Expand(ExpandFault),
    /// There is no fault, and the report has more than 1,073,741,824 bytes.
    #[error("ReportTooLong")]
    ReportTooLong,
    /// Memory ran out.
    #[error("no memory")]
    NoMemory,
}

impl From<ElfFault> for QueryFault {
    ghost from_gives = { λ fault found. found ≡ BadElf fault };

    fn from(fault: ElfFault) -> QueryFault {
        QueryFault::Elf(fault)
    }
}

impl From<InfoFault> for QueryFault {
    ghost from_gives = { λ fault found. found ≡ info_fault fault };

    fn from(fault: InfoFault) -> QueryFault {
        match fault.what {
            InfoKind::NoMemory => QueryFault::NoMemory,
            _ => QueryFault::Info(fault),
        }
    }
}

impl From<FileFault> for QueryFault {
    ghost from_gives = { λ fault found. found ≡ file_fault fault };

    fn from(fault: FileFault) -> QueryFault {
        match fault {
            FileFault::Line(fault) => QueryFault::Line(fault),
            FileFault::Unit(fault) => QueryFault::Unit(fault),
            FileFault::NoMemory => QueryFault::NoMemory,
        }
    }
}

impl From<PosFault> for QueryFault {
    ghost from_gives = { λ fault found. found ≡ pos_fault fault };

    fn from(fault: PosFault) -> QueryFault {
        match fault {
            PosFault::NoMemory => QueryFault::NoMemory,
            PosFault::NoSuchPosition { .. } => QueryFault::Position(fault),
        }
    }
}

impl From<LexFault> for QueryFault {
    ghost from_gives = { λ fault found. found ≡ text_fault fault };

    fn from(fault: LexFault) -> QueryFault {
        match fault {
            LexFault::NoMemory => QueryFault::NoMemory,
            LexFault::NulByte { .. } => QueryFault::Text(fault),
            LexFault::OpenComment { .. } => QueryFault::Text(fault),
        }
    }
}

impl From<ExpandFault> for QueryFault {
    ghost from_gives = { λ fault found. found ≡ expand_fault fault };

    fn from(fault: ExpandFault) -> QueryFault {
        match fault {
            ExpandFault::NoMemory => QueryFault::NoMemory,
            fault => QueryFault::Expand(fault),
        }
    }
}

impl From<UnitFault> for QueryFault {
    ghost from_gives = { λ fault found. found ≡ BadUnit fault };

    fn from(fault: UnitFault) -> QueryFault {
        QueryFault::Unit(fault)
    }
}

impl From<NoMemory> for QueryFault {
    ghost from_gives = { λ _ found. found ≡ RanOut };

    fn from(_error: NoMemory) -> QueryFault {
        QueryFault::NoMemory
    }
}

impl<T: Drop> From<AllocFailed<T>> for QueryFault {
    ghost from_gives = { λ _ found. found ≡ RanOut };

    fn from(_error: AllocFailed<T>) -> QueryFault {
        QueryFault::NoMemory
    }
}
