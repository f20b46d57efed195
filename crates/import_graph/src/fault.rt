ghost use Rattle.std.specs.Prelude.{◌≡◌};
ghost use Rattle.import_graph.specs.declared.fault.FileFault.TheVariants.{Unit as BadUnit, NoMemory as RanOut};
ghost use Rattle.import_graph.specs.Faults.{from_line};

use line_names::{LineFault, LineKind};
use mac_base::NoMemory;
use std::alloc::AllocFailed;
use thiserror::Error;
use unit_header::UnitFault;

/// Why the macro information of a root can't be read.
#[derive(Clone, Copy, Debug, PartialEq, Eq, Error)]
pub enum FileFault {
    /// The first fault is one of a line table.
    #[error("Line {0}")]
    Line(LineFault),
    /// The first fault is one of a macro unit.
    #[error("Unit {0}")]
    Unit(UnitFault),
    /// Memory ran out.
    #[error("NoMemory")]
    NoMemory,
}

impl From<LineFault> for FileFault {
    ghost from_gives = { λ fault found. found ≡ from_line fault };

    fn from(fault: LineFault) -> FileFault {
        match fault.what {
            LineKind::NoMemory => FileFault::NoMemory,
            _ => FileFault::Line(fault),
        }
    }
}

impl From<UnitFault> for FileFault {
    ghost from_gives = { λ fault found. found ≡ BadUnit fault };

    fn from(fault: UnitFault) -> FileFault {
        FileFault::Unit(fault)
    }
}

impl From<NoMemory> for FileFault {
    ghost from_gives = { λ _ found. found ≡ RanOut };

    fn from(_error: NoMemory) -> FileFault {
        FileFault::NoMemory
    }
}

impl<T: Drop> From<AllocFailed<T>> for FileFault {
    ghost from_gives = { λ _ found. found ≡ RanOut };

    fn from(_error: AllocFailed<T>) -> FileFault {
        FileFault::NoMemory
    }
}
