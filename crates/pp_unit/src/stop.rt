ghost use Rattle.std.specs.Prelude.{◌≡◌};
ghost use Rattle.pp_unit.specs.Kinds.{ran_out};
ghost use Rattle.pp_unit.specs.Stopping.{stopped, stop_answer, refused};

use crate::fault::{PpFault, PpKind};
use crate::open_file::OpenFile;
use mac_base::{Bytes, Frames, Place};
use std::alloc::Global;

/// Why a walk stops in a file.
#[derive(Debug, Drop)]
pub enum Stop {
    /// A fault in this line of the file.
    Here { line: u64, what: PpKind },
    /// A fault in a file that is included there.
    Inside(PpFault),
}

/// An answer, with a fault in this line.
pub fn in_line<T: Drop>(line: u64, answer: Result<T, PpKind>) -> Result<T, Stop>
    ensures { result ≡ stopped line answer }
{
    match answer {
        Ok(x) => Ok(x),
        Err(what) => Err(Stop::Here { line, what }),
    }
}

/// That memory ran out, which has no place.
pub fn ran_out(alloc: Global) -> PpFault
    ensures { result ≡ ran_out }
{
    PpFault {
        place: Place {
            frames: Frames::new(alloc),
            line: 0,
        },
        path: Bytes::new(alloc),
        what: PpKind::NoMemory,
    }
}

impl OpenFile {
    /// A fault in a line of this file.
    pub fn refuse(self, alloc: Global, line: u64, what: PpKind) -> PpFault
        ensures { result ≡ refused self line what }
    {
        let PpKind::NoMemory = what else {
            let OpenFile {
                frames,
                path,
                id: _,
            } = self;
            return PpFault {
                place: Place { frames, line },
                path,
                what,
            };
        };
        ran_out(alloc)
    }

    /// The fault with which the walk of this file stops.
    pub fn stop(self, alloc: Global, stop: Stop) -> PpFault
        ensures { result ≡ stop_answer self stop }
    {
        match stop {
            Stop::Here { line, what } => self.refuse(alloc, line, what),
            Stop::Inside(fault) => fault,
        }
    }
}
