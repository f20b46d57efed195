ghost use Rattle.std.specs.Prelude.{◌≡◌, IfOk};

use crate::frames::Frames;
use crate::memory::NoMemory;

/// A line of an open file.
#[derive(Debug, Drop)]
pub struct Place {
    /// The open files, the outermost first.
    pub frames: Frames,
    /// The line in the innermost one.
    pub line: u64,
}

impl Place {
    /// A place of its own with the same files and line.
    pub fn copy(&self) -> Result<Place, NoMemory>
        ensures { IfOk result (λ copied. copied ≡ self.now) }
    {
        Ok(Place {
            frames: self.frames.copy()?,
            line: self.line,
        })
    }
}
