use mac_base::{Bytes, Frames};
use mac_io::FileId;

/// A file that is open, with all files around it.
#[derive(Debug, Drop)]
pub struct OpenFile {
    /// The open files, the outermost first, and this one the last.
    pub frames: Frames,
    pub path: Bytes,
    pub id: FileId,
}
