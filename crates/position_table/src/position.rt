use crate::line_numbers::LineNumbers;
use mac_base::Bytes;

/// A line of a file, as a user names it.
#[derive(Debug, Drop)]
pub enum Position {
    /// The file that a chain of inclusions leads to.
    Chain {
        /// The number of the root.
        unit: u32,
        /// The lines of the inclusions, each in the file that the ones before lead to. None for the primary file.
        lines: LineNumbers,
        line: u32,
    },
    /// A file by its path.
    Named {
        path: Bytes,
        line: u32,
    },
}
