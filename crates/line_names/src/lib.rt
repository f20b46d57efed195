//! The files that a line table names (DWARF 5, 6.2.4).
#![tactic(auto)]

mod entry;
mod fault;
mod format;
mod header;
mod laws;
mod path;
mod sections;
mod tables;
#[cfg(test)]
mod tests;
mod writing;

pub use fault::{LineFault, LineKind};
pub use laws::{files_are_exact, written_files_are_exact};
pub use sections::LineTables;
pub use tables::{files_at, read_files};
pub use writing::write_lines;
