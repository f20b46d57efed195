//! Positions in the files of a root, and the macro definitions that hold there (DWARF 5, 6.3).
#![tactic(auto)]

mod by_path;
mod draft;
mod fault;
mod files;
mod laws;
mod line_numbers;
mod locate;
mod name;
mod number;
mod parse;
mod position;
mod spot;
mod table;

pub use by_path::locate_path;
pub use fault::{PosFault, PositionText};
pub use laws::positions_are_exact;
pub use line_numbers::LineNumbers;
pub use locate::locate_chain;
pub use parse::parse_position;
pub use position::Position;
pub use spot::Spot;
pub use table::{FileScope, scope_at, table_at};

#[cfg(test)]
mod tests;
