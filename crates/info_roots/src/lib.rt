//! The roots of a file: the units of `.debug_info` whose first entries name macro information (DWARF 5, 3.1.1, 7.5).
#![tactic(auto)]

mod abbreviation;
mod dwarf;
mod entry;
mod fault;
mod laws;
mod root;
mod root_list;
mod roots;
#[cfg(test)]
mod tests;
mod text;
mod unit;
mod written;

pub use fault::{InfoFault, InfoKind};
pub use laws::{roots_are_exact, written_roots_are_read};
pub use root::Root;
pub use root_list::RootList;
pub use roots::read_roots;
pub use written::write_roots;
