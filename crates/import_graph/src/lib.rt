//! The macro information of a root with imported units in their places (DWARF 5, 6.3).
#![tactic(auto)]

mod begin;
mod entries;
#[cfg(test)]
mod entry_tests;
mod fault;
mod files;
mod graph;
mod laws;
mod meaning;
mod node;
mod read;
mod rest;
mod spliced;
#[cfg(test)]
mod tests;
mod unit;
mod walk;

pub use entries::Entries;
pub use fault::FileFault;
pub use graph::Graph;
pub use laws::a_root_has_one_answer;
pub use spliced::Spliced;
