//! The files that are written: relocatable objects with macro information, and linked files, as ELF files of 64 bits.
#![tactic(auto)]

mod elf;
mod fault;
mod gabi;
mod info;
mod layout;
mod lines;
mod linked;
mod names;
mod numbers;
mod object;
mod relocation;
mod section;
mod strings;
mod symbols;
mod tables;
#[cfg(test)]
mod tests;
mod unit;

pub use fault::WriteFault;
pub use linked::{LinkedParts, write_linked};
pub use object::{Forms, UnitInfo, Written, write_object, written_object};
