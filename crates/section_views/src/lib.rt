//! The sections that macro information rests on, found in a linked ELF file: 64-bit, with the lowest byte first, an
//! executable or a shared object.
#![tactic(auto)]

mod checks;
mod elf;
mod family;
mod fault;
mod fields;
mod gabi;
mod header;
mod laws;
mod members;
mod names;
mod table;

pub use elf::Elf;
pub use fault::ElfFault;
pub use laws::views_are_exact;

#[cfg(test)]
mod tests;
