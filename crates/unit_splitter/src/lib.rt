//! The macro information of a translation unit split into a root and the pieces that it imports, so that equal runs of
//! definitions are written once (DWARF 5, 6.3.2.3 and appendix E), and the names of pieces.
#![tactic(auto)]

mod comparison;
mod cutting;
mod digest;
mod known_pieces;
mod laws;
mod name;
mod pieces;
mod root;
mod splitting;
#[cfg(test)]
mod tests;

pub use laws::splits_are_exact;
pub use name::piece_name;
pub use pieces::{Piece, Pieces, Split};
pub use root::{RootEntries, RootEntry};
pub use splitting::split;
