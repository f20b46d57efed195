//! String sections: the strings at their offsets, the tables of offsets by which entries name them, and a pool of the
//! strings that are written (DWARF 5, 7.5.5, 7.26).
#![tactic(auto)]

mod fault;
mod laws;
mod offsets;
mod pool;
mod strings;
#[cfg(test)]
mod tests;
mod writing;

pub use fault::StrFault;
pub use laws::{offsets_are_exact, pool_is_exact};
pub use offsets::OffsetsView;
pub use pool::{PoolFault, StrPool};
pub use strings::{Strings, string_at};
pub use writing::write_offsets;
