//! Macro expansion (C17 6.10.3): what a list of tokens expands to under a table of macros, wholly or at a single level,
//! and the first fault.
#![tactic(auto)]

mod before;
mod delimiter;
mod expansion;
mod fault;
mod here;
mod hide_set;
mod laws;
mod rescan;
mod substitution;
#[cfg(test)]
mod tests;
mod token;

pub use expansion::expand;
pub use fault::ExpandFault;
pub use here::Here;
pub use laws::{calls_are_exact, one_answer, only_free_parameters_expand};
pub use rescan::once::expand_once;
