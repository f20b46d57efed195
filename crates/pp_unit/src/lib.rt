//! The walk of a translation unit (C17 6.10): its directives in order, with all files that they include, as a list of
//! events, or the first fault.
#![tactic(auto)]

mod directives;
mod event_log;
mod fault;
mod open_file;
mod request;
mod spelled;
mod stop;
mod tables_law;
#[cfg(test)]
mod tests;
mod unit;
mod walk;
mod walk_law;

pub use fault::{DirectiveFault, PpFault, PpKind};
pub use request::{Command, Commands, UnitSpec};
pub use tables_law::{tables_agree, tables_follow_directives};
pub use unit::preprocess;
pub use walk_law::{walk_has_an_answer, walk_has_one_answer};
