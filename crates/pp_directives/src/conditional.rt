//! Which groups of a file are taken (C17 6.10.1 p6).

pub mod conditions;
pub mod open_section;
