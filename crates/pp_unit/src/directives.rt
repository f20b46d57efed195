//! What each line of a file does (C17 6.10).

pub mod classify;
pub mod condition;
pub mod define;
pub mod direct;
pub mod header;
pub mod header_name;
pub mod include;
pub mod line_number;
