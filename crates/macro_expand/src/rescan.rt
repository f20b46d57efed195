//! The scan of a list: what its first token is, calls and their arguments, and what was put in scanned again (C17 6.10.3.4).

pub mod head;
pub mod lookup_memo;
pub mod machine;
pub mod once;
pub mod parsed_macro;
pub mod slots;
pub mod stack;
