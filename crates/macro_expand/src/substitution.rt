//! The list that replaces a name, with the arguments in it (C17 6.10.3.1 to 6.10.3.3).

pub mod argument_pass;
pub mod one_token;
pub mod params;
pub mod paste_pass;
pub mod plain;
pub mod strings;
pub mod substitute;
