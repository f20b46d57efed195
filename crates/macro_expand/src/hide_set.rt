//! Hide sets: the names that are not replaced in a token (C17 6.10.3.4 p2).

pub mod hidden_token;
pub mod hide_set_memo;
pub mod name_iter;
pub mod names;
pub mod set;
