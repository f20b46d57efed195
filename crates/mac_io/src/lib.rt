//! The outside as traits, with forms in memory and thin adapters: a shelf of files, a sink for text, and the path on
//! which headers are looked for.
#![tactic(auto)]

mod dir_shelf;
mod dir_store;
mod failures;
mod headers;
mod laws;
mod map_shelf;
mod map_store;
mod path_text;
mod real_file;
mod replace;
mod search;
mod search_path;
mod shelf;
mod sink;
mod std_sink;
mod store;
mod vec_sink;

pub use dir_shelf::DirShelf;
pub use dir_store::DirStore;
pub use headers::{FileId, Form, Headers, Located};
pub use laws::{files_are_bytes, search_has_one_answer, search_is_decided};
pub use map_shelf::{MapShelf, are_distinct};
pub use map_store::MapStore;
pub use real_file::each_is_a_byte;
pub use search_path::SearchPath;
pub use shelf::{Fetched, Put, Shelf};
pub use sink::{Sink, Wrote};
pub use std_sink::StdSink;
pub use store::HeaderStore;
pub use vec_sink::VecSink;

#[cfg(test)]
mod path_tests;
#[cfg(test)]
mod real_tests;
#[cfg(test)]
mod tests;
