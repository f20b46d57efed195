//! The table of macro definitions that hold at a place, and macro definitions themselves: their tokens and their texts.
#![tactic(auto)]

mod body;
mod definition;
mod entry;
mod fault;
mod identity;
mod laws;
mod list;
mod params;
mod parse;
mod sorts;
mod table;
mod texts;

pub use definition::Def;
pub use entry::Entry;
pub use fault::{DefFault, TextFault};
pub use identity::same;
pub use laws::{
    definitions_rest_on_phase_3, file_names_are_carried, first_inside_is_first,
    table_has_last_word, text_is_read_back,
};
pub use parse::parse_define;
pub use table::{Table, name_of};
pub use texts::{def_of_text, text_of};

#[cfg(test)]
mod definition_tests;
#[cfg(test)]
mod tests;
