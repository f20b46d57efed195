//! Translation phases 1 to 3 (C17 5.1.1.2 and 6.4): the tokens of a file and of a text, and how tokens are printed so
//! that they are read back.
#![tactic(auto)]

mod chars;
mod classes;
mod fault;
mod front;
mod laws;
mod lexing;
mod line;
mod line_builder;
mod measures;
mod phases12;
mod piece;
mod printing;
mod punctuators;
mod quote_scan;
mod scanning;
#[cfg(test)]
mod tests;
mod token;

pub use classes::is_identifier;
pub use fault::LexFault;
pub use laws::{
    cut_is_unique, each_is_lexed, kinds_are_spelled, line_numbers_rise, lines_are_split_at_ends,
    printed_is_read_back,
};
pub use lexing::{lex_file, lex_text};
pub use line::{Line, Lines};
pub use printing::print_tokens;
pub use token::{Kind, Token, Tokens};
