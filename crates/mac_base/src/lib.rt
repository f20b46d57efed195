//! The plain types that every layer shares, a cursor that reads the fields of a section, and what the units of DWARF's
//! sections share: their length, and values in forms.
#![tactic(auto)]

mod bytes;
mod cursor;
mod digits;
mod events;
mod extent;
mod form;
mod frames;
mod hexadecimal;
mod item_lines;
mod laws;
mod leb;
mod memory;
mod paths;
mod pieces;
mod place;
mod report;
mod sections;
mod steps;
mod strings;
#[cfg(test)]
mod tests;
mod value;
mod writing;

pub use bytes::Bytes;
pub use cursor::{Cursor, CursorFault};
pub use digits::{digit_value, number_of};
pub use events::{Event, EventList, Events};
pub use extent::{Extent, ExtentFault, extent_at};
pub use form::{Form, Layout, form_of, layout_of};
pub use frames::{Frame, Frames};
pub use hexadecimal::{hex_digits, push_hex};
pub use item_lines::{path_at, push_event, push_item};
pub use laws::{fields_are_exact, lengths_are_exact, writing_is_exact};
pub use memory::NoMemory;
pub use paths::Paths;
pub use pieces::{push_bytes, push_decimal, push_number, push_offset, push_text};
pub use place::Place;
pub use report::ReportBuilder;
pub use sections::Sections;
pub use steps::Steps;
pub use strings::end_of_strings;
pub use value::{Sizes, Value, read_offset, read_value};
pub use writing::{push_fixed, push_length, push_section_offset, push_string, push_uleb};
