//! The queries about a file's macro information: from the bytes of the file to the report, or to the first fault.
#![tactic(auto)]

mod dump_report;
mod expansion_report;
mod fault;
mod finished;
mod laws;
mod position;
mod roots;
mod sections;
mod strings;
mod table_report;
mod unit_lines;
mod unit_report;

pub use dump_report::dump;
pub use expansion_report::{expand_at, once_at};
pub use fault::QueryFault;
pub use laws::queries_have_one_answer;
pub use table_report::{info, list};
pub use unit_report::{raw, unit};
