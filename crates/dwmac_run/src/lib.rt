//! The commands of `dwmac`: from the words of a command line and the files on a shelf to the texts that are printed.
#![tactic(auto)]

mod commands;
mod fault_names;
mod finish;
mod help;
mod laws;
mod line;
mod offset;
mod operands;
mod outcome;
mod perform;
mod printing;
mod recording;
mod refusal;
mod request;
mod roots;
mod status;
mod top;
mod units;
mod words;

pub use laws::each_run_has_one_answer;
pub use roots::{Roots, RootsFault, add_store, labels_for, roots_of};
pub use status::Status;
pub use top::run;
