use crate::refusal::Refusal;
use mac_base::Bytes;

/// A file that a command writes: its name, and its bytes.
#[derive(Debug, Drop)]
pub struct NewFile {
    pub name: Bytes,
    pub bytes: Bytes,
}

/// What a command came to, before it is printed.
#[derive(Drop)]
pub enum Outcome {
    /// A report for `out`.
    Report(Bytes),
    /// Files for the shelf, in order, and then a text for `out`.
    Written(Vec<NewFile>, Bytes),
    /// There is no report: a line for `err`.
    Refused(Refusal),
    /// The words fit no command.
    Usage,
    /// Memory ran out.
    NoMemory,
    /// The shelf or a header store failed.
    Failed,
}
