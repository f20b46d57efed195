use thiserror::Error;

/// Why a file or a text has no tokens.
#[derive(Clone, Copy, Debug, PartialEq, Eq, Error)]
pub enum LexFault {
    /// A byte is 0, which this project rejects. `line` is the physical line of the first.
    #[error("NulByte")]
    NulByte { line: u64 },
    /// A comment is not closed (C17 5.1.1.2 p1, phase 3). `line` is the physical line of its `/*`.
    #[error("OpenComment")]
    OpenComment { line: u64 },
    #[error("NoMemory")]
    NoMemory,
}
