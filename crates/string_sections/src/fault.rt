use thiserror::Error;

/// Why nothing is found in a section.
#[derive(Clone, Copy, Debug, PartialEq, Eq, Error)]
pub enum StrFault {
    /// The place is not inside the section, or what begins there doesn't end in it.
    #[error("Range")]
    Range,
}
