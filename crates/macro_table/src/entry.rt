use mac_base::{Bytes, Place};

/// A macro definition and where it is.
#[derive(Debug, Drop)]
pub struct Entry {
    /// The name with its parameters, a space, and the replacement list.
    pub text: Bytes,
    /// The open files and the line of the definition.
    pub place: Place,
}
