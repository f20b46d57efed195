use mac_base::Bytes;

/// Where a text is expanded, as `__LINE__` and `__FILE__` tell it.
#[derive(Debug, Drop)]
pub struct Here {
    /// The line.
    pub line: u64,
    /// The path of the file.
    pub file: Bytes,
}
