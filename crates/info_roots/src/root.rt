use mac_base::Bytes;

/// A unit that names macro information.
#[derive(Debug, Drop)]
pub struct Root {
    /// The primary source (`DW_AT_name`), empty where the entry has none.
    pub name: Bytes,
    /// The folder in which it was compiled (`DW_AT_comp_dir`), empty where the entry has none.
    pub dir: Bytes,
    /// The offset of its macro unit in `.debug_macro` (`DW_AT_macros`).
    pub macros: u64,
    /// The offset of its line table in `.debug_line` (`DW_AT_stmt_list`).
    pub line: Option<u64>,
    /// Where its string offsets begin in `.debug_str_offsets` (`DW_AT_str_offsets_base`).
    pub str_base: Option<u64>,
    /// Whether the unit is in the 64-bit format.
    pub wide: bool,
}
