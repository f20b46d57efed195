/// The contents of the sections that macro information rests on (DWARF 5, 6.3). A section that
/// a file lacks is empty here.
#[derive(Clone, Copy, Debug)]
pub struct Sections<'a> {
    /// `.debug_macro`: the units of macro entries.
    pub macros: &'a [u8],
    /// `.debug_str`: strings that are named by their offset.
    pub strs: &'a [u8],
    /// `.debug_str_offsets`: the offsets of strings that are named by an index.
    pub str_offsets: &'a [u8],
    /// `.debug_line`: the line tables, which name the files.
    pub lines: &'a [u8],
    /// `.debug_line_str`: the strings of line tables.
    pub line_strs: &'a [u8],
    /// `.debug_info`: the units whose first entries name the units of macro entries.
    pub info: &'a [u8],
    /// `.debug_abbrev`: the forms of those entries.
    pub abbrevs: &'a [u8],
}
