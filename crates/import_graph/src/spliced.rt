/// An entry of a root's macro information, where imported units stand in their places (DWARF 5, 6.3.2).
#[derive(Clone, Copy, Debug, PartialEq, Eq)]
pub enum Spliced<'s> {
    /// A definition, which begins with its name.
    Define {
        line: u64,
        text: &'s [u8],
    },
    /// A name loses its definition.
    Undef {
        line: u64,
        name: &'s [u8],
    },
    /// A file begins, which is included in this line of the one around it.
    Start {
        line: u64,
        /// The number of its path.
        file: u32,
    },
    /// The file that began last, of those that didn't end yet, ends.
    End,
}
