use thiserror::Error;

/// Why a file is rejected (gABI, "ELF Header" and "Sections"). The faults are tested in the order in which they are
/// listed here. One that names a section is tested over all sections, from number 1 on, before the next fault.
#[derive(Clone, Copy, Debug, PartialEq, Eq, Error)]
pub enum ElfFault {
    /// The file has fewer than 64 bytes or doesn't begin with `7f 45 4c 46`.
    #[error("NotElf")]
    NotElf,
    /// The file isn't a 64-bit one.
    #[error("Class")]
    Class,
    /// Numbers don't have the lowest byte first.
    #[error("Order")]
    Order,
    /// The file is neither an executable nor a shared object.
    #[error("Kind")]
    Kind,
    /// The file has more sections than its header can count.
    #[error("Extended")]
    Extended,
    /// The table of sections has entries of another size than 64 bytes, which the header says at `at`, 58, or it
    /// begins at `at` and isn't inside the file.
    #[error("Table at {at:#x}")]
    Table { at: u64 },
    /// The contents of section `n` aren't inside the file.
    #[error("Range section {n}")]
    Range { n: u32 },
    /// Section `n`, which is to hold the names, is none or no string table, or section `n` has no name in it.
    #[error("Name section {n}")]
    Name { n: u32 },
    /// Section `n` belongs to the family and is compressed.
    #[error("Compressed section {n}")]
    Compressed { n: u32 },
    /// Section `n` belongs to the family and to no group, and so does an earlier one of its name.
    #[error("Twice section {n}")]
    Twice { n: u32 },
}
