ghost use Rattle.std.specs.Prelude.{◌≡◌, ℕ};

use crate::gabi::{SHF_COMPRESSED, SHF_GROUP, SHT_NOBITS, SHT_NULL};

/// The header of a section (gABI, "Section Header"), as far as it is read.
#[derive(Clone, Copy, Debug)]
pub struct SectionHeader {
    /// The section's number: its place in the table.
    pub number: u32,
    /// Where its name begins among the names.
    pub name: u32,
    /// Its type.
    pub kind: u32,
    /// Its flags.
    pub flags: u64,
    /// Where its contents begin in the file.
    pub offset: u64,
    /// How many bytes they have.
    pub size: u64,
}

impl SectionHeader {
    ghost use Rattle.section_views.specs.SectionTable.{has_contents, is_grouped, is_compressed};

    /// Whether the section has bytes in the file.
    pub fn has_contents(&self) -> bool
        ensures { result ≡ has_contents self.now }
    {
        self.kind != SHT_NULL && self.kind != SHT_NOBITS
    }

    /// Whether the section belongs to a group.
    pub fn is_grouped(&self) -> bool
        ensures { result ≡ is_grouped self.now }
    {
        self.flags & SHF_GROUP != 0
    }

    /// Whether its contents are compressed.
    pub fn is_compressed(&self) -> bool
        ensures { result ≡ is_compressed self.now }
    {
        self.flags & SHF_COMPRESSED != 0
    }
}
