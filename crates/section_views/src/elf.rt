ghost use Rattle.std.specs.Prelude.{◌≡◌, IfOk};
ghost use Rattle.std.specs.Option.{option_map, option_copied};
ghost use Rattle.std.specs.Result.{result_err};
ghost use Rattle.mac_base.specs.SectionBytes.{bytes_of};
ghost use Rattle.section_views.specs.Faults.{first_fault};
ghost use Rattle.section_views.specs.View.{section_named, number_of, section_of, bytes_named, view_of};
ghost use Rattle.section_views.specs.Members.{kept_of, entry_of};

use crate::checks::{check_compression, check_header, check_ranges, read_names};
use crate::family::place_of;
use crate::fault::ElfFault;
use crate::members::{Member, Members};
use crate::table::Table;
use mac_base::Sections;
use std::marker::Model;

/// The sections of a linked ELF file that macro information rests on: those of the family `.debug_macro`,
/// `.debug_str`, `.debug_str_offsets`, `.debug_line`, `.debug_line_str`, `.debug_info` and `.debug_abbrev` (DWARF 5,
/// 6.3) that belong to no group. One without bytes in the file counts as absent.
#[derive(Debug, Drop)]
pub struct Elf<'a> {
    file: &'a [u8],
    members: Members<'a>,
}

impl<'a> Model for Elf<'a> {
    ghost use Rattle.std.specs.Prelude.{List, ℕ};
    ghost use Rattle.section_views.specs.SectionTable.{section_count};
    ghost use Rattle.section_views.specs.Members.{AreFirst};

    ghost Value = { List ℕ };

    ghost view = { λ e. e.file.now };

    ghost invariant = { λ e. AreFirst e.file.now (section_count e.file.now) e.members };
}

impl<'a> Elf<'a> {
    /// Finds the sections of a file, or the first of its faults. It takes no memory and reads the headers alone.
    pub fn read(file: &'a [u8]) -> Result<Elf<'a>, ElfFault>
        ensures fault { result_err result ≡ first_fault file.now }
        ensures file { IfOk result (λ elf. elf ≡ file.now) }
    {
        check_header(file)?;
        let table = Table::read(file)?;
        check_ranges(&table)?;
        let names = read_names(&table)?;
        check_compression(&table, &names)?;
        let members = Members::find(&table, &names)?;
        Ok(Elf { file, members })
    }

    /// The contents of the section of a name; none where the file lacks it and for a name outside the family.
    pub fn section(&self, name: &[u8]) -> Option<&'a [u8]>
        ensures { option_copied result ≡ section_of self.now name.now }
    {
        Some(self.member(name)?.bytes)
    }

    /// The number of that section in the table of sections.
    pub fn number(&self, name: &[u8]) -> Option<u32>
        ensures { result ≡ number_of self.now name.now }
    {
        Some(self.member(name)?.number)
    }

    /// The seven sections, each empty where the file lacks it.
    pub fn sections(&self) -> Sections<'a>
        ensures { bytes_of result ≡ view_of self.now }
    {
        Sections {
            macros: self.bytes(b".debug_macro"),
            strs: self.bytes(b".debug_str"),
            str_offsets: self.bytes(b".debug_str_offsets"),
            lines: self.bytes(b".debug_line"),
            line_strs: self.bytes(b".debug_line_str"),
            info: self.bytes(b".debug_info"),
            abbrevs: self.bytes(b".debug_abbrev"),
        }
    }

    /// The contents of the section of a name, or no bytes.
    fn bytes(&self, name: &[u8]) -> &'a [u8]
        ensures { result.now ≡ bytes_named self.now name.now }
    {
        self.section(name).unwrap_or(&[])
    }

    /// The section of a name.
    fn member(&self, name: &[u8]) -> Option<Member<'a>>
        ensures { option_map kept_of result ≡ option_map (entry_of self.now) (section_named self.now name.now) }
    {
        self.members.get(place_of(name)?)
    }
}
