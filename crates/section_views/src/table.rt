ghost use Rattle.std.specs.Prelude.{◌≡◌, ◌+◌, ◌*◌, ◌<◌, ◌≤◌, ℕ, length, IfOk};
ghost use Rattle.std.specs.Result.{result_err};
ghost use Rattle.section_views.specs.FileHeader.{names_number};
ghost use Rattle.section_views.specs.SectionTable.{section_count, header_at, contents_of};
ghost use Rattle.section_views.specs.Faults.{table_fault};

use crate::fault::ElfFault;
use crate::fields::{u16_at, u32_at, u64_at};
use crate::gabi::{E_SHENTSIZE, E_SHNUM, E_SHOFF, E_SHSTRNDX, SHN_XINDEX};
use crate::header::SectionHeader;
use std::marker::Model;

/// The table of sections of a file, inside it.
#[derive(Drop)]
pub struct Table<'a> {
    file: &'a [u8],
    start: usize,
    count: u32,
}

impl<'a> Model for Table<'a> {
    ghost use Rattle.std.specs.Prelude.{◌≡◌, ◌+◌, ◌*◌, ◌≤◌, List, ℕ, length};
    ghost use Rattle.section_views.specs.FileHeader.{table_offset};
    ghost use Rattle.section_views.specs.SectionTable.{section_count};

    ghost Value = { List ℕ };

    ghost view = { λ t. t.file.now };

    ghost invariant = { λ t. (64 ≤ length t.file.now) × (t.start ≡ table_offset t.file.now) × (t.count ≡ section_count t.file.now) × (t.start + 64 * t.count ≤ length t.file.now) };
}

impl<'a> Table<'a> {
    /// The table of a file.
    #[tactic(auto, unfolding(crate::specs::Faults::table_fault))]
    pub fn read(file: &'a [u8]) -> Result<Table<'a>, ElfFault>
        requires { 64 ≤ length file.now }
        ensures fault { result_err result ≡ table_fault file.now }
        ensures file { IfOk result (λ table. table ≡ file.now) }
    {
        let start = u64_at(file, E_SHOFF);
        if start == 0 {
            return Ok(Table {
                file,
                start: 0,
                count: 0,
            });
        }
        let count = u16_at(file, E_SHNUM);
        if count == 0 || u16_at(file, E_SHSTRNDX) == SHN_XINDEX {
            return Err(ElfFault::Extended);
        }
        if u16_at(file, E_SHENTSIZE) != 64 {
            return Err(ElfFault::Table {
                at: E_SHENTSIZE as u64,
            });
        }
        let len = file.len() as u64;
        if start > len || 64 * u64::from(count) > len - start {
            return Err(ElfFault::Table { at: start });
        }
        Ok(Table {
            file,
            start: start as usize,
            count: u32::from(count),
        })
    }

    /// The file.
    pub fn file(&self) -> &'a [u8]
        ensures { result.now ≡ self.now }
    {
        self.file
    }

    /// How many entries it has.
    pub fn count(&self) -> u32
        ensures { result ≡ section_count self.now }
    {
        self.count
    }

    /// The entry of a number.
    #[tactic(auto, unfolding(crate::specs::SectionTable::header_at))]
    pub fn header(&self, n: u32) -> SectionHeader
        requires { n < section_count self.now }
        ensures { result ≡ header_at self.now n }
    {
        let at = self.start + 64 * n as usize;
        SectionHeader {
            number: n,
            name: u32_at(self.file, at),
            kind: u32_at(self.file, at + 4),
            flags: u64_at(self.file, at + 8),
            offset: u64_at(self.file, at + 24),
            size: u64_at(self.file, at + 32),
        }
    }

    /// The number of the section that holds the names.
    pub fn names_number(&self) -> u32
        ensures { result ≡ names_number self.now }
    {
        u32::from(u16_at(self.file, E_SHSTRNDX))
    }

    /// The contents of the section of a number.
    pub fn contents(&self, n: u32) -> &'a [u8]
        requires number { n < section_count self.now }
        requires inside { (header_at self.now n).offset + (header_at self.now n).size ≤ length self.now }
        ensures { result.now ≡ contents_of self.now (header_at self.now n) }
    {
        let section = self.header(n);
        let start = section.offset as usize;
        &self.file[start..start + section.size as usize]
    }
}
