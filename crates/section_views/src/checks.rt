ghost use Rattle.std.specs.Prelude.{◌≡◌, ◌≤◌, ◌<◌, ℕ, length, None, IfOk, OnOk};
ghost use Rattle.std.specs.Result.{result_err};
ghost use Rattle.section_views.specs.FileHeader.{is_linked, names_number};
ghost use Rattle.section_views.specs.SectionTable.{section_count, header_at, sections_of, contents_of, is_outside, names_of};
ghost use Rattle.section_views.specs.Faults.{header_fault, range_fault, name_fault, compression_fault, where_true, at_first, lacks_names, is_nameless};
ghost use Rattle.section_views.specs.Family.{is_compressed_family};

use crate::family::is_family;
use crate::fault::ElfFault;
use crate::fields::{u8_at, u16_at};
use crate::gabi::{
    E_TYPE, EI_CLASS, EI_DATA, ELFCLASS64, ELFDATA2LSB, ELFMAG, ET_DYN, ET_EXEC, SHT_STRTAB,
};
use crate::names::Names;
use crate::table::Table;

/// The file is a 64-bit one, with the lowest byte first, and linked.
#[tactic(auto, unfolding(crate::specs::Faults::header_fault))]
pub fn check_header(file: &[u8]) -> Result<(), ElfFault>
    ensures fault { result_err result ≡ header_fault file.now }
    ensures whole { OnOk result (64 ≤ length file.now) }
{
    if file.len() < 64 || !file.starts_with(&ELFMAG) {
        return Err(ElfFault::NotElf);
    }
    if u8_at(file, EI_CLASS) != ELFCLASS64 {
        return Err(ElfFault::Class);
    }
    if u8_at(file, EI_DATA) != ELFDATA2LSB {
        return Err(ElfFault::Order);
    }
    if !is_linked(u16_at(file, E_TYPE)) {
        return Err(ElfFault::Kind);
    }
    Ok(())
}

/// Whether a file of this type is linked: an executable or a shared object.
fn is_linked(kind: u16) -> bool
    ensures { result ≡ is_linked kind }
{
    kind == ET_EXEC || kind == ET_DYN
}

/// The contents of each section are inside the file.
#[tactic(auto, unfolding(crate::specs::Faults::range_fault))]
pub fn check_ranges(table: &Table<'_>) -> Result<(), ElfFault>
    ensures { result_err result ≡ range_fault table.now }
{
    for n in 1..table.count() {
        if is_outside(table, n) {
            return Err(ElfFault::Range { n });
        }
    }
    Ok(())
}

/// Whether the contents of section `n` aren't inside the file.
fn is_outside(table: &Table<'_>, n: u32) -> bool
    requires { n < section_count table.now }
    ensures { result ≡ is_outside (length table.now) (header_at table.now n) }
{
    let section = table.header(n);
    let len = table.file().len() as u64;
    section.has_contents() && (section.offset > len || section.size > len - section.offset)
}

/// The names of the sections; each section has one.
#[tactic(auto, unfolding(crate::specs::Faults::name_fault))]
pub fn read_names<'a>(table: &Table<'a>) -> Result<Names<'a>, ElfFault>
    requires { range_fault table.now ≡ None }
    ensures fault { result_err result ≡ name_fault table.now }
    ensures names { IfOk result (λ names. names ≡ names_of table.now) }
{
    if table.count() == 0 {
        return Ok(Names::new(&[]));
    }
    let names = Names::new(string_table(table)?);
    check_names(table, &names)?;
    Ok(names)
}

/// The contents of the section that holds the names.
fn string_table<'a>(table: &Table<'a>) -> Result<&'a [u8], ElfFault>
    requires { range_fault table.now ≡ None }
    ensures fault { result_err result ≡ where_true (lacks_names table.now) (ElfFault.Name (names_number table.now)) }
    ensures names { IfOk result (λ names. names.now ≡ contents_of table.now (header_at table.now (names_number table.now))) }
{
    let n = table.names_number();
    if n == 0 || n >= table.count() || table.header(n).kind != SHT_STRTAB {
        return Err(ElfFault::Name { n });
    }
    Ok(table.contents(n))
}

/// A NUL ends the name of each section.
fn check_names(table: &Table<'_>, names: &Names<'_>) -> Result<(), ElfFault>
    ensures { result_err result ≡ at_first (is_nameless names.now) ElfFault.Name (sections_of table.now) }
{
    for n in 1..table.count() {
        if is_nameless(table, names, n) {
            return Err(ElfFault::Name { n });
        }
    }
    Ok(())
}

/// Whether no NUL ends the name of section `n`.
fn is_nameless(table: &Table<'_>, names: &Names<'_>, n: u32) -> bool
    requires { n < section_count table.now }
    ensures { result ≡ is_nameless names.now (header_at table.now n) }
{
    names.is_open(table.header(n).name)
}

/// No section of the family is compressed.
#[tactic(auto, unfolding(crate::specs::Faults::compression_fault))]
pub fn check_compression(table: &Table<'_>, names: &Names<'_>) -> Result<(), ElfFault>
    requires { names.now ≡ names_of table.now }
    ensures { result_err result ≡ compression_fault table.now }
{
    for n in 1..table.count() {
        if is_compressed_family(table, names, n) {
            return Err(ElfFault::Compressed { n });
        }
    }
    Ok(())
}

/// Whether section `n` belongs to the family and is compressed.
fn is_compressed_family(table: &Table<'_>, names: &Names<'_>, n: u32) -> bool
    requires { n < section_count table.now }
    ensures { result ≡ is_compressed_family names.now (header_at table.now n) }
{
    let section = table.header(n);
    section.is_compressed() && is_family(names, &section)
}
