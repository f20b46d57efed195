ghost use Rattle.std.specs.Prelude.{◌≡◌, ◌+◌, ◌≤◌, ◌<◌, ◌++◌, [], ◌∷◌, length, map, bytes_eq, IfOk, OnOk};
ghost use Rattle.std.specs.List.{list_any};
ghost use Rattle.object_writer.specs.Elf.{name_of, name_table};
ghost use Rattle.string_sections.specs.Pool.{add_string, pool_of, offset_in};

use crate::section::{Section, SectionName};
use mac_base::{Bytes, NoMemory};
use std::alloc::Global;

/// The different names of sections, in order of first section, and the name of `.shstrtab`.
pub fn different_names(alloc: Global, sections: &[Section]) -> Result<Vec<SectionName>, NoMemory>
    ensures names { IfOk result (λ names. map name_of names.items ≡ pool_of (map (λ s. name_of s.name) sections.now ++ name_of SectionName.Shstrtab ∷ [])) }
    ensures few { IfOk result (λ names. length names.items ≤ length sections.now + 1) }
{
    let mut names = Vec::new(alloc);
    for section in sections {
        add_name(&mut names, section.name)?;
    }
    add_name(&mut names, SectionName::Shstrtab)?;
    Ok(names)
}

/// Adds a name that is not there yet.
fn add_name(names: &mut Vec<SectionName>, name: SectionName) -> Result<(), NoMemory>
    ensures added { OnOk result (map name_of names.new.items ≡ add_string (map name_of names.old.items) (name_of name)) }
    ensures few { OnOk result (length names.new.items ≤ length names.old.items + 1) }
{
    if !has_name(names.as_slice(), name) {
        names.push(name)?;
    }
    Ok(())
}

/// Whether a name is there.
fn has_name(names: &[SectionName], name: SectionName) -> bool
    ensures { result ≡ list_any (λ other. bytes_eq (name_of name) (name_of other)) names.now }
{
    let text = name.text();
    names.iter().any(|other| text == other.text())
}

/// The contents of `.shstrtab`.
pub fn table_of(alloc: Global, names: &[SectionName]) -> Result<Bytes, NoMemory>
    ensures { IfOk result (λ table. table ≡ name_table (map name_of names.now)) }
{
    let mut table = Vec::new(alloc);
    table.push(0)?;
    for name in names {
        table.extend_from_slice(name.text())?;
        table.push(0)?;
    }
    Ok(Bytes::from_vec(table))
}

/// Where a name is among the names, each of which has a NUL.
pub fn offset_of(names: &[SectionName], name: SectionName) -> u32
    requires { length names.now < 65536 }
    ensures offset { result ≡ offset_in (map name_of names.now) (name_of name) }
    ensures small { result < 16_000_000 }
{
    let mut at = 0;
    for other in names {
        let text = other.text();
        if name.text() == text {
            return at;
        }
        at += text.len() as u32 + 1;
    }
    at
}
