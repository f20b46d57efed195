ghost use Rattle.std.specs.Prelude.{◌≡◌, ◌+◌, ◌≤◌, ◌<◌, ◌++◌, Err, true, min, length, OnOk, IfOk};
ghost use Rattle.std.specs.List.{list_any, flat_map};
ghost use Rattle.mac_base.specs.Writing.{uleb_bytes};
ghost use Rattle.line_names.specs.Written.{file_bytes, table_bytes};
ghost use Rattle.object_writer.specs.Elf.{section_limit, is_too_large};
ghost use Rattle.object_writer.specs.Object.{line_sections};

use crate::fault::WriteFault;
use crate::section::{LIMIT, Section, SectionName};
use crate::tables::contents_section;
use line_names::write_lines;
use mac_base::{Bytes, NoMemory, Paths, push_uleb};
use std::alloc::Global;

/// Appends `.debug_line` with the line table that names these files.
pub fn push_lines(sections: &mut Vec<Section>, wide: bool, files: &Paths) -> Result<(), WriteFault>
    ensures ok { OnOk result (sections.new.items ≡ sections.old.items ++ line_sections wide files.now) }
    ensures large { result ≡ Err WriteFault.TooLarge → list_any is_too_large (line_sections wide files.now) ≡ true }
{
    let alloc = *sections.allocator();
    let size = table_size(alloc, wide, files.as_slice())?;
    if size > LIMIT {
        return Err(WriteFault::TooLarge);
    }
    let mut lines = Vec::with_capacity(alloc, size)?;
    write_lines(&mut lines, files, wide)?;
    sections.push(contents_section(SectionName::Line, 0, Bytes::from_vec(lines)))?;
    Ok(())
}

/// How many bytes a line table has, or a number above the limit where it has more.
#[tactic(auto, using(crate::proofs::LineLemmas::table_long))]
fn table_size(alloc: Global, wide: bool, files: &[Bytes]) -> Result<usize, NoMemory>
    ensures { IfOk result (λ size. min size (section_limit + 1) ≡ min (length (table_bytes wide files.now)) (section_limit + 1)) }
{
    // what precedes the number of files: the length, the version and two sizes, header_length, and 29 bytes
    let start = if wide {
        12 + 4 + 8 + 29
    } else {
        4 + 4 + 4 + 29
    };
    Ok(start + count_size(alloc, files.len())? + files_size(files))
}

/// How many bytes the number of files has.
#[tactic(auto, using(crate::proofs::LineLemmas::uleb_short))]
fn count_size(alloc: Global, count: usize) -> Result<usize, NoMemory>
    ensures size { IfOk result (λ size. size ≡ length (uleb_bytes count)) }
    ensures short { IfOk result (λ size. size ≤ 10) }
{
    let mut bytes = Vec::new(alloc);
    push_uleb(&mut bytes, count as u64)?;
    Ok(bytes.len())
}

/// How many bytes files have in a line table, or the limit and a byte where they have more.
fn files_size(files: &[Bytes]) -> usize
    ensures { result ≡ min (length (flat_map file_bytes files.now)) (section_limit + 1) }
{
    let mut size = 0;
    for file in files {
        size = (size + file.len().min(LIMIT) + 2).min(LIMIT + 1);
    }
    size
}
