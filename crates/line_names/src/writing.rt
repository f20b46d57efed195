ghost use Rattle.std.specs.Prelude.{◌≡◌, ◌≤◌, ◌++◌, length, IfOk, OnOk, OnErr};
ghost use Rattle.std.specs.List.{flat_map};
ghost use Rattle.line_names.specs.Written.{file_bytes, field_bytes, table_with, table_bytes};

use mac_base::{Bytes, NoMemory, Paths, push_length, push_section_offset, push_uleb};
use std::alloc::Global;

/// Appends a line table of version 5 that names these paths, by their indexes from 0 on (DWARF 5, 6.2.4). It has the
/// one directory `.`, no line number program, and offsets of eight bytes where `wide` holds. After `NoMemory` the bytes
/// are as before.
pub fn write_lines(into: &mut Vec<u8>, files: &Paths, wide: bool) -> Result<(), NoMemory>
    requires { length (table_bytes wide files.now) ≤ 1_073_741_824 }
    ensures ok { OnOk result (into.new.items ≡ into.old.items ++ table_bytes wide files.now) }
    ensures err { OnErr result (into.new.items ≡ into.old.items) }
{
    let fields = fields_of(*into.allocator(), files.as_slice())?;
    let table = table_of(*into.allocator(), fields.as_slice(), wide)?;
    into.extend_from_slice(table.as_slice())?;
    Ok(())
}

/// A table with these fields after `header_length`.
#[tactic(auto, unfolding(crate::specs::Written::table_with))]
fn table_of(alloc: Global, fields: &[u8], wide: bool) -> Result<Vec<u8>, NoMemory>
    requires { length fields.now ≤ 1_073_741_824 }
    ensures { IfOk result (λ table. table.items ≡ table_with wide fields.now) }
{
    let size = fields.len() as u64;
    let offset_width = if wide { 8 } else { 4 };
    let mut table = Vec::new(alloc);
    push_length(&mut table, wide, 4 + offset_width + size)?;
    // version, address_size, segment_selector_size
    table.extend_from_slice(&[5, 0, 8, 0])?;
    // header_length
    push_section_offset(&mut table, wide, size)?;
    table.extend_from_slice(fields)?;
    Ok(table)
}

/// What follows `header_length`.
#[tactic(auto, unfolding(crate::specs::Written::field_bytes))]
fn fields_of(alloc: Global, files: &[Bytes]) -> Result<Vec<u8>, NoMemory>
    ensures { IfOk result (λ fields. fields.items ≡ field_bytes files.now) }
{
    let mut fields = Vec::new(alloc);
    // minimum_instruction_length, maximum_operations_per_instruction, default_is_stmt, line_base, line_range, opcode_base
    fields.extend_from_slice(&[
        1, 1, 1, 0xfb, 0x0e, 0x0d, 0, 1, 1, 1, 1, 0, 0, 0, 1, 0, 0, 1,
    ])?;
    // one directory
    fields.extend_from_slice(&[1, 1, 8, 1, b'.', 0])?;
    // the format of the files
    fields.extend_from_slice(&[2, 1, 8, 2, 0x0f])?;
    push_uleb(&mut fields, files.len() as u64)?;
    push_files(&mut fields, files)?;
    Ok(fields)
}

/// Appends the files.
fn push_files(into: &mut Vec<u8>, files: &[Bytes]) -> Result<(), NoMemory>
    ensures { OnOk result (into.new.items ≡ into.old.items ++ flat_map file_bytes files.now) }
{
    for file in files {
        into.extend_from_slice(file.as_slice())?;
        into.extend_from_slice(&[0, 0])?;
    }
    Ok(())
}
