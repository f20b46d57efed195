ghost use Rattle.std.specs.Prelude.{◌≡◌, ◌≤◌, ◌<◌, ◌++◌, length, All, IfOk, OnOk};
ghost use Rattle.mac_base.specs.Values.{offset_width};
ghost use Rattle.info_roots.specs.Written.{abbrev_bytes, code_for, optional_bytes, body_bytes, unit_bytes, info_bytes, Fits, OffsetsFit};

use crate::root::Root;
use mac_base::{Bytes, NoMemory, push_length, push_section_offset, push_string};
use std::alloc::Global;

/// The fields of each written unit before its table of abbreviations: version 5, `DW_UT_compile`, addresses of 8 bytes.
const FIRST_FIELDS: &[u8] = b"\x05\0\x01\x08";

/// The contents of `.debug_info` and `.debug_abbrev` for these roots: a compilation unit with one entry for each, in
/// order, in the 64-bit format where the root is wide (DWARF 5, 7.5.1.1 and 7.5.3). `read_roots` reads the roots again.
pub fn write_roots(alloc: Global, roots: &[Root]) -> Result<(Bytes, Bytes), NoMemory>
    requires few { length roots.now ≤ 65536 }
    requires fit { All OffsetsFit roots.now }
    requires small { length (info_bytes roots.now) ≤ 1073741824 }
    ensures info { IfOk result (λ written. written.0 ≡ info_bytes roots.now) }
    ensures abbrevs { IfOk result (λ written. written.1 ≡ abbrev_bytes) }
{
    let mut info = Vec::new(alloc);
    for root in roots {
        push_unit(&mut info, root)?;
    }
    let abbrevs = Bytes::from_slice(alloc, abbreviations())?;
    Ok((Bytes::from_vec(info), abbrevs))
}

/// The table of abbreviations of a written file.
#[tactic(auto, unfolding(crate::specs::Written::abbrev_bytes))]
fn abbreviations() -> &'static [u8]
    ensures { result.now ≡ abbrev_bytes }
{
    b"\x01\x11\0\x03\x08\x1b\x08\x79\x17\x10\x17\0\0\x02\x11\0\x03\x08\x1b\x08\x79\x17\x10\x17\x72\x17\0\0\
    \x03\x11\0\x03\x08\x1b\x08\x79\x17\0\0\x04\x11\0\x03\x08\x1b\x08\x79\x17\x72\x17\0\0\0"
}

/// Appends the unit of a root.
#[tactic(auto, unfolding(crate::specs::Written::unit_bytes))]
fn push_unit(into: &mut Vec<u8>, root: &Root) -> Result<(), NoMemory>
    requires fit { OffsetsFit root.now }
    requires small { length (body_bytes root.now) < 0xffff_fff0 }
    ensures { OnOk result (into.new.items ≡ into.old.items ++ unit_bytes root.now) }
{
    push_length(into, root.wide, body_length(root))?;
    push_body(into, root)?;
    Ok(())
}

/// How many bytes a unit has after its length.
#[tactic(auto, using(crate::proofs::BodyLemmas::body_long))]
fn body_length(root: &Root) -> u64
    requires { length (body_bytes root.now) < 0xffff_fff0 }
    ensures { result ≡ length (body_bytes root.now) }
{
    let width = offset_length(root.wide);
    let line = optional_length(root.wide, root.line);
    let base = optional_length(root.wide, root.str_base);
    7 + root.name.len() as u64 + root.dir.len() as u64 + width + width + line + base
}

/// How many bytes an offset has.
fn offset_length(wide: bool) -> u64
    ensures { result ≡ offset_width wide }
{
    if wide { 8 } else { 4 }
}

/// The same of one that an entry may lack.
#[tactic(auto, using(crate::proofs::BodyLemmas::offset_long))]
fn optional_length(wide: bool, offset: Option<u64>) -> u64
    ensures { result ≡ length (optional_bytes wide offset) }
{
    match offset {
        Some(_) => offset_length(wide),
        None => 0,
    }
}

/// Appends a unit without its length.
#[tactic(auto, unfolding(crate::specs::Written::body_bytes))]
fn push_body(into: &mut Vec<u8>, root: &Root) -> Result<(), NoMemory>
    requires { OffsetsFit root.now }
    ensures { OnOk result (into.new.items ≡ into.old.items ++ body_bytes root.now) }
{
    into.extend_from_slice(FIRST_FIELDS)?;
    push_section_offset(into, root.wide, 0)?;
    into.push(code_of(root.line, root.str_base))?;
    push_string(into, root.name.as_slice())?;
    push_string(into, root.dir.as_slice())?;
    push_section_offset(into, root.wide, root.macros)?;
    push_optional(into, root.wide, root.line)?;
    push_optional(into, root.wide, root.str_base)?;
    Ok(())
}

/// The code of the abbreviation of an entry that has these two offsets or lacks them.
fn code_of(line: Option<u64>, str_base: Option<u64>) -> u8
    ensures { result ≡ code_for line str_base }
{
    match (line, str_base) {
        (Some(_), None) => 1,
        (Some(_), Some(_)) => 2,
        (None, None) => 3,
        (None, Some(_)) => 4,
    }
}

/// Appends an offset that an entry may lack.
fn push_optional(into: &mut Vec<u8>, wide: bool, offset: Option<u64>) -> Result<(), NoMemory>
    requires { Fits wide offset }
    ensures { OnOk result (into.new.items ≡ into.old.items ++ optional_bytes wide offset) }
{
    match offset {
        Some(offset) => push_section_offset(into, wide, offset),
        None => Ok(()),
    }
}
