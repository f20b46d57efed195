ghost use Rattle.std.specs.Prelude.{◌≡◌, ◌++◌, false, OnOk, OnErr};
ghost use Rattle.unit_header.specs.Spelling.{flags_of};
ghost use Rattle.unit_header.specs.Writing.{FitsWidth, header_bytes, line_bytes};

use mac_base::{NoMemory, push_section_offset};

/// Appends the header of a macro unit (DWARF 5, 6.3.1): version 5, no operand table, offsets of 8 bytes where `wide` is
/// true and of 4 bytes else, and the offset of the line table where there is one, which has to fit. After `NoMemory` the
/// bytes are as before.
pub fn write_header(into: &mut Vec<u8>, line: Option<u64>, wide: bool) -> Result<(), NoMemory>
    requires { FitsWidth wide line }
    ensures ok { OnOk result (into.new.items ≡ into.old.items ++ header_bytes line wide) }
    ensures err { OnErr result (into.new.items ≡ into.old.items) }
{
    let before = into.len();
    into.extend_from_slice(&[5, 0, flags(wide, line.is_some())])?;
    match push_line(into, line, wide) {
        Ok(()) => Ok(()),
        Err(fault) => {
            into.truncate(before);
            Err(fault)
        }
    }
}

/// The flags of a header without an operand table.
fn flags(wide: bool, lined: bool) -> u8
    ensures { result ≡ flags_of wide lined false }
{
    match (wide, lined) {
        (false, false) => 0,
        (true, false) => 1,
        (false, true) => 2,
        (true, true) => 3,
    }
}

/// Appends the offset of the line table, where there is one.
fn push_line(into: &mut Vec<u8>, line: Option<u64>, wide: bool) -> Result<(), NoMemory>
    requires { FitsWidth wide line }
    ensures ok { OnOk result (into.new.items ≡ into.old.items ++ line_bytes wide line) }
    ensures err { OnErr result (into.new.items ≡ into.old.items) }
{
    match line {
        None => Ok(()),
        Some(offset) => push_section_offset(into, wide, offset),
    }
}
