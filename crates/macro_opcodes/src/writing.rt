ghost use Rattle.std.specs.Prelude.{◌≡◌, ◌≢◌, ◌<◌, ◌^◌, ◌++◌, ◌∷◌, [], List, ℕ, take, length, OnOk, OnErr};
ghost use Rattle.std.specs.List.{AllByRecursion};
ghost use Rattle.mac_base.specs.Values.{offset_width};
ghost use Rattle.mac_base.specs.Writing.{offset_bytes, string_bytes, uleb_bytes};
ghost use Rattle.macro_opcodes.specs.Writing.{entry_bytes, opcode_of, shape_bytes, shape_of, Fits};

use crate::entry::OutEntry;
use mac_base::{NoMemory, push_section_offset, push_string, push_uleb};

/// Appends an entry of a macro unit (DWARF 5, 6.3.2), numbers in their shortest spelling, offsets in 8 bytes where `wide`
/// is true and in 4 bytes else. Offsets have to fit, and texts have no NUL. After `NoMemory` the bytes are as before.
pub fn write_entry(into: &mut Vec<u8>, e: &OutEntry<'_>, wide: bool) -> Result<(), NoMemory>
    requires { Fits wide (shape_of e.now) }
    ensures ok { OnOk result (into.new.items ≡ into.old.items ++ entry_bytes wide e.now) }
    ensures err { OnErr result (into.new.items ≡ into.old.items) }
{
    let before = into.len();
    into.push(opcode(e))?;
    match push_operands(into, e, wide) {
        Ok(()) => Ok(()),
        Err(fault) => {
            into.truncate(before);
            Err(fault)
        }
    }
}

/// The opcode of an entry.
fn opcode(e: &OutEntry<'_>) -> u8
    ensures { result ≡ opcode_of e.now }
{
    match e {
        OutEntry::Define { .. } => 0x01,
        OutEntry::Undef { .. } => 0x02,
        OutEntry::Start { .. } => 0x03,
        OutEntry::End => 0x04,
        OutEntry::DefineStr { .. } => 0x05,
        OutEntry::UndefStr { .. } => 0x06,
        OutEntry::Import { .. } => 0x07,
        OutEntry::DefineIndex { .. } => 0x0b,
        OutEntry::UndefIndex { .. } => 0x0c,
    }
}

/// Appends the operands of an entry.
fn push_operands(into: &mut Vec<u8>, e: &OutEntry<'_>, wide: bool) -> Result<(), NoMemory>
    requires { Fits wide (shape_of e.now) }
    ensures ok { OnOk result (into.new.items ≡ into.old.items ++ shape_bytes wide (shape_of e.now)) }
    ensures err { OnErr result (into.new.items ≡ into.old.items) }
{
    match e {
        OutEntry::Define { line, text } => push_line_text(into, *line, text),
        OutEntry::Undef { line, text } => push_line_text(into, *line, text),
        OutEntry::Start { line, file } => push_line_number(into, *line, *file),
        OutEntry::End => Ok(()),
        OutEntry::DefineStr { line, at } => push_line_offset(into, *line, *at, wide),
        OutEntry::UndefStr { line, at } => push_line_offset(into, *line, *at, wide),
        OutEntry::Import { at } => push_section_offset(into, wide, *at),
        OutEntry::DefineIndex { line, index } => push_line_number(into, *line, *index),
        OutEntry::UndefIndex { line, index } => push_line_number(into, *line, *index),
    }
}

/// Appends a line, and a text with its NUL.
fn push_line_text(into: &mut Vec<u8>, line: u64, text: &[u8]) -> Result<(), NoMemory>
    ensures ok { OnOk result (into.new.items ≡ into.old.items ++ (uleb_bytes line ++ string_bytes text.now)) }
    ensures err { OnErr result (into.new.items ≡ into.old.items) }
{
    let before = into.len();
    push_uleb(into, line)?;
    match push_string(into, text) {
        Ok(()) => Ok(()),
        Err(fault) => {
            into.truncate(before);
            Err(fault)
        }
    }
}

/// Appends a line, and a number in ULEB128.
fn push_line_number(into: &mut Vec<u8>, line: u64, number: u64) -> Result<(), NoMemory>
    ensures ok { OnOk result (into.new.items ≡ into.old.items ++ (uleb_bytes line ++ uleb_bytes number)) }
    ensures err { OnErr result (into.new.items ≡ into.old.items) }
{
    let before = into.len();
    push_uleb(into, line)?;
    match push_uleb(into, number) {
        Ok(()) => Ok(()),
        Err(fault) => {
            into.truncate(before);
            Err(fault)
        }
    }
}

/// Appends a line, and an offset.
fn push_line_offset(into: &mut Vec<u8>, line: u64, offset: u64, wide: bool) -> Result<(), NoMemory>
    requires { offset < 256 ^ offset_width wide }
    ensures ok { OnOk result (into.new.items ≡ into.old.items ++ (uleb_bytes line ++ offset_bytes wide offset)) }
    ensures err { OnErr result (into.new.items ≡ into.old.items) }
{
    let before = into.len();
    push_uleb(into, line)?;
    match push_section_offset(into, wide, offset) {
        Ok(()) => Ok(()),
        Err(fault) => {
            into.truncate(before);
            Err(fault)
        }
    }
}
