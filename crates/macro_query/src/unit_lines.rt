ghost use Rattle.std.specs.Prelude.{◌≡◌, ◌++◌, OnOk, codes, decimal};
ghost use Rattle.unit_header.specs.Opcodes.{opcode_by_byte};
ghost use Rattle.macro_opcodes.specs.Entry.{entry_of, operand_of};
ghost use Rattle.macro_query.specs.UnitLines.{name_of, head_of, tail_of, line_of};
ghost use Rattle.mac_base.specs.ReportText.{hex};

use mac_base::{NoMemory, push_bytes, push_hex, push_number, push_offset, push_text};
use macro_opcodes::{Operand, RawEntry};
use unit_header::Opcode;

/// Appends the line of an entry.
pub fn push_line(text: &mut Vec<u8>, entry: &RawEntry<'_>) -> Result<(), NoMemory>
    ensures { OnOk result (text.new.items ≡ text.old.items ++ line_of (entry_of entry.now)) }
{
    push_head(text, entry.at, entry.opcode)?;
    push_tail(text, entry.line, entry.operand)?;
    text.push(b'\n')?;
    Ok(())
}

/// Appends the place and the name.
fn push_head(text: &mut Vec<u8>, at: u64, opcode: u8) -> Result<(), NoMemory>
    ensures { OnOk result (text.new.items ≡ text.old.items ++ head_of at opcode) }
{
    push_hex(text, at)?;
    text.push(b' ')?;
    push_name(text, Opcode::of(opcode), opcode)
}

/// Appends the name of an opcode.
fn push_name(text: &mut Vec<u8>, opcode: Opcode, byte: u8) -> Result<(), NoMemory>
    ensures { OnOk result (text.new.items ≡ text.old.items ++ name_of opcode byte) }
{
    match opcode {
        Opcode::Define => push_bytes(text, b"define"),
        Opcode::Undef => push_bytes(text, b"undef"),
        Opcode::StartFile => push_bytes(text, b"start_file"),
        Opcode::EndFile => push_bytes(text, b"end_file"),
        Opcode::DefineStrp => push_bytes(text, b"define_strp"),
        Opcode::UndefStrp => push_bytes(text, b"undef_strp"),
        Opcode::Import => push_bytes(text, b"import"),
        Opcode::DefineSup => push_bytes(text, b"define_sup"),
        Opcode::UndefSup => push_bytes(text, b"undef_sup"),
        Opcode::ImportSup => push_bytes(text, b"import_sup"),
        Opcode::DefineStrx => push_bytes(text, b"define_strx"),
        Opcode::UndefStrx => push_bytes(text, b"undef_strx"),
        Opcode::Other => push_vendor(text, byte),
    }
}

/// Appends the name of an opcode that has none of its own.
fn push_vendor(text: &mut Vec<u8>, byte: u8) -> Result<(), NoMemory>
    ensures { OnOk result (text.new.items ≡ text.old.items ++ (codes "vendor " ++ hex byte)) }
{
    text.extend_from_slice(b"vendor ")?;
    push_hex(text, u64::from(byte))
}

/// Appends what follows the name.
fn push_tail(text: &mut Vec<u8>, line: u64, operand: Operand<'_>) -> Result<(), NoMemory>
    ensures { OnOk result (text.new.items ≡ text.old.items ++ tail_of line (operand_of operand.entry)) }
{
    match operand {
        Operand::None | Operand::Other => Ok(()),
        Operand::File(index) | Operand::Index(index) => {
            push_number(text, line)?;
            push_number(text, index)
        }
        Operand::Text(bytes) => {
            push_number(text, line)?;
            push_text(text, bytes)
        }
        Operand::Str(at) | Operand::SupStr(at) => {
            push_number(text, line)?;
            push_offset(text, at)
        }
        Operand::Macro(at) | Operand::SupMacro(at) => push_offset(text, at),
    }
}
