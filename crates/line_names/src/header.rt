ghost use Rattle.std.specs.Prelude.{◌≡◌, Ok, Err, IfErr, OnOk};
ghost use Rattle.mac_base.specs.Input.{Reads};
ghost use Rattle.line_names.specs.Header.{bytes_passed, opcodes_at, header_at};

use crate::fault::{LineFault, LineKind};
use mac_base::{Cursor, CursorFault, read_offset};

/// Reads a header from its version up to the format of its directories. The answer is the size of addresses; the rest is
/// passed over, the header's length too.
#[tactic(auto, unfolding(crate::specs::Header::header_at))]
pub fn read_header(cursor: &mut Cursor<'_>, wide: bool) -> Result<u8, LineFault>
    ensures { Reads (λ n. n) cursor.new result (header_at wide cursor.old) }
{
    let at = cursor.at() as u64;
    if cursor.u16()? != 5 {
        return Err(LineFault::new(at, LineKind::Version));
    }
    let address = cursor.u8()?;
    let _segment_selector_size = cursor.u8()?;
    let _header_length = read_offset(cursor, wide)?;
    // minimum_instruction_length, maximum_operations_per_instruction, default_is_stmt, line_base, line_range
    pass_bytes(cursor, 5)?;
    pass_opcodes(cursor)?;
    Ok(address)
}

/// Passes over `opcode_base` and the lengths of the standard opcodes, one for each below it.
#[tactic(auto, unfolding(crate::specs::Header::opcodes_at))]
fn pass_opcodes(cursor: &mut Cursor<'_>) -> Result<(), LineFault>
    ensures ok { OnOk result (opcodes_at cursor.old ≡ Ok cursor.new) }
    ensures err { IfErr result (λ fault. opcodes_at cursor.old ≡ Err fault) }
{
    let at = cursor.at() as u64;
    let base = cursor.u8()?;
    if base == 0 {
        return Err(LineFault::new(at, LineKind::OpcodeBase));
    }
    pass_bytes(cursor, base - 1)?;
    Ok(())
}

/// Passes over fields of one byte.
fn pass_bytes(cursor: &mut Cursor<'_>, count: u8) -> Result<(), CursorFault>
    ensures ok { OnOk result (bytes_passed count cursor.old ≡ Ok cursor.new) }
    ensures err { IfErr result (λ fault. bytes_passed count cursor.old ≡ Err fault) }
{
    for _index in 0..count {
        cursor.u8()?;
    }
    Ok(())
}
