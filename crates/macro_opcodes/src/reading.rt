ghost use Rattle.std.specs.Prelude.{◌≡◌, ◌+◌};
ghost use Rattle.std.specs.Option.{option_map};
ghost use Rattle.mac_base.specs.Input.{Gives};
ghost use Rattle.unit_header.specs.Header.{header_of};
ghost use Rattle.macro_opcodes.specs.Entry.{entry_of};
ghost use Rattle.macro_opcodes.specs.Reading.{entry_at};

use crate::entry::RawEntry;
use crate::operands::read_operands;
use mac_base::{Cursor, Steps};
use std::sync::ledger::Ledger;
use unit_header::{Header, UnitFault};

/// Reads the next entry, or `None` at the 0 that closes the macro unit (DWARF 5, 6.3.2). A fault leaves the cursor where it
/// was. Each call takes a step.
#[tactic(auto, unfolding(crate::specs::Reading::entry_at))]
pub fn read_entry<'a, L: Ledger>(
    cursor: &mut Cursor<'a>,
    header: &Header<'_>,
    steps: &mut Steps<L>,
) -> Result<Option<RawEntry<'a>>, UnitFault>
    ensures entry { Gives (option_map entry_of) cursor.old cursor.new result (entry_at (header_of header.now) cursor.old) }
    ensures step { steps.new ≡ steps.old + 1 }
{
    steps.tick();
    let at = cursor.at() as u64;
    let mut ahead = cursor.fork();
    let opcode = ahead.u8()?;
    if opcode == 0 {
        *cursor = ahead;
        return Ok(None);
    }
    let (line, operand) = read_operands(&mut ahead, header, at, opcode)?;
    *cursor = ahead;
    Ok(Some(RawEntry {
        at,
        opcode,
        line,
        operand,
    }))
}
