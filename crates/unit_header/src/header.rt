ghost use Rattle.std.specs.Prelude.{◌≡◌};
ghost use Rattle.std.specs.Option.{option_copied};
ghost use Rattle.mac_base.specs.Input.{Gives, Reads};
ghost use Rattle.unit_header.specs.Header.{header_of, forms_of};
ghost use Rattle.unit_header.specs.Reading.{header_at, flags_at, line_part_at, table_part_at};

use crate::fault::{UnitFault, UnitKind};
use crate::opcode::Opcode;
use crate::operands::Operands;
use crate::rows::pass_rows;
use mac_base::{Cursor, read_offset};

/// The header of a macro unit (DWARF 5, 6.3.1).
#[derive(Drop)]
pub struct Header<'a> {
    pub version: u16,
    /// Whether offsets have 8 bytes, and not 4.
    pub wide: bool,
    /// The offset of the line table in its section, where the header has one.
    pub line: Option<u64>,
    pub operands: Operands<'a>,
}

impl<'a> Header<'a> {
    /// The codes of the forms of an opcode's operands, for standard and listed opcodes alike; `None` exactly where it is
    /// neither, and for 0, which closes a macro unit.
    pub fn forms(&self, opcode: u8) -> Option<&'a [u8]>
        ensures { option_copied result ≡ forms_of (header_of self.now) opcode }
    {
        if opcode == 0 {
            return None;
        }
        match Opcode::of(opcode).forms() {
            Some(own) => Some(own),
            None => self.operands.forms(opcode),
        }
    }
}

/// Reads the header of a macro unit. A fault leaves the cursor where it was.
#[tactic(auto, unfolding(crate::specs::Reading::header_at))]
pub fn read_header<'a>(cursor: &mut Cursor<'a>) -> Result<Header<'a>, UnitFault>
    ensures { Gives header_of cursor.old cursor.new result (header_at cursor.old) }
{
    let mut ahead = cursor.fork();
    let at = ahead.at() as u64;
    if ahead.u16()? != 5 {
        return Err(UnitFault {
            at,
            what: UnitKind::Version,
        });
    }
    let header = read_flags(&mut ahead)?;
    *cursor = ahead;
    Ok(header)
}

/// Reads the flags and what follows them.
fn read_flags<'a>(cursor: &mut Cursor<'a>) -> Result<Header<'a>, UnitFault>
    ensures { Reads header_of cursor.new result (flags_at cursor.old) }
{
    let at = cursor.at() as u64;
    let flags = cursor.u8()?;
    if flags > 7 {
        return Err(UnitFault {
            at,
            what: UnitKind::Flags,
        });
    }
    let wide = flags % 2 == 1;
    let line = read_line_part(cursor, wide, flags / 2 % 2 == 1)?;
    let operands = read_table_part(cursor, flags / 4 % 2 == 1)?;
    Ok(Header {
        version: 5,
        wide,
        line,
        operands,
    })
}

/// Reads the line offset, where there is one.
fn read_line_part(
    cursor: &mut Cursor<'_>,
    wide: bool,
    lined: bool,
) -> Result<Option<u64>, UnitFault>
    ensures { Reads (λ line. line) cursor.new result (line_part_at wide lined cursor.old) }
{
    if lined {
        Ok(Some(read_offset(cursor, wide)?))
    } else {
        Ok(None)
    }
}

/// Reads the operand table, where there is one.
fn read_table_part<'a>(cursor: &mut Cursor<'a>, tabled: bool) -> Result<Operands<'a>, UnitFault>
    ensures { Reads (λ rows. rows) cursor.new result (table_part_at tabled cursor.old) }
{
    if !tabled {
        return Ok(Operands::new(0, cursor.fork()));
    }
    let count = cursor.u8()?;
    let rows = cursor.fork();
    pass_rows(cursor, count)?;
    Ok(Operands::new(count, rows))
}
